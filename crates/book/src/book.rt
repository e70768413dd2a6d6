// The loss book.
ghost use Rattle.std.specs.Prelude.{◌≡◌, ◌≤◌, true, map, vec_len, vec_capacity};
ghost use Rattle.book.specs.Entries.{entry_of};
ghost use Rattle.book.specs.Plain.{distinct_keys};

use crate::contract::Contract;
use crate::shares::Shares;

// At most 256 contracts in order of entry, with room for all of them from the start. Levels and values lie in places that each call is lent.
#[derive(Drop)]
pub struct Book {
    pub(crate) contracts: Vec<Contract>,
    pub(crate) shares: Shares,
    pub(crate) ceiling: u32,
    // how many level places the book was opened with
    pub(crate) places: usize,
    // how many levels it keeps there
    pub(crate) kept: usize,
    ghost few: { vec_len contracts ≤ 256 },
    ghost room: { 256 ≤ vec_capacity contracts },
    ghost some_ceiling: { 1 ≤ ceiling },
    ghost low_ceiling: { ceiling ≤ 65535 },
    ghost few_places: { places ≤ 65536 },
    ghost inside: { kept ≤ places },
    ghost own_keys: { distinct_keys (map (entry_of shares.count) contracts.items) ≡ true },
}
