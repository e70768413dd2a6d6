// Making and opening a book.
ghost use Rattle.std.specs.Prelude.{◌≡◌, ◌*◌, ◌≤◌, true, [], ◌∷◌, length, take, IfOk, None, MatchOption, OnErr};
ghost use Rattle.reckoning.specs.Outcomes.{summed};
ghost use Rattle.book.specs.Declines.{short, shares_wrong, open_sentences};
ghost use Rattle.book.specs.Laid.{state, Outside, Holds};
ghost use Rattle.book.specs.Listed.{shares_of, listed};
ghost use Rattle.book.specs.Plain.{unopened, opened};
ghost use Rattle.book.specs.Refusals.{first, refusal_of};
ghost use Rattle.book.specs.Places.{handed_of, held, SamePlaces};

use crate::book::Book;
use crate::laying::begin;
use crate::places::Lent;
use crate::refusal::Refusal;
use crate::shares::Shares;
use crate::shown::Handed;
use reckoning::reckoning::Reckoning;
use std::alloc::{AllocError, Global};

// What an accepted open answers: a type of its own, so that it can tell more later.
#[derive(Clone, Copy, Debug, PartialEq, Eq)]
pub struct Opened;

// The sum of at most eight shares.
fn total(shares: &[u32]) -> u64
    requires { length shares.now ≤ 8 }
    ensures { result ≡ summed (λ w. w) shares.now }
{
    shares.iter().map(|share| u64::from(*share)).sum()
}

impl Shares {
    // The shares, or none where they are not 1 to 8 or do not sum to a million.
    pub fn new(shares: &[u32]) -> Option<Shares>
        ensures { MatchOption result (shares_wrong shares.now ≡ true) (λ s. shares_of s ≡ shares.now) }
    {
        let count = shares.len();
        if count < 1 || count > 8 {
            return None;
        }
        if total(shares) != 1_000_000 {
            return None;
        }
        let mut each = [0; 8];
        each[..count].copy_from_slice(shares);
        Some(Shares { each, count })
    }
}

impl Book {
    // A book before open, or no memory for its contracts.
    pub fn new(heap: Global) -> Result<Book, AllocError>
        ensures { IfOk result (λ b. listed b ≡ unopened) }
    {
        let contracts = Vec::with_capacity(heap, 256)?;
        let shares = Shares {
            each: [1_000_000, 0, 0, 0, 0, 0, 0, 0],
            count: 1,
        };
        Ok(Book {
            contracts,
            shares,
            ceiling: 1,
            places: 0,
            kept: 0,
        })
    }

    // Sets ceiling and shares and empties the book, whatever it and the places held.
    pub fn open<R: Reckoning>(
        &mut self,
        ceiling: u32,
        shares: &[u32],
        places: &mut Lent<'_, R::Value>,
    ) -> Result<Opened, Refusal>
        ensures declines { refusal_of result ≡ first (open_sentences (handed_of (held places.old)) ceiling shares.now) }
        ensures list { refusal_of result ≡ None → listed self.new ≡ opened (length places.old.levels.now) ceiling shares.now }
        ensures holds { refusal_of result ≡ None → Holds R.Reckoning.operations self.new (held places.new) }
        ensures keeps { refusal_of result ≡ None → Outside (length shares.now) (length places.old.levels.now) 1 (held places.old) (held places.new) }
        ensures lent { SamePlaces places.old places.new }
        ensures unchanged { OnErr result (state self.new (held places.new) ≡ state self.old (held places.old)) }
    {
        if ceiling < 1 || ceiling > 65_535 {
            return Err(Refusal::Ceiling);
        }
        let Some(shares) = Shares::new(shares) else {
            return Err(Refusal::Shares);
        };
        let scenarios = shares.count;
        if places_short(places.handed(), scenarios) {
            return Err(Refusal::Places);
        }
        begin::<R>(scenarios, places);
        self.contracts.clear();
        self.shares = shares;
        self.ceiling = ceiling;
        self.places = places.levels.len();
        self.kept = 1;
        Ok(Opened)
    }
}

// Whether the places are too few or too many for that many scenarios.
pub(crate) fn places_short(handed: Handed, scenarios: usize) -> bool
    requires { scenarios ≤ 8 }
    ensures { result ≡ short handed scenarios }
{
    if handed.levels < 1 || handed.levels > 65_536 {
        return true;
    }
    let most = handed.levels * scenarios;
    handed.bounds < most || handed.values < most
}
