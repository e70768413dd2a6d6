// What a book lists: its ceiling, its shares, and its contracts in order of entry.
ghost use Rattle.std.specs.Prelude.{◌≡◌, ◌≤◌, map, length};
ghost use Rattle.book.specs.Entries.{entry_of};
ghost use Rattle.book.specs.Listed.{listed};
ghost use Rattle.book.specs.Plain.{scenarios};

use crate::book::Book;
use crate::contract::Contract;
use reckoning::rate::Rate;

impl Contract {
    // The key.
    pub fn key(&self) -> u32
        ensures value { result ≡ self.now.key }
    {
        self.key
    }

    // The loss in units.
    pub fn loss(&self) -> u32
        ensures value { result ≡ self.now.loss.units }
    {
        self.loss.units()
    }

    // The eight rates; those past the book's scenarios are not used.
    pub fn rates(&self) -> &[Rate]
        ensures value { result.now ≡ self.now.rates }
        ensures eight { length result.now ≡ 8 }
    {
        &self.rates[..]
    }
}

impl Book {
    // The ceiling.
    pub fn ceiling(&self) -> u32
        ensures value { result ≡ (listed self.now).ceiling }
    {
        self.ceiling
    }

    // The shares, one a scenario, in order of the scenarios.
    pub fn shares(&self) -> &[u32]
        ensures value { result.now ≡ (listed self.now).shares }
        ensures few { length result.now ≤ 8 }
    {
        self.shares.as_slice()
    }

    // The contracts in order of entry.
    pub fn contracts(&self) -> &[Contract]
        ensures value { map (entry_of (scenarios (listed self.now))) result.now ≡ (listed self.now).contracts }
        ensures few { length result.now ≤ 256 }
    {
        self.contracts.as_slice()
    }
}
