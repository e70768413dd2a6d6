// Entering a contract.
ghost use Rattle.std.specs.Prelude.{◌≡◌, ℕ, ◌<◌, ◌≤◌, true, false, ◌⊎◌, List, length, take, IfSome, IfOk, Some, None, vec_len, OnErr, nat_le};
ghost use Rattle.std.specs.Option as Options;
ghost use Rattle.book.specs.Anyhow.{EntersOver};
ghost use Rattle.book.specs.Declines.{places_wrong, rates_wrong, enter_early, enter_sentences};
ghost use Rattle.book.specs.Finding.{place_of};
ghost use Rattle.book.specs.Laid.{state, Outside, Room, Holds, Framed, AnswersAsListed};
ghost use Rattle.book.specs.Entries.{millionths_of, entry_of};
ghost use Rattle.book.specs.Listed.{listed};
ghost use Rattle.book.specs.Plain.{size, scenarios, same_key, holds_key, entry, with_entry};
ghost use Rattle.book.specs.Refusals.{first, refusal_of, FreeOf};
ghost use Rattle.book.specs.Places.{handed_of, held, SamePlaces};

use crate::book::Book;
use crate::contract::Contract;
use crate::frame::Frame;
use crate::laying::extend;
use crate::opening::places_short;
use crate::places::Lent;
use crate::refusal::Refusal;
use crate::shown::Handed;
use reckoning::loss::Loss;
use reckoning::rate::Rate;
use reckoning::reckoning::Reckoning;

// What an accepted enter answers: a type of its own, so that it can tell more later.
#[derive(Clone, Copy, Debug, PartialEq, Eq)]
pub struct Entered;

// Whether two keys are the same: the one place where keys are compared. A type of keys would have to be made of a number at every call.
fn is_same_key(a: u32, b: u32) -> bool
    ensures { result ≡ same_key a b }
{
    a == b
}

// The rates, or none where they are not one a scenario or one exceeds a million.
pub(crate) fn read_rates(given: &[u32], scenarios: usize) -> Option<[Rate; 8]>
    requires { scenarios ≤ 8 }
    ensures { Options.MatchOption result (rates_wrong scenarios given.now ≡ true) (λ rates. (rates_wrong scenarios given.now ≡ false) × (millionths_of (take scenarios rates) ≡ given.now)) }
{
    if given.len() != scenarios {
        return None;
    }
    let mut rates = [Rate::never(); 8];
    // by index: of what a zip lends out by iter_mut no element is known after it
    for (i, millionths) in given.iter().enumerate() {
        rates[i] = Rate::new(*millionths)?;
    }
    Some(rates)
}

impl Book {
    // The place of the first contract of that key, from 0.
    pub(crate) fn find(&self, key: u32) -> Option<usize>
        ensures place { result ≡ place_of key (listed self.now).contracts }
        ensures within { IfSome result (λ i. i < vec_len self.now.contracts) }
    {
        self.contracts
            .iter()
            .position(|contract| is_same_key(contract.key, key))
    }

    // Whether a contract of that key is in the book.
    fn has_key(&self, key: u32) -> bool
        ensures { result ≡ holds_key key (listed self.now).contracts }
    {
        self.find(key).is_some()
    }

    // Whether the places do not fit the book.
    pub(crate) fn are_places_wrong(&self, handed: Handed) -> bool
        ensures value { result ≡ places_wrong handed (listed self.now) }
        ensures room { result ≡ false → Room self.now handed }
    {
        places_short(handed, self.shares.count) || handed.levels != self.places
    }

    pub(crate) fn frame(&self) -> Frame
        ensures ceiling { result.ceiling ≡ self.now.ceiling }
        ensures scenarios { result.scenarios ≡ self.now.shares.count }
        ensures places { result.places ≡ self.now.places }
        ensures len { result.len ≡ self.now.kept }
        ensures list { Framed (listed self.now) result }
    {
        Frame {
            ceiling: self.ceiling,
            scenarios: self.shares.count,
            places: self.places,
            len: self.kept,
        }
    }

    // Whether the book has no room for one contract more.
    fn is_full(&self) -> bool
        ensures value { result ≡ nat_le 256 (size (listed self.now)) }
        ensures room { result ≡ false → vec_len self.now.contracts < 256 }
    {
        self.contracts.len() >= 256
    }

    // The contract to enter, or why none may be entered whatever the places hold.
    fn admit(&self, key: u32, loss: u32, rates: &[u32], handed: Handed) -> Result<Contract, Refusal>
        ensures declines { refusal_of result ≡ first (enter_early handed (listed self.now) key loss rates.now) }
        ensures admitted { IfOk result (λ c. (entry_of self.now.shares.count c ≡ entry key loss rates.now) × (places_wrong handed (listed self.now) ≡ false) × (vec_len self.now.contracts < 256) × (holds_key key (listed self.now).contracts ≡ false)) }
    {
        if self.are_places_wrong(handed) {
            return Err(Refusal::Places);
        }
        let Some(loss) = Loss::new(loss) else {
            return Err(Refusal::Loss);
        };
        let Some(rates) = read_rates(rates, self.shares.count) else {
            return Err(Refusal::Rates);
        };
        if self.has_key(key) {
            return Err(Refusal::Present);
        }
        if self.is_full() {
            return Err(Refusal::Full);
        }
        Ok(Contract { key, loss, rates })
    }

    // Appends a contract.
    pub fn enter<R: Reckoning>(
        &mut self,
        key: u32,
        loss: u32,
        rates: &[u32],
        places: &mut Lent<'_, R::Value>,
    ) -> Result<Entered, Refusal>
        ensures declines { FreeOf 13 (first (enter_early (handed_of (held places.old)) (listed self.old) key loss rates.now)) (refusal_of result) }
        ensures list { refusal_of result ≡ None → listed self.new ≡ with_entry (listed self.old) (entry key loss rates.now) }
        ensures holds { Holds R.Reckoning.operations self.old (held places.old) → AnswersAsListed (enter_sentences (handed_of (held places.old)) (listed self.old) key loss rates.now) (refusal_of result) (Holds R.Reckoning.operations self.new (held places.new)) }
        ensures over { EntersOver R.Reckoning.operations self.old self.new loss rates.now (first (enter_early (handed_of (held places.old)) (listed self.old) key loss rates.now)) (refusal_of result) (held places.old) (held places.new) }
        ensures keeps { refusal_of result ≡ None → Outside (scenarios (listed self.old)) (length places.old.levels.now) self.new.kept (held places.old) (held places.new) }
        ensures lent { SamePlaces places.old places.new }
        ensures unchanged { OnErr result (state self.new (held places.new) ≡ state self.old (held places.old)) }
    {
        let contract = self.admit(key, loss, rates, places.handed())?;
        let Some(kept) = extend::<R>(
            self.frame(),
            &contract,
            places.levels,
            places.bounds,
            places.values,
        ) else {
            return Err(Refusal::Levels);
        };
        self.contracts.push_reserved(contract);
        self.kept = kept;
        Ok(Entered)
    }
}
