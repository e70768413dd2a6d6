// Striking a contract, and giving one other rates.
ghost use Rattle.std.specs.Prelude.{◌≡◌, length, None, OnErr};
ghost use Rattle.book.specs.Declines.{strike_sentences, rerate_sentences};
ghost use Rattle.book.specs.Fitting.{Fits};
ghost use Rattle.book.specs.Laid.{state, Outside, Holds};
ghost use Rattle.book.specs.Listed.{listed};
ghost use Rattle.book.specs.Plain.{scenarios, without, re_rated, with_entries};
ghost use Rattle.book.specs.Rebuilt.{RebuiltOver};
ghost use Rattle.book.specs.Refusals.{first, refusal_of};
ghost use Rattle.book.specs.Places.{handed_of, held, SamePlaces};

use crate::book::Book;
use crate::entering::read_rates;
use crate::places::Lent;
use crate::refusal::Refusal;
use reckoning::reckoning::Reckoning;

// What an accepted strike answers: a type of its own, so that it can tell more later.
#[derive(Clone, Copy, Debug, PartialEq, Eq)]
pub struct Struck;

// What an accepted re-rate answers, likewise.
#[derive(Clone, Copy, Debug, PartialEq, Eq)]
pub struct Rerated;

impl Book {
    // Removes the contract of that key; the later ones move up, and the key may be entered again.
    pub fn strike<R: Reckoning>(
        &mut self,
        key: u32,
        places: &mut Lent<'_, R::Value>,
    ) -> Result<Struck, Refusal>
        ensures declines { refusal_of result ≡ first (strike_sentences (handed_of (held places.old)) (listed self.old) key) }
        ensures list { refusal_of result ≡ None → listed self.new ≡ with_entries (listed self.old) (without key (listed self.old).contracts) }
        ensures holds { Holds R.Reckoning.operations self.old (held places.old) → refusal_of result ≡ None → Holds R.Reckoning.operations self.new (held places.new) }
        ensures fits { refusal_of result ≡ None → Fits (listed self.new) → Holds R.Reckoning.operations self.new (held places.new) }
        ensures over { refusal_of result ≡ None → RebuiltOver R.Reckoning.operations (listed self.new) self.new.kept (held places.old) (held places.new) }
        ensures keeps { refusal_of result ≡ None → Outside (scenarios (listed self.old)) (length places.old.levels.now) self.new.kept (held places.old) (held places.new) }
        ensures lent { SamePlaces places.old places.new }
        ensures unchanged { OnErr result (state self.new (held places.new) ≡ state self.old (held places.old)) }
    {
        if self.are_places_wrong(places.handed()) {
            return Err(Refusal::Places);
        }
        let Some(place) = self.find(key) else {
            return Err(Refusal::Absent);
        };
        let _ = self.contracts.remove(place);
        self.rebuild::<R>(places);
        Ok(Struck)
    }

    // Replaces all rates of the contract of that key, which keeps its position.
    pub fn rerate<R: Reckoning>(
        &mut self,
        key: u32,
        rates: &[u32],
        places: &mut Lent<'_, R::Value>,
    ) -> Result<Rerated, Refusal>
        ensures declines { refusal_of result ≡ first (rerate_sentences (handed_of (held places.old)) (listed self.old) key rates.now) }
        ensures list { refusal_of result ≡ None → listed self.new ≡ with_entries (listed self.old) (re_rated key rates.now (listed self.old).contracts) }
        ensures holds { Holds R.Reckoning.operations self.old (held places.old) → refusal_of result ≡ None → Holds R.Reckoning.operations self.new (held places.new) }
        ensures fits { refusal_of result ≡ None → Fits (listed self.new) → Holds R.Reckoning.operations self.new (held places.new) }
        ensures over { refusal_of result ≡ None → RebuiltOver R.Reckoning.operations (listed self.new) self.new.kept (held places.old) (held places.new) }
        ensures keeps { refusal_of result ≡ None → Outside (scenarios (listed self.old)) (length places.old.levels.now) self.new.kept (held places.old) (held places.new) }
        ensures lent { SamePlaces places.old places.new }
        ensures unchanged { OnErr result (state self.new (held places.new) ≡ state self.old (held places.old)) }
    {
        if self.are_places_wrong(places.handed()) {
            return Err(Refusal::Places);
        }
        let Some(rates) = read_rates(rates, self.shares.count) else {
            return Err(Refusal::Rates);
        };
        let Some(place) = self.find(key) else {
            return Err(Refusal::Absent);
        };
        self.contracts[place].rates = rates;
        self.rebuild::<R>(places);
        Ok(Rerated)
    }
}
