// Laying a book out anew, from its first contract.
ghost use Rattle.std.specs.Prelude.{◌≡◌, ◌*◌, ◌<◌, ◌≤◌, map, length};
ghost use Rattle.book.specs.Fitting.{Fits};
ghost use Rattle.book.specs.Laid.{Outside, Room, Lays, Holds, Framed};
ghost use Rattle.book.specs.Entries.{entry_of};
ghost use Rattle.book.specs.Listed.{listed};
ghost use Rattle.book.specs.Plain.{Plain, scenarios};
ghost use Rattle.book.specs.Rebuilt.{RebuiltOver};
ghost use Rattle.book.specs.Places.{handed_of, held, SamePlaces, HasRows};

use crate::book::Book;
use crate::contract::Contract;
use crate::frame::Frame;
use crate::laying::{begin, extend};
use crate::places::Lent;
use reckoning::reckoning::Reckoning;

// Lays the contracts out in turn, over whatever the places hold, and answers how many levels are kept then. It stops at a contract for which the level places are too few.
fn lay_all<R: Reckoning>(
    frame: Frame,
    contracts: &[Contract],
    places: &mut Lent<'_, R::Value>,
) -> usize
    requires some { 0 < frame.places }
    requires levels { length places.old.levels.now ≡ frame.places }
    requires rows { HasRows frame.scenarios frame.places (handed_of (held places.old)) }
    ensures lent { SamePlaces places.old places.new }
    ensures within { result ≤ frame.places }
    ensures outside { Outside frame.scenarios frame.places result (held places.old) (held places.new) }
    ensures over { (p : Plain) → Framed p frame → p.contracts ≡ map (entry_of frame.scenarios) contracts.now → RebuiltOver R.Reckoning.operations p result (held places.old) (held places.new) }
    ensures lays { (p : Plain) → Framed p frame → p.contracts ≡ map (entry_of frame.scenarios) contracts.now → Fits p → Lays R.Reckoning.operations p result (held places.new) }
{
    begin::<R>(frame.scenarios, places);
    let mut len = 1;
    for contract in contracts {
        // each field by name: a struct that keeps facts has no ..frame
        let before = Frame {
            ceiling: frame.ceiling,
            scenarios: frame.scenarios,
            places: frame.places,
            len,
        };
        let Some(more) = extend::<R>(
            before,
            contract,
            places.levels,
            places.bounds,
            places.values,
        ) else {
            return len;
        };
        len = more;
    }
    len
}

impl Book {
    // Lays the book out anew from its first contract, whatever the places hold.
    pub(crate) fn rebuild<R: Reckoning>(&mut self, places: &mut Lent<'_, R::Value>)
        requires { Room self.old (handed_of (held places.old)) }
        ensures lent { SamePlaces places.old places.new }
        ensures list { listed self.new ≡ listed self.old }
        ensures keeps { Outside (scenarios (listed self.old)) (length places.old.levels.now) self.new.kept (held places.old) (held places.new) }
        ensures over { RebuiltOver R.Reckoning.operations (listed self.new) self.new.kept (held places.old) (held places.new) }
        ensures holds { Fits (listed self.old) → Holds R.Reckoning.operations self.new (held places.new) }
    {
        let contracts = self.contracts.as_slice();
        self.kept = lay_all::<R>(self.frame(), contracts, places);
    }
}
