// Laying a book out in its places: the book without contracts, and one contract more.
ghost use Rattle.std.specs.Prelude.{◌≡◌, ℕ, ◌+◌, ◌*◌, ◌<◌, ◌≤◌, List, [], ◌∷◌, length, drop, IfSome, MatchOption, slice_set};
ghost use Rattle.book.specs.Anyhow.{ExtendsOver};
ghost use Rattle.book.specs.Merging.{row_of};
ghost use Rattle.book.specs.Laid.{Outside, Lays, Framed, Extends};
ghost use Rattle.book.specs.Entries.{entry_of};
ghost use Rattle.book.specs.Places.{places_of, held, handed_of, HasRows, SamePlaces};
ghost use Rattle.book.specs.Plain.{Plain, opened};
ghost use Rattle.book.specs.Rebuilt.{Begun};

use crate::contract::Contract;
use crate::frame::Frame;
use crate::merging::{Merge, merge_levels, merged_len};
use crate::places::Lent;
use crate::valuing::merge_rows;
use reckoning::bounds::Bounds;
use reckoning::grains::Grains;
use reckoning::reckoning::Reckoning;

// Puts whole at the front of each scenario's row.
fn begin_rows<R: Reckoning>(scenarios: usize, places: usize, rows: &mut [R::Value])
    requires { (0 < places) × (scenarios * places ≤ length rows.old) }
    ensures rest { drop (scenarios * places) rows.new ≡ drop (scenarios * places) rows.old }
    ensures each { (s : ℕ) → s < scenarios → row_of places s rows.new ≡ slice_set (row_of places s rows.old) 0 R.Reckoning.operations.whole }
{
    // by index: tried through chunks_mut, where no proof knows the values that were written
    for s in 0..scenarios {
        rows[s * places] = R::whole();
    }
}

// Lays out the book without contracts: level 0 alone, with whole in every scenario.
pub(crate) fn begin<R: Reckoning>(scenarios: usize, places: &mut Lent<'_, R::Value>)
    requires some { 0 < length places.old.levels.now }
    requires rows { HasRows scenarios (length places.old.levels.now) (handed_of (held places.old)) }
    ensures outside { Outside scenarios (length places.old.levels.now) 1 (held places.old) (held places.new) }
    ensures begun { Begun R.Reckoning.operations scenarios (length places.old.levels.now) (held places.old) (held places.new) }
    ensures lent { SamePlaces places.old places.new }
    ensures lays { (ceiling : ℕ) (shares : List ℕ) → length shares ≡ scenarios → Lays R.Reckoning.operations (opened (length places.old.levels.now) ceiling shares) 1 (held places.new) }
{
    let each = places.levels.len();
    begin_rows::<Bounds>(scenarios, each, places.bounds);
    begin_rows::<R>(scenarios, each, places.values);
    places.levels[0] = 0;
}

// Lays one contract more over those that the places hold, and answers how many levels are kept then; none, and nothing is written, where the level places are too few. The places are taken apart: levels are read while values are lent out, which the check does not follow through one struct.
pub(crate) fn extend<R: Reckoning>(
    frame: Frame,
    contract: &Contract,
    levels: &mut [u32],
    bounds: &mut [Grains],
    values: &mut [R::Value],
) -> Option<usize>
    requires { (length levels.old ≡ frame.places) × ((frame.scenarios * frame.places ≤ length bounds.old) × (frame.scenarios * frame.places ≤ length values.old)) }
    ensures outside { MatchOption result (places_of levels.new bounds.new values.new ≡ places_of levels.old bounds.old values.old) (λ n. (n ≤ frame.places) × Outside frame.scenarios frame.places n (places_of levels.old bounds.old values.old) (places_of levels.new bounds.new values.new)) }
    ensures over { ExtendsOver R.Reckoning.operations frame.len frame.ceiling frame.places contract.now.loss.units (entry_of frame.scenarios contract.now).rates result (places_of levels.old bounds.old values.old) (places_of levels.new bounds.new values.new) }
    ensures grows { IfSome result (λ n. frame.len ≤ n) }
    ensures lays { (p : Plain) → Framed p frame → Lays R.Reckoning.operations p frame.len (places_of levels.old bounds.old values.old) → Extends R.Reckoning.operations p (entry_of frame.scenarios contract.now) result (places_of levels.new bounds.new values.new) }
{
    let scenarios = frame.scenarios;
    let places = frame.places;
    let len = frame.len;
    let merge = Merge::of(&levels[..len], contract.loss.units(), frame.ceiling);
    let merged = merged_len(levels, merge);
    if merged > places {
        return None;
    }
    let rates = &contract.rates[0..scenarios];
    merge_rows::<Bounds>(levels, merge, merged, rates, places, bounds);
    merge_rows::<R>(levels, merge, merged, rates, places, values);
    merge_levels(levels, merge, merged);
    Some(merged)
}
