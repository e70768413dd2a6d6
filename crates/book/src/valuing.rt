// The values beside the kept levels, in place, for every reckoning.
ghost use Rattle.std.specs.Prelude.{◌≡◌, ℕ, ◌+◌, ◌*◌, ◌<◌, ◌≤◌, length, drop, slice_index};
ghost use Rattle.book.specs.Entries.{millionths_of};
ghost use Rattle.book.specs.Laid.{RowsOutside};
ghost use Rattle.book.specs.Merging.{row_of};
ghost use Rattle.book.specs.Turned.{row_turned, LeftOf};

use crate::merging::Merge;
use reckoning::rate::Rate;
use reckoning::reckoning::Reckoning;

// The values at the levels once a contract of that rate is merged. The levels are still the old ones. It walks as merge_levels does, which writes where it reads and so can't lend its levels to a walk for both.
fn merge_row<R: Reckoning>(
    levels: &[u32],
    merge: Merge,
    merged: usize,
    rate: Rate,
    row: &mut [R::Value],
)
    requires { LeftOf levels.now merge × ((merge.own ≤ length row.old) × ((merge.moved ≤ length row.old) × (merged ≤ length row.old))) }
    ensures rest { drop merged row.new ≡ drop merged row.old }
    ensures turned { row.new ≡ row_turned R.Reckoning.operations levels.now merge.loss rate.millionths merged row.old merge.own merge.moved }
{
    let mut left = merge;
    for t in (0..merged).rev() {
        let Some((_, rest)) = left.turn(levels) else {
            break;
        };
        let stays = row[left.own - 1];
        let falls = if left.moved > 0 {
            row[left.moved - 1]
        } else {
            R::nothing()
        };
        row[t] = R::blend(rate, stays, falls);
        left = rest;
    }
}

// The same for each scenario, whose rows of `places` values lie one after the other.
pub(crate) fn merge_rows<R: Reckoning>(
    levels: &[u32],
    merge: Merge,
    merged: usize,
    rates: &[Rate],
    places: usize,
    rows: &mut [R::Value],
)
    requires { LeftOf levels.now merge × ((merge.own ≤ places) × ((merge.moved ≤ places) × ((merged ≤ places) × (length rates.now * places ≤ length rows.old)))) }
    ensures outside { RowsOutside (length rates.now) places merged rows.old rows.new }
    ensures turned { (s : ℕ) → s < length rates.now → row_of places s rows.new ≡ row_turned R.Reckoning.operations levels.now merge.loss (slice_index (millionths_of rates.now) s) merged (row_of places s rows.old) merge.own merge.moved }
{
    // by index: tried through chunks_mut, where no proof knows the values that were written
    for (s, rate) in rates.iter().enumerate() {
        let at = s * places;
        merge_row::<R>(levels, merge, merged, *rate, &mut rows[at..at + places]);
    }
}
