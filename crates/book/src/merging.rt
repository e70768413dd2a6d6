// The kept levels of a book, and what one contract more makes of them, in place.
ghost use Rattle.std.specs.Prelude.{◌≡◌, ℕ, ◌+◌, ◌-◌, ◌*◌, ◌<◌, ◌≤◌, List, length, drop, MatchOption};
ghost use Rattle.book.specs.Told.{found_below};
ghost use Rattle.book.specs.Turned.{turns, levels_turned, merge_of, LeftOf, TurnsTo};

// What is left to merge: so many own levels, and so many of those that the loss moves up. The levels go along beside it, since merge_levels writes them.
#[derive(Clone, Copy)]
pub(crate) struct Merge {
    pub(crate) own: usize,
    pub(crate) moved: usize,
    pub(crate) loss: u32,
}

// How many of the levels lie below `x`, by halving. The library's partition_point says nothing of levels that do not rise, and calls tell what is found there too.
pub(crate) fn below(levels: &[u32], x: u32) -> usize
    ensures within { result ≤ length levels.now }
    ensures value { result ≡ found_below levels.now (length levels.now) x }
{
    let mut low = 0;
    let mut high = levels.len();
    while low < high {
        let mid = low + (high - low) / 2;
        if levels[mid] < x {
            low = mid + 1;
        } else {
            high = mid;
        }
    }
    low
}

impl Merge {
    // The merge of the kept levels with those of them that stay under the ceiling when the loss moves them up.
    pub(crate) fn of(kept: &[u32], loss: u32, ceiling: u32) -> Merge
        requires { ceiling ≤ 65535 }
        ensures value { result ≡ merge_of kept.now (length kept.now) loss ceiling }
        ensures within { result.moved ≤ result.own }
    {
        let moved = below(kept, (ceiling + 1).saturating_sub(loss));
        Merge {
            own: kept.len(),
            moved,
            loss,
        }
    }

    // One turn: the highest level left, and what is left then; none where no own level is left.
    pub(crate) fn turn(self, levels: &[u32]) -> Option<(u32, Merge)>
        requires { LeftOf levels.now self }
        ensures { MatchOption result (self.own ≡ 0) (λ r. TurnsTo levels.now self r.0 r.1) }
    {
        if self.own == 0 {
            return None;
        }
        let a = levels[self.own - 1];
        if self.moved == 0 {
            let rest = Merge {
                own: self.own - 1,
                ..self
            };
            return Some((a, rest));
        }
        let b = levels[self.moved - 1].saturating_add(self.loss);
        // the higher one goes, and both where they are the same: counted, for a branch on it would often be foreseen wrongly
        let rest = Merge {
            own: self.own - usize::from(b <= a),
            moved: self.moved - usize::from(a <= b),
            ..self
        };
        Some((a.max(b), rest))
    }
}

// How many levels are kept once the merge is through. It writes nothing.
pub(crate) fn merged_len(levels: &[u32], merge: Merge) -> usize
    requires { LeftOf levels.now merge × ((merge.own ≤ 65536) × (merge.moved ≤ merge.own)) }
    ensures turns { result ≡ turns (2 * merge.own) levels.now merge.own merge.moved merge.loss }
    ensures grows { merge.own ≤ result }
{
    // counted in a loop: a turn gives what is left, and an iterator would have to keep the levels beside it
    let mut left = merge;
    let mut n = 0;
    while let Some((_, rest)) = left.turn(levels) {
        left = rest;
        n += 1;
    }
    n
}

// Writes the levels that are kept then into the first `merged` places, from the top down: the place written is never below one still to be read.
pub(crate) fn merge_levels(levels: &mut [u32], merge: Merge, merged: usize)
    requires { LeftOf levels.old merge × (merged ≤ length levels.old) }
    ensures rest { drop merged levels.new ≡ drop merged levels.old }
    ensures turned { levels.new ≡ levels_turned merged levels.old merge.own merge.moved merge.loss }
{
    let mut left = merge;
    for t in (0..merged).rev() {
        let Some((top, rest)) = left.turn(levels) else {
            break;
        };
        levels[t] = top;
        left = rest;
    }
}
