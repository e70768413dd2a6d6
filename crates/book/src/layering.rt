// Pricing a layer: what the mix leaves of certainty, summed over the layer's levels.
ghost use Rattle.std.specs.Prelude.{◌≡◌, ℕ, ◌+◌, ◌-◌, ◌*◌, ◌<◌, ◌≤◌, length, IfOk};
ghost use Rattle.reckoning.specs.Enclosing as Enclosing;
ghost use Rattle.book.specs.Declines.{layer_sentences};
ghost use Rattle.book.specs.Laid.{RowsFit, LevelsHold, RowsHold, Holds};
ghost use Rattle.book.specs.Layered.{stretch_end, layer_over};
ghost use Rattle.book.specs.Listed.{listed};
ghost use Rattle.book.specs.Pricing.{layer_low, layer_high};
ghost use Rattle.book.specs.Refusals.{first, refusal_of};
ghost use Rattle.book.specs.Places.{handed_of, shown};

use crate::book::Book;
use crate::refusal::Refusal;
use crate::shown::Shown;
use reckoning::grains::Grains;
use reckoning::reckoning::Reckoning;

// Where the stretch that begins at `at`, with `found` of the kept levels not above it, ends: at the next level, and at `to` at the latest.
fn end_of_stretch(kept: &[u32], found: usize, at: u32, to: u32) -> u32
    ensures { result ≡ stretch_end kept.now (length kept.now) found at to }
{
    let next = kept.get(found).copied().unwrap_or(to);
    next.min(to).max(at)
}

impl Book {
    // What the upper, and the lower, chance of the mix leaves of certainty from one level to another: each kept level counts for the stretch up to the next one.
    fn layer_sums(&self, from: u32, to: u32, levels: &[u32], bounds: &[Grains]) -> (u64, u64)
        requires { RowsFit self.now (length levels.now) (length bounds.now) × ((from ≤ to) × (to ≤ self.now.ceiling + 1)) }
        ensures range { (result.0 ≤ result.1) × (result.1 ≤ (to - from) * 1000000000000) }
        ensures told { (result.0 ≡ layer_over (λ g. g.upper) self.now levels.now bounds.now from to) × (result.1 ≡ layer_over (λ g. g.lower) self.now levels.now bounds.now from to) }
        ensures tells { LevelsHold (listed self.now) self.now.kept levels.now → RowsHold Enclosing.bounds (listed self.now) self.now.kept bounds.now → (result.0 ≡ layer_low (listed self.now) from to) × (result.1 ≡ layer_high (listed self.now) from to) }
    {
        let mut low: u64 = 0;
        let mut high: u64 = 0;
        let mut at = from;
        // by index: the mix beside a level lies in a row for each scenario, and chance_at takes the place in them
        for i in 0..self.kept {
            let told = self.chance_at(0, i + 1, bounds);
            let end = end_of_stretch(&levels[..self.kept], i + 1, at, to);
            let wide = u64::from(end - at);
            low += wide * (1_000_000_000_000 - told.upper);
            high += wide * (1_000_000_000_000 - told.lower);
            at = end;
        }
        (low, high)
    }

    // The bounds of the layer's premium, in 10^-12 of a unit of loss.
    pub fn layer<R: Reckoning>(
        &self,
        from: u32,
        to: u32,
        places: &Shown<'_, R::Value>,
    ) -> Result<(u64, u64), Refusal>
        ensures declines { refusal_of result ≡ first (layer_sentences (handed_of (shown places.now)) (listed self.now) from to) }
        ensures range { IfOk result (λ t. (t.0 ≤ t.1) × (t.1 ≤ (to - from) * 1000000000000)) }
        ensures told { IfOk result (λ t. (t.0 ≡ layer_over (λ g. g.upper) self.now places.now.levels.now places.now.bounds.now from to) × (t.1 ≡ layer_over (λ g. g.lower) self.now places.now.levels.now places.now.bounds.now from to)) }
        ensures tells { Holds R.Reckoning.operations self.now (shown places.now) → IfOk result (λ t. (t.0 ≡ layer_low (listed self.now) from to) × (t.1 ≡ layer_high (listed self.now) from to)) }
    {
        if self.are_places_wrong(places.handed()) {
            return Err(Refusal::Places);
        }
        if from >= to || to > self.ceiling + 1 {
            return Err(Refusal::Range);
        }
        Ok(self.layer_sums(from, to, places.levels, places.bounds))
    }
}
