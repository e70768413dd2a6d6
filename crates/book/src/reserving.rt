// The reserve for a confidence.
ghost use Rattle.std.specs.Prelude.{◌≡◌, ◌*◌, ◌≤◌, Bool, length, IfOk};
ghost use Rattle.reckoning.specs.declared.grains.Grains.{Grains};
ghost use Rattle.book.specs.Declines.{reserve_sentences};
ghost use Rattle.book.specs.Laid.{RowsFit, Holds};
ghost use Rattle.book.specs.Listed.{listed};
ghost use Rattle.book.specs.Pricing.{reserve_low, reserve_high};
ghost use Rattle.book.specs.Refusals.{first, refusal_of};
ghost use Rattle.book.specs.Reserved.{mix_beside, AnswersBy, Among, FirstOf, FirstReached};
ghost use Rattle.book.specs.Places.{handed_of, shown};

use crate::book::Book;
use crate::refusal::Refusal;
use crate::shown::Shown;
use reckoning::grains::Grains;
use reckoning::reckoning::Reckoning;

impl Book {
    // The first kept level beside which the mix passes; none where it passes beside none of them.
    fn first_reached<F: Fn(Grains) -> bool>(
        &self,
        levels: &[u32],
        bounds: &[Grains],
        passes: F,
    ) -> Option<u32>
        requires places { RowsFit self.now (length levels.now) (length bounds.now) }
        requires callable { F.IsAlwaysCallable passes }
        ensures { (test : Grains → Bool) → AnswersBy (F.post passes) test → FirstOf (λ i. test (mix_beside self.now bounds.now i)) levels.now self.now.kept result }
    {
        // the loop yields what it found: a search by find would have to give back both the place and the level
        let mut rest = levels[..self.kept].iter().enumerate();
        loop {
            let Some((i, level)) = rest.next() else {
                break None;
            };
            if passes(self.chance_at(0, i + 1, bounds)) {
                break Some(*level);
            }
        }
    }

    // The least level whose upper chance in the mix is at least the confidence, and the least whose lower chance is; none where there is no such level up to the ceiling, which is above all levels.
    pub fn reserve<R: Reckoning>(
        &self,
        confidence: u32,
        places: &Shown<'_, R::Value>,
    ) -> Result<(Option<u32>, Option<u32>), Refusal>
        ensures declines { refusal_of result ≡ first (reserve_sentences (handed_of (shown places.now)) (listed self.now) confidence) }
        ensures range { IfOk result (λ t. Among places.now.levels.now self.now.kept t.0 × Among places.now.levels.now self.now.kept t.1) }
        ensures told { IfOk result (λ t. FirstReached (λ g. g.upper) confidence self.now (shown places.now) t.0 × FirstReached (λ g. g.lower) confidence self.now (shown places.now) t.1) }
        ensures tells { Holds R.Reckoning.operations self.now (shown places.now) → IfOk result (λ t. (t.0 ≡ reserve_low (listed self.now) confidence) × (t.1 ≡ reserve_high (listed self.now) confidence)) }
    {
        if self.are_places_wrong(places.handed()) {
            return Err(Refusal::Places);
        }
        if confidence < 1 || confidence > 1_000_000 {
            return Err(Refusal::Confidence);
        }
        let enough = u64::from(confidence) * 1_000_000;
        let low = self.first_reached(places.levels, places.bounds, |mix| mix.upper >= enough);
        let high = self.first_reached(places.levels, places.bounds, |mix| mix.lower >= enough);
        Ok((low, high))
    }
}
