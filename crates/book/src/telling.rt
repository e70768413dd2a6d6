// What a book tells of its levels.
ghost use Rattle.std.specs.Prelude.{◌≡◌, ℕ, ◌+◌, ◌-◌, ◌*◌, ◌<◌, ◌≤◌, List, length, IfOk};
ghost use Rattle.reckoning.specs.Enclosing as Enclosing;
ghost use Rattle.reckoning.specs.Enclosing.{Ranged, checked};
ghost use Rattle.reckoning.specs.Outcomes.{summed};
ghost use Rattle.reckoning.specs.Rounding.{pair};
ghost use Rattle.book.specs.Declines.{value_late, value_sentences, chance_sentences};
ghost use Rattle.book.specs.Figures as Figures;
ghost use Rattle.book.specs.Figures.{mixed, mixed_at, told_at, told_in};
ghost use Rattle.book.specs.Laid.{RowsFit, LevelsHold, RowsHold, Holds};
ghost use Rattle.book.specs.Levels.{kept};
ghost use Rattle.book.specs.Listed.{shares_of, listed};
ghost use Rattle.book.specs.Merging.{row_of};
ghost use Rattle.book.specs.Plain.{losses};
ghost use Rattle.book.specs.Refusals.{first, refusal_of};
ghost use Rattle.book.specs.Told.{row_told, value_of, bounds_of, chance_of};
ghost use Rattle.book.specs.Values as Values;
ghost use Rattle.book.specs.Places.{handed_of, shown};

use crate::book::Book;
use crate::merging::below;
use crate::refusal::Refusal;
use crate::shares::Shares;
use crate::shown::Shown;
use reckoning::bounds::Bounds;
use reckoning::grains::Grains;
use reckoning::reckoning::Reckoning;

// The value of a scenario, from 0, where `found` of its levels are not above the level asked for.
fn told<R: Reckoning>(rows: &[R::Value], places: usize, scenario: usize, found: usize) -> R::Value
    requires { (found ≤ places) × (scenario * places + places ≤ length rows.now) }
    ensures value { result ≡ told_at R.Reckoning.reading R.Reckoning.operations.nothing (row_of places scenario rows.now) found }
    ensures range { R.Reckoning.ranged result }
{
    if found == 0 {
        return R::nothing();
    }
    R::read(rows[scenario * places + (found - 1)])
}

impl Shares {
    // The shares, one a scenario.
    pub fn as_slice(&self) -> &[u32]
        ensures { result.now ≡ shares_of self.now }
    {
        let count = self.count;
        &self.each[0..count]
    }
}

// The bounds of the mix: share times bound summed over the scenarios, and divided by a million.
fn mix(shares: &[u32], rows: &[Grains], places: usize, found: usize) -> Grains
    requires { (found ≤ places) × ((length shares.now * places ≤ length rows.now) × (summed (λ w. w) shares.now ≡ 1000000)) }
    ensures range { Ranged result }
    ensures value { result ≡ mixed shares.now (λ s. told_at checked (pair 0 0) (row_of places (s - 1) rows.now) found) }
{
    let mut lower: u64 = 0;
    let mut upper: u64 = 0;
    for (s, share) in shares.iter().enumerate() {
        let share = u64::from(*share);
        let bounds = Bounds::from(told::<Bounds>(rows, places, s, found));
        lower += share * bounds.lower();
        upper += share * bounds.upper();
    }
    Grains {
        lower: lower / 1_000_000,
        upper: upper.div_ceil(1_000_000),
    }
}

impl Book {
    // How many levels the book keeps: so many of the level places hold one.
    pub fn levels_kept(&self) -> usize
        ensures kept { result ≡ self.now.kept }
        ensures tells { (levels : List ℕ) → LevelsHold (listed self.now) self.now.kept levels → result ≡ length (kept self.now.ceiling (losses (listed self.now))) }
    {
        self.kept
    }

    // The value of a scenario's row at a level, where the places fit the book. That they do is asked of each of three functions: a struct of book and places would be made anew in every call.
    fn row_value<R: Reckoning>(
        &self,
        scenario: u32,
        level: u32,
        levels: &[u32],
        rows: &[R::Value],
    ) -> Result<R::Value, Refusal>
        requires { RowsFit self.now (length levels.now) (length rows.now) }
        ensures declines { refusal_of result ≡ first (value_late (listed self.now) scenario level) }
        ensures range { IfOk result R.Reckoning.ranged }
        ensures told { IfOk result (λ v. v ≡ row_told R.Reckoning.reading R.Reckoning.operations self.now levels.now rows.now scenario level) }
        ensures tells { LevelsHold (listed self.now) self.now.kept levels.now → RowsHold R.Reckoning.operations (listed self.now) self.now.kept rows.now → IfOk result (λ v. v ≡ Values.value R.Reckoning.operations (listed self.now) scenario level) }
    {
        let scenario = scenario as usize;
        if scenario < 1 || scenario > self.shares.count {
            return Err(Refusal::Scenario);
        }
        if level > self.ceiling {
            return Err(Refusal::Level);
        }
        let found = below(&levels[..self.kept], level + 1);
        Ok(told::<R>(rows, self.places, scenario - 1, found))
    }

    // The value of the reckoning R in a scenario at a level.
    pub fn value<R: Reckoning>(
        &self,
        scenario: u32,
        level: u32,
        places: &Shown<'_, R::Value>,
    ) -> Result<R::Value, Refusal>
        ensures declines { refusal_of result ≡ first (value_sentences (handed_of (shown places.now)) (listed self.now) scenario level) }
        ensures range { IfOk result R.Reckoning.ranged }
        ensures told { IfOk result (λ v. v ≡ value_of R.Reckoning.reading R.Reckoning.operations self.now (shown places.now) scenario level) }
        ensures tells { Holds R.Reckoning.operations self.now (shown places.now) → IfOk result (λ v. v ≡ Values.value R.Reckoning.operations (listed self.now) scenario level) }
    {
        if self.are_places_wrong(places.handed()) {
            return Err(Refusal::Places);
        }
        self.row_value::<R>(scenario, level, places.levels, places.values)
    }

    // The bounds in a scenario at a level.
    pub fn bounds_value<R: Reckoning>(
        &self,
        scenario: u32,
        level: u32,
        places: &Shown<'_, R::Value>,
    ) -> Result<Grains, Refusal>
        ensures declines { refusal_of result ≡ first (value_sentences (handed_of (shown places.now)) (listed self.now) scenario level) }
        ensures range { IfOk result Ranged }
        ensures told { IfOk result (λ v. v ≡ bounds_of self.now (shown places.now) scenario level) }
        ensures tells { Holds R.Reckoning.operations self.now (shown places.now) → IfOk result (λ v. v ≡ Values.value Enclosing.bounds (listed self.now) scenario level) }
    {
        if self.are_places_wrong(places.handed()) {
            return Err(Refusal::Places);
        }
        self.row_value::<Bounds>(scenario, level, places.levels, places.bounds)
    }

    // The bounds of a scenario, or for 0 of the mix, where `found` of the levels are not above the level asked for.
    pub(crate) fn chance_at(&self, scenario: usize, found: usize, bounds: &[Grains]) -> Grains
        requires { (found ≤ self.now.places) × ((scenario ≤ self.now.shares.count) × (self.now.shares.count * self.now.places ≤ length bounds.now)) }
        ensures range { Ranged result }
        ensures value { result ≡ mixed_at (shares_of self.now.shares) (told_in self.now.places bounds.now found) scenario }
    {
        if scenario == 0 {
            mix(self.shares.as_slice(), bounds, self.places, found)
        } else {
            told::<Bounds>(bounds, self.places, scenario - 1, found)
        }
    }

    // The bounds of the chance that the loss stays at or under the level, in a scenario, or for 0 in the mix: callers name the mix by that number.
    pub fn chance<R: Reckoning>(
        &self,
        scenario: u32,
        level: u32,
        places: &Shown<'_, R::Value>,
    ) -> Result<(u64, u64), Refusal>
        ensures declines { refusal_of result ≡ first (chance_sentences (handed_of (shown places.now)) (listed self.now) scenario level) }
        ensures range { IfOk result (λ t. Ranged (pair t.0 t.1)) }
        ensures told { IfOk result (λ t. pair t.0 t.1 ≡ chance_of self.now (shown places.now) scenario level) }
        ensures tells { Holds R.Reckoning.operations self.now (shown places.now) → IfOk result (λ t. pair t.0 t.1 ≡ Figures.chance (listed self.now) scenario level) }
    {
        if self.are_places_wrong(places.handed()) {
            return Err(Refusal::Places);
        }
        let scenario = scenario as usize;
        if scenario > self.shares.count {
            return Err(Refusal::Scenario);
        }
        if level > self.ceiling {
            return Err(Refusal::Level);
        }
        let found = below(&places.levels[..self.kept], level + 1);
        let told = self.chance_at(scenario, found, places.bounds);
        Ok((told.lower, told.upper))
    }
}
