// The shares of a book's scenarios in the mix.
ghost use Rattle.std.specs.Prelude.{◌≡◌, ◌≤◌, length, take};
ghost use Rattle.reckoning.specs.Outcomes.{summed};

// Shares in millionths, one a scenario, that sum to a million.
#[derive(Clone, Copy)]
pub struct Shares {
    // an array and its count: only the making of a book may take memory, and an ArrayVec is no Copy
    pub(crate) each: [u32; 8],
    pub(crate) count: usize,
    ghost some: { 1 ≤ count },
    ghost few: { count ≤ 8 },
    ghost one_each: { length (take count each) ≡ count },
    ghost all: { summed (λ w. w) (take count each) ≡ 1000000 },
}
