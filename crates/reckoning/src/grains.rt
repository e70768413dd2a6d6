// Two counts of grains as they lie in a place. A grain is 10^-12 of certainty.

// A plain pair: nothing is promised of its numbers.
#[derive(Clone, Copy, Debug, PartialEq, Eq)]
pub struct Grains {
    pub lower: u64,
    pub upper: u64,
}
