// A loss and a rate as plain numbers.

// What a count is asked of: nothing is promised of the numbers.
#[derive(Clone, Copy, Debug, PartialEq, Eq)]
pub struct Pair {
    pub loss: u32,
    pub rate: u32,
}
