// Why a count is declined.
ghost use Rattle.std.specs.Prelude.{◌≡◌};
ghost use Rattle.tree.specs.Counted.{number_of};

// The reasons for which a count is declined, each with its number.
#[derive(Clone, Copy, Debug, PartialEq, Eq)]
pub enum CountRefusal {
    // A loss is out of range.
    Loss = 8,
    // A rate exceeds a million.
    Rate = 9,
    // There are more than 16 pairs.
    TooMany = 19,
}

impl CountRefusal {
    // The number under which the refusal is told, as a book's refusal has one; a trait for one cast each would be longer.
    pub fn number(self) -> u32
        ensures { result ≡ number_of self }
    {
        self as u32
    }
}
