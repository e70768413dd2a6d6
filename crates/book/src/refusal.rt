// Why a call on the book is declined.
ghost use Rattle.std.specs.Prelude.{◌≡◌};
ghost use Rattle.book.specs.Refusals.{number_of};

// The reasons for which a call on the book is declined, each with its number.
#[derive(Clone, Copy, Debug, PartialEq, Eq)]
pub enum Refusal {
    // The ceiling is out of range.
    Ceiling = 5,
    // The scenarios are not 1 to 8, or the shares do not sum to a million.
    Shares = 6,
    // The places do not fit the book.
    Places = 7,
    // The loss is out of range.
    Loss = 8,
    // The rates are not one a scenario, or one exceeds a million.
    Rates = 9,
    // The key to re-rate or strike is absent.
    Absent = 10,
    // The key to enter is present.
    Present = 11,
    // The book has 256 contracts.
    Full = 12,
    // More levels would be kept than there are level places.
    Levels = 13,
    // The scenario is not in the book.
    Scenario = 14,
    // The level is above the ceiling.
    Level = 15,
    // The confidence is not 1 to a million millionths.
    Confidence = 16,
    // The layer does not begin below its end, or ends above the ceiling.
    Range = 17,
}

impl Refusal {
    // The number under which the refusal is told.
    pub fn number(self) -> u32
        ensures { result ≡ number_of self }
    {
        self as u32
    }
}
