// A claim rate in millionths.
ghost use Rattle.std.specs.Prelude.{◌≡◌, ◌≤◌, true, MatchOption};
ghost use Rattle.reckoning.specs.Outcomes.{rate_wrong};

// The chance of a claim, from 0 to 1,000,000 millionths.
#[derive(Clone, Copy, Debug, PartialEq, Eq)]
pub struct Rate {
    millionths: u32,
    ghost in_range: { millionths ≤ 1000000 },
}

impl Rate {
    // The rate of that many millionths, or none where they are more than a million.
    pub fn new(millionths: u32) -> Option<Rate>
        ensures { MatchOption result (rate_wrong millionths ≡ true) (λ rate. rate.millionths ≡ millionths) }
    {
        if millionths <= 1_000_000 {
            Some(Rate { millionths })
        } else {
            None
        }
    }

    // The rate of a contract that never claims.
    pub fn never() -> Rate
        ensures { result.millionths ≡ 0 }
    {
        Rate { millionths: 0 }
    }

    // The rate as a number.
    pub fn millionths(self) -> u32
        ensures { result ≡ self.millionths }
    {
        self.millionths
    }
}
