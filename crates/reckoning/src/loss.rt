// The loss of a contract in units.
ghost use Rattle.std.specs.Prelude.{◌≡◌, ◌≤◌, true, MatchOption};
ghost use Rattle.reckoning.specs.Outcomes.{loss_wrong};

// The fixed sum that a claim costs, from 1 to 65,535 units.
// No one type with a range as parameters serves it and Rate: nothing would keep units and millionths apart then.
#[derive(Clone, Copy, Debug, PartialEq, Eq)]
pub struct Loss {
    units: u32,
    ghost some: { 1 ≤ units },
    ghost in_range: { units ≤ 65535 },
}

impl Loss {
    // The loss of that many units, or none where they are out of range.
    pub fn new(units: u32) -> Option<Loss>
        ensures { MatchOption result (loss_wrong units ≡ true) (λ loss. loss.units ≡ units) }
    {
        if units >= 1 && units <= 65_535 {
            Some(Loss { units })
        } else {
            None
        }
    }

    // The loss as a number.
    pub fn units(self) -> u32
        ensures { result ≡ self.units }
    {
        self.units
    }
}
