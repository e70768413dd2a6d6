// Bounds on the chance of a family, in grains.
ghost use Rattle.std.specs.Prelude.{◌≡◌, ◌≤◌};
ghost use Rattle.reckoning.specs.Rounding.{pair};
ghost use Rattle.reckoning.specs.Enclosing.{bounds, ways, checked, Ranged, Stands};
ghost use Rattle.reckoning.specs.Enclosures.{blended_stands, blended_ranged, checked_ranged, checked_same, stands_for_none, stands_for_whole};

use crate::grains::Grains;
use crate::rate::Rate;
use crate::reckoning::Reckoning;

// A pair in range, made of a place's plain pair after a check.
#[derive(Clone, Copy, Debug, PartialEq, Eq)]
pub struct Bounds {
    lower: u64,
    upper: u64,
    ghost ordered: { lower ≤ upper },
    ghost at_most_certain: { upper ≤ 1000000000000 },
}

impl Bounds {
    pub fn lower(self) -> u64
        ensures { result ≡ self.lower }
    {
        self.lower
    }

    pub fn upper(self) -> u64
        ensures { result ≡ self.upper }
    {
        self.upper
    }
}

// The pair of a place; the widest bounds where it is out of range.
impl From<Grains> for Bounds {
    ghost from_gives = { λ place bounds. pair bounds.lower bounds.upper ≡ checked place };

    fn from(place: Grains) -> Bounds {
        if place.lower <= place.upper && place.upper <= 1_000_000_000_000 {
            Bounds {
                lower: place.lower,
                upper: place.upper,
            }
        } else {
            Bounds {
                lower: 0,
                upper: 1_000_000_000_000,
            }
        }
    }
}

// The bounds as they lie in a place.
impl From<Bounds> for Grains {
    ghost from_gives = { λ bounds place. place ≡ pair bounds.lower bounds.upper };

    fn from(bounds: Bounds) -> Grains {
        Grains {
            lower: bounds.lower,
            upper: bounds.upper,
        }
    }
}

// A million times what two counts of grains come to, the second at the rate.
fn weigh(rate: Rate, u: u64, v: u64) -> u64
    requires { (u ≤ 1000000000000) × (v ≤ 1000000000000) }
    ensures sum { result ≡ ways rate.millionths u v }
    ensures bound { result ≤ 1000000000000000000 }
{
    let r = u64::from(rate.millionths());
    (1_000_000 - r) * u + r * v
}

impl Reckoning for Bounds {
    type Value = Grains;

    ghost operations = { bounds };

    ghost ranged = { Ranged };

    ghost reading = { checked };

    ghost stands = { Stands };

    ghost nothing_stands = { stands_for_none };

    ghost whole_stands = { stands_for_whole };

    ghost blend_stands = { λ r u v rates us vs h few su sv. blended_stands r h u v rates us vs su sv };

    ghost stands_ranged = { λ g rates family s. s.ranged };

    ghost blend_ranged = { λ r u v h. blended_ranged r h u v };

    ghost reading_ranged = { checked_ranged };

    ghost reading_same = { checked_same };

    fn nothing() -> Grains {
        Grains { lower: 0, upper: 0 }
    }

    fn whole() -> Grains {
        Grains {
            lower: 1_000_000_000_000,
            upper: 1_000_000_000_000,
        }
    }

    fn blend(rate: Rate, u: Grains, v: Grains) -> Grains {
        let u = Bounds::from(u);
        let v = Bounds::from(v);
        Grains {
            lower: weigh(rate, u.lower, v.lower) / 1_000_000,
            upper: weigh(rate, u.upper, v.upper).div_ceil(1_000_000),
        }
    }

    fn read(place: Grains) -> Grains {
        Bounds::from(place).into()
    }
}
