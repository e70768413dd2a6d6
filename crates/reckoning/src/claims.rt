// The greatest number of claims in a family.
ghost use Rattle.std.specs.Prelude.{Some, None, refl};
ghost use Rattle.reckoning.specs.Counting.{counts, Ranged, checked, Stands, GreatestIsGreatest};
ghost use Rattle.reckoning.specs.Greatest.{blended_stands, blended_ranged, checked_ranged, checked_same, stands_for_whole};

use crate::rate::Rate;
use crate::reckoning::Reckoning;

// Reckons a count up to 256, or none where no outcome can come about.
#[derive(Clone, Copy, Debug)]
pub struct Claims;

impl Reckoning for Claims {
    type Value = Option<u16>;

    ghost operations = { counts };

    ghost ranged = { Ranged };

    ghost reading = { checked };

    ghost stands = { Stands };

    ghost nothing_stands = { λ rates. record { ranged = tt; is = refl } };

    ghost whole_stands = { stands_for_whole };

    ghost blend_stands = { λ r u v rates us vs h few su sv. blended_stands r h rates few u v us vs su sv };

    ghost stands_ranged = { λ u rates family s. s.ranged };

    ghost blend_ranged = { λ r u v h. blended_ranged r u v };

    ghost reading_ranged = { checked_ranged };

    ghost reading_same = { checked_same };

    fn nothing() -> Option<u16> {
        None
    }

    fn whole() -> Option<u16> {
        Some(0)
    }

    fn blend(rate: Rate, u: Option<u16>, v: Option<u16>) -> Option<u16> {
        let without = if rate.millionths() == 1_000_000 {
            None
        } else {
            Self::read(u)
        };
        let with = if rate.millionths() == 0 {
            None
        } else {
            v.map(|count| count.min(255) + 1)
        };
        without.max(with)
    }

    fn read(place: Option<u16>) -> Option<u16> {
        place.map(|count| count.min(256))
    }
}

// What Claims tells is the greatest: it bounds the claims of every outcome that can come about, and one of them has that many.
pub fn greatest_stands() -> bool
    ensures { GreatestIsGreatest }
{
    true
}
