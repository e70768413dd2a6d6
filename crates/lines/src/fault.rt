// What can be wrong with a number and with a line, and what a line is.
ghost use Rattle.std.specs.Prelude.{◌≡◌};
ghost use Rattle.lines.specs.declared.fault.Malformed.TheVariants.{Number};
ghost use Rattle.lines.specs.Reads.{kind_of};

#[derive(Clone, Copy, Debug, PartialEq, Eq)]
pub enum NumberFault {
    Empty,
    LeadingZero,
    NoDigit,
    TooLarge,
}

#[derive(Clone, Copy, Debug, PartialEq, Eq)]
pub enum Malformed {
    Letter,
    NoSpace,
    Number(NumberFault),
    NoEnd,
}

impl From<NumberFault> for Malformed {
    ghost from_gives = { λ e r. r ≡ Number e };

    fn from(e: NumberFault) -> Malformed {
        Malformed::Number(e)
    }
}

#[derive(Clone, Copy, Debug, PartialEq, Eq)]
pub enum LineKind {
    Share,
    Contract,
    Trailer,
    Other,
}

// What a line is, by its first byte.
impl From<u8> for LineKind {
    ghost from_gives = { λ first r. r ≡ kind_of first };

    fn from(first: u8) -> LineKind {
        match first as char {
            'S' => LineKind::Share,
            'C' => LineKind::Contract,
            'T' => LineKind::Trailer,
            _ => LineKind::Other,
        }
    }
}
