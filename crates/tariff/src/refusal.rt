// Why a file is refused, and where.
ghost use Rattle.std.specs.Prelude.{◌≡◌, Some};
ghost use Rattle.tariff.specs.declared.refusal.FileFault.TheVariants.{Line, Book};
ghost use Rattle.tariff.specs.Refusals.{line_telling, book_telling, telling, refused_text};

use book::refusal::Refusal;
use lines::fault::Malformed;
use std::fmt;

// A line that is not what should stand there, with the place of its first byte.
#[derive(Clone, Copy, Debug, PartialEq, Eq)]
pub enum LineFault {
    Share(usize, Malformed),
    Contract(usize, Malformed),
}

// What the book declined, with the place of the line that asked for it.
#[derive(Clone, Copy, Debug, PartialEq, Eq)]
pub struct BookFault {
    pub place: usize,
    pub refusal: Refusal,
}

// Why a file is refused. The places are those of its trailer.
#[derive(Clone, Copy, Debug, PartialEq, Eq)]
pub enum FileFault {
    // It has under 18 or over 21,346 bytes.
    Length,
    // Its end is no trailer.
    Trailer(usize),
    // A line is malformed.
    Line(LineFault),
    // The S lines are too few, or end elsewhere than the trailer says.
    Shares(usize),
    // The C lines are not as many as the trailer says.
    Count(usize),
    // The book declines it.
    Book(BookFault),
}

impl From<LineFault> for FileFault {
    ghost from_gives = { λ e r. (r ≡ Line e) × (telling r ≡ line_telling e) };

    fn from(e: LineFault) -> FileFault {
        FileFault::Line(e)
    }
}

impl From<BookFault> for FileFault {
    ghost from_gives = { λ e r. (r ≡ Book e) × (telling r ≡ book_telling e) };

    fn from(e: BookFault) -> FileFault {
        FileFault::Book(e)
    }
}

impl FileFault {
    // The number under which the fault is told, and the byte at which it is.
    fn told(self) -> (u32, usize)
        ensures { (result.0 ≡ (telling self).number) × (result.1 ≡ (telling self).place) }
    {
        match self {
            FileFault::Length => (1, 0),
            FileFault::Trailer(place) => (1, place),
            FileFault::Line(LineFault::Share(place, _)) => (2, place),
            FileFault::Shares(place) => (2, place),
            FileFault::Line(LineFault::Contract(place, _)) => (3, place),
            FileFault::Count(place) => (4, place),
            FileFault::Book(fault) => (fault.refusal.number(), fault.place),
        }
    }

    // The number under which the fault is told.
    pub fn number(self) -> u32
        ensures { result ≡ (telling self).number }
    {
        self.told().0
    }

    // The byte at which the fault is told.
    pub fn place(self) -> usize
        ensures { result ≡ (telling self).place }
    {
        self.told().1
    }
}

impl fmt::Display for FileFault {
    ghost output = { λ fault. Some (refused_text fault) };

    fn fmt<W: fmt::Write>(&self, f: &mut fmt::Formatter<W>) -> fmt::Result {
        let (number, place) = self.told();
        write!(f, "refused {number} at {place}")
    }
}
