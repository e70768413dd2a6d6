// Why a line gets no answer.
ghost use Rattle.std.specs.Prelude.{◌≡◌, Some};
ghost use Rattle.probing.specs.declared.wrong.Wrong.TheVariants.{Number};
ghost use Rattle.probing.specs.Halts.{halted};
ghost use Rattle.probing.specs.Wrongs.{wrong_said};
ghost use Rattle.probing.specs.declared.wrong.Halt.TheVariants.{NoCall, Memory};

use hex::FromHexError;
use scripts::numbers::NoNumbers;
use std::alloc::AllocError;
use std::fmt;
use std::num::ParseIntError;

// What is wrong with a line that is no call.
#[derive(Clone, Copy, Debug, PartialEq, Drop)]
pub enum Wrong {
    // The words name no call.
    Verb,
    // A word that stands for a number is none.
    Number,
    // The words are too few or too many.
    Count,
    // There are not so many places.
    Places,
    // The bytes of a file are not written as they should be.
    Bytes,
    // Write is asked to hand over too many bytes.
    Room,
}

impl Wrong {
    // The fault in words.
    pub fn text(self) -> &'static str
        ensures { result.now ≡ wrong_said self }
    {
        match self {
            Wrong::Verb => "there is no such call",
            Wrong::Number => "a word is no number, or is too large a number",
            Wrong::Count => "the words are too few or too many",
            Wrong::Places => "there are 65540 level places, and 524300 value places of each kind",
            Wrong::Bytes => "bytes are written as pairs of hexadecimal digits, and no bytes as -",
            Wrong::Room => "write is handed at most 1000000 bytes",
        }
    }
}

impl fmt::Display for Wrong {
    ghost output = { λ wrong. Some (wrong_said wrong) };

    fn fmt<W: fmt::Write>(&self, f: &mut fmt::Formatter<W>) -> fmt::Result {
        f.write_str(self.text())
    }
}

impl From<ParseIntError> for Wrong {
    ghost from_gives = { λ _ r. r ≡ Number };

    fn from(_e: ParseIntError) -> Wrong {
        Wrong::Number
    }
}

// Why a line is not answered: it is no call, or there is no memory. A generic enum in scripts would be no plainer, since what ? makes of each fault is written here either way.
#[derive(Drop)]
pub(crate) enum Halt {
    NoCall(Wrong),
    Memory(AllocError),
}

impl From<Wrong> for Halt {
    ghost from_gives = { λ e r. r ≡ NoCall e };

    fn from(e: Wrong) -> Halt {
        Halt::NoCall(e)
    }
}

impl From<AllocError> for Halt {
    ghost from_gives = { λ e r. r ≡ Memory e };

    fn from(e: AllocError) -> Halt {
        Halt::Memory(e)
    }
}

impl From<NoNumbers> for Halt {
    ghost from_gives = { λ e r. r ≡ halted e };

    fn from(e: NoNumbers) -> Halt {
        match e {
            NoNumbers::NotANumber => Halt::NoCall(Wrong::Number),
            NoNumbers::NoMemory(wrong) => Halt::Memory(wrong),
        }
    }
}

impl From<FromHexError> for Halt {
    fn from(e: FromHexError) -> Halt {
        match e {
            FromHexError::OutOfMemory => Halt::Memory(AllocError),
            _ => Halt::NoCall(Wrong::Bytes),
        }
    }
}
