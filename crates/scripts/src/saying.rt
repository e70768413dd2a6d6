// Answers in words.
ghost use Rattle.std.specs.Prelude.{◌≡◌, [], ◌∷◌, ◌++◌, Some, OnOk};
ghost use Rattle.scripts.specs.Said.{level_said, count_said, refusal_said, said};

use book::refusal::Refusal;
use law::call::Answer;
use std::alloc::AllocError;
use std::fmt;

// A level, or beyond.
#[derive(Clone, Copy, Debug)]
pub struct Level(pub Option<u32>);

impl fmt::Display for Level {
    ghost output = { λ level. Some (level_said level.0) };

    fn fmt<W: fmt::Write>(&self, f: &mut fmt::Formatter<W>) -> fmt::Result {
        match self.0 {
            Some(level) => write!(f, "{level}"),
            None => write!(f, "beyond"),
        }
    }
}

// A count of claims, or none. It is no Level at another width: the word for what is missing is part of what each promises.
#[derive(Clone, Copy, Debug)]
pub struct Count(pub Option<u16>);

impl fmt::Display for Count {
    ghost output = { λ count. Some (count_said count.0) };

    fn fmt<W: fmt::Write>(&self, f: &mut fmt::Formatter<W>) -> fmt::Result {
        match self.0 {
            Some(count) => write!(f, "{count}"),
            None => write!(f, "none"),
        }
    }
}

// A refusal by its number.
#[derive(Clone, Copy, Debug)]
pub struct Refused(pub u32);

impl fmt::Display for Refused {
    ghost output = { λ refused. Some (refusal_said refused.0) };

    fn fmt<W: fmt::Write>(&self, f: &mut fmt::Formatter<W>) -> fmt::Result {
        let number = self.0;
        write!(f, "refused {number}")
    }
}

// What comes of a call.
#[derive(Clone, Copy, Debug)]
pub struct Said(pub Result<Answer<Option<u16>>, Refusal>);

impl fmt::Display for Said {
    ghost output = { λ told. Some (said told.0) };

    fn fmt<W: fmt::Write>(&self, f: &mut fmt::Formatter<W>) -> fmt::Result {
        match self.0 {
            Ok(Answer::Done) => write!(f, "ok"),
            Ok(Answer::Bounds(bounds)) => write!(f, "{} {}", bounds.lower, bounds.upper),
            Ok(Answer::Value(claims)) => write!(f, "{}", Count(claims)),
            Ok(Answer::Chance(lower, upper)) => write!(f, "{lower} {upper}"),
            Ok(Answer::Reserve(low, high)) => write!(f, "{} {}", Level(low), Level(high)),
            Ok(Answer::Layer(low, high)) => write!(f, "{low} {high}"),
            Err(refusal) => write!(f, "{}", Refused(refusal.number())),
        }
    }
}

// Appends a line.
pub fn put_line(text: &mut Vec<u8>, line: &str) -> Result<(), AllocError>
    ensures { OnOk result (text.new.items ≡ (text.old.items ++ line.now) ++ (10 ∷ [])) }
{
    text.extend_from_slice(line.as_bytes())?;
    text.extend_from_slice(b"\n")?;
    Ok(())
}
