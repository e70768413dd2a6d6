// What places hold, in words, and what others write to them.
use crate::lending::Places;
use crate::words::{number_at, word_at};
use crate::wrong::{Halt, Wrong};
use reckoning::grains::Grains;
use scripts::saying::Count;
use std::alloc::{AllocError, Global};
use std::fmt;

// The two ends of bounds.
#[derive(Clone, Copy)]
struct Ends(Grains);

impl fmt::Display for Ends {
    fn fmt<W: fmt::Write>(&self, f: &mut fmt::Formatter<W>) -> fmt::Result {
        write!(f, "{}:{}", self.0.lower, self.0.upper)
    }
}

// What places hold: a word for each, with spaces between them.
fn say<T, D: fmt::Display + Drop, F: Fn(&T) -> D>(
    heap: Global,
    places: &[T],
    word: F,
) -> Result<String, AllocError>
    requires { F.IsAlwaysCallable word }
{
    let mut text = String::new(heap);
    for place in places {
        if !text.is_empty() {
            text.push(' ')?;
        }
        let held = word(place);
        write!(text, "{held}")?;
    }
    Ok(text)
}

// The places from one up to another, if they are there.
fn between<T>(places: &[T], from: usize, to: usize) -> Result<&[T], Wrong> {
    places.get(from..to).ok_or(Wrong::Places)
}

// The count of claims that a word writes.
fn claims_of(word: &str) -> Result<Option<u16>, Wrong> {
    match word {
        "none" => Ok(None),
        count => Ok(Some(count.parse()?)),
    }
}

// Writes to a place, if it is there.
fn put<T: Drop>(places: &mut [T], place: usize, value: T) -> Result<(), Wrong> {
    let Some(held) = places.get_mut(place) else {
        return Err(Wrong::Places);
    };
    *held = value;
    Ok(())
}

impl Places {
    // Answers a line `levels I J`, and so for bounds and claims: what those places hold.
    pub(crate) fn say(&self, heap: Global, line: &str) -> Result<String, Halt> {
        let from = number_at(line, 1)?;
        let to = number_at(line, 2)?;
        match word_at(line, 0) {
            "levels" => Ok(say(heap, between(&self.levels[..], from, to)?, |n| *n)?),
            "bounds" => Ok(say(heap, between(&self.bounds[..], from, to)?, |g| Ends(*g))?),
            "claims" => Ok(say(heap, between(&self.claims[..], from, to)?, |n| Count(*n))?),
            _ => Err(Halt::NoCall(Wrong::Verb)),
        }
    }

    // Carries out a line `poke levels I n`, and so for bounds and claims.
    pub(crate) fn poke(&mut self, line: &str) -> Result<(), Wrong> {
        let place = number_at(line, 2)?;
        match word_at(line, 1) {
            "levels" => put(&mut self.levels[..], place, number_at(line, 3)?),
            "bounds" => {
                let lower = number_at(line, 3)?;
                let upper = number_at(line, 4)?;
                put(&mut self.bounds[..], place, Grains { lower, upper })
            }
            "claims" => put(&mut self.claims[..], place, claims_of(word_at(line, 3))?),
            _ => Err(Wrong::Verb),
        }
    }
}
