// A script: how many places there are, the opening, and the calls.
ghost use Rattle.std.specs.Prelude.{◌≡◌, ◌≤◌, vec_len};
ghost use Rattle.ledger.specs.declared.script.Halt.TheVariants.{NoScript, Memory};

use crate::asked::AskedCalls;
use book::shown::Handed;
use law::call::Call;
use scripts::input::Fault;
use scripts::numbers::read_numbers;
use scripts::verb::{Verb, verb_of};
use std::alloc::{AllocError, Global};

// A line that is wrong.
pub(crate) type Wrong = Fault<&'static str>;

// Why there is no script: a line is wrong, or there is no memory. A generic enum in scripts would be no plainer: it would save the few lines here, and cost its users a map from the fault of a word to that of a line.
#[derive(Drop)]
pub(crate) enum Halt {
    NoScript(Wrong),
    Memory(AllocError),
}

impl From<AllocError> for Halt {
    ghost from_gives = { λ e r. r ≡ Memory e };

    fn from(e: AllocError) -> Halt {
        Halt::Memory(e)
    }
}

// What a line is.
#[derive(Clone, Copy)]
enum Kind {
    Places,
    Open,
    Call(Verb),
}

// A line by its kind and its numbers.
#[derive(Drop)]
struct Line {
    kind: Kind,
    numbers: Vec<u32>,
}

#[derive(Drop)]
pub(crate) struct Script {
    pub(crate) places: Handed,
    pub(crate) ceiling: u32,
    asked: AskedCalls,
}

impl Script {
    // The shares of the opening.
    pub(crate) fn shares(&self) -> &[u32] {
        self.asked.shares()
    }

    // The calls in their order.
    pub(crate) fn calls(&self, heap: Global) -> Result<Vec<Call<'_>>, AllocError> {
        self.asked.calls(heap)
    }
}

// That there is no script, for what is wrong with the line that has so many before it.
fn wrong_at(before: usize, what: &'static str) -> Halt {
    Halt::NoScript(Fault {
        line: before.saturating_add(1),
        what,
    })
}

// The kind of a line by its first words.
fn kind_of(first: &str, second: &str) -> Option<Kind> {
    match first {
        "places" => Some(Kind::Places),
        "open" => Some(Kind::Open),
        _ => verb_of(first, second).map(Kind::Call),
    }
}

// A line's kind, and how many words say it. Inlined, as append_numbers is: each line of a long script goes through both.
#[inline(always)]
fn read_kind(before: usize, line: &str) -> Result<(Kind, usize), Halt> {
    let mut words = line.split(' ');
    let first = words.next().unwrap_or("");
    let second = words.next().unwrap_or("");
    match kind_of(first, second) {
        Some(Kind::Call(verb)) => Ok((Kind::Call(verb), verb.words())),
        Some(kind) => Ok((kind, 1)),
        None => Err(wrong_at(before, "there is no such call")),
    }
}

// Appends the numbers of a line's words past the first `skip`.
#[inline(always)]
fn append_numbers(
    before: usize,
    line: &str,
    skip: usize,
    numbers: &mut Vec<u32>,
) -> Result<(), Halt>
    ensures grows { vec_len numbers.old ≤ vec_len numbers.new }
{
    if read_numbers(line, skip, numbers)? {
        Ok(())
    } else {
        Err(wrong_at(before, "a word is no number from 0 to 4294967295"))
    }
}

// A line, with its kind and its numbers.
fn read_line(heap: Global, before: usize, line: &str) -> Result<Line, Halt> {
    let (kind, words) = read_kind(before, line)?;
    let mut numbers = Vec::new(heap);
    append_numbers(before, line, words, &mut numbers)?;
    Ok(Line { kind, numbers })
}

impl AskedCalls {
    // Appends the call that a line behind the opening asks for.
    fn read(&mut self, before: usize, line: &str) -> Result<(), Halt> {
        let (kind, words) = read_kind(before, line)?;
        let from = self.numbers.len();
        append_numbers(before, line, words, &mut self.numbers)?;
        match kind {
            Kind::Call(verb) if self.add(verb, from)? => Ok(()),
            _ => Err(wrong_at(
                before,
                "this is no call, or it has too few or too many numbers",
            )),
        }
    }
}

// The places that the first line asks for.
fn read_places(heap: Global, line: &str) -> Result<Handed, Halt> {
    let Line { kind, numbers } = read_line(heap, 0, line)?;
    match (kind, &numbers[..]) {
        (Kind::Places, [levels, bounds, values])
            if *levels <= 65_536 && *bounds <= 524_288 && *values <= 524_288 => {
            Ok(Handed {
                levels: *levels as usize,
                bounds: *bounds as usize,
                values: *values as usize,
            })
        }
        (Kind::Places, _) => {
            let what = "places takes three numbers, at most 65536, 524288 and 524288";
            Err(wrong_at(0, what))
        }
        _ => Err(wrong_at(0, "the first line has to be places")),
    }
}

// Ceiling and shares, by the second line. The shares stay in the list that they were read into: a copy of a long one would be asked for before the rest is read.
fn read_opening(heap: Global, line: &str) -> Result<(u32, Vec<u32>), Halt> {
    let Line { kind, mut numbers } = read_line(heap, 1, line)?;
    match kind {
        Kind::Open if numbers.is_empty() => Err(wrong_at(1, "open takes a ceiling and shares")),
        Kind::Open => {
            let ceiling = numbers.remove(0);
            Ok((ceiling, numbers))
        }
        _ => Err(wrong_at(1, "the second line has to be open")),
    }
}

// Reads a script, or tells the first line that is wrong.
pub(crate) fn read_script(heap: Global, text: &str) -> Result<Script, Halt> {
    let mut lines = text.lines().enumerate();
    let Some((_, first)) = lines.next() else {
        return Err(wrong_at(0, "a script begins with places and open"));
    };
    let places = read_places(heap, first)?;
    let Some((_, second)) = lines.next() else {
        return Err(wrong_at(1, "a script begins with places and open"));
    };
    let (ceiling, shares) = read_opening(heap, second)?;
    let mut asked = AskedCalls::behind(heap, shares);
    for (before, line) in lines {
        asked.read(before, line)?;
    }
    Ok(Script {
        places,
        ceiling,
        asked,
    })
}
