// The answer to a line.
use crate::bytes::{bytes_of, word_of};
use crate::lending::{Probe, handed_by};
use crate::words::{number_at, word_at, word_count};
use crate::wrong::{Halt, Wrong};
use law::call::Answer;
use law::running::step;
use reckoning::claims::Claims;
use rendering::writing::write;
use scripts::numbers::numbers_of;
use scripts::saying::{Refused, Said};
use scripts::verb::{call_of, verb_of};
use std::alloc::{AllocError, Global};
use tariff::reading::read;
use tree::counting::count;
use tree::pair::Pair;

// The most bytes that write is handed: many more than a file has.
const BYTES: usize = 1_000_000;

// What those bytes hold before.
const UNWRITTEN: u8 = 0xaa;

// The pairs of loss and rate that numbers make two by two.
fn pairs_of(heap: Global, numbers: &[u32]) -> Result<Vec<Pair>, AllocError> {
    numbers
        .chunks_exact(2)
        .map(|two| Pair {
            loss: two[0],
            rate: two[1],
        })
        .collect(heap)
}

// Answers a line `count level loss rate ..`.
fn count_line(heap: Global, line: &str) -> Result<String, Halt> {
    let numbers = numbers_of(heap, line, 1)?;
    let [level, ways @ ..] = &numbers[..] else {
        return Err(Halt::NoCall(Wrong::Count));
    };
    if ways.len() % 2 != 0 {
        return Err(Halt::NoCall(Wrong::Count));
    }
    let pairs = pairs_of(heap, ways)?;
    match count(&pairs[..], *level) {
        Ok(outcomes) => Ok(format!(in heap; "{outcomes}")?),
        Err(refusal) => Ok(format!(in heap; "{}", Refused(refusal.number()))?),
    }
}

impl Probe {
    // Answers a line `open L NB NC ceiling share..`.
    fn open_line(&mut self, heap: Global, line: &str) -> Result<String, Halt> {
        let handed = handed_by(line)?;
        let numbers = numbers_of(heap, line, 4)?;
        let [ceiling, shares @ ..] = &numbers[..] else {
            return Err(Halt::NoCall(Wrong::Count));
        };
        let mut places = self.places.lend(handed)?;
        let told = self.book.open::<Claims>(*ceiling, shares, &mut places);
        Ok(format!(in heap; "{}", Said(told.map(|_| Answer::Done)))?)
    }

    // Answers the line of a call on the opened book.
    fn call_line(&mut self, heap: Global, line: &str) -> Result<String, Halt> {
        let verb = verb_of(word_at(line, 0), word_at(line, 4)).ok_or(Wrong::Verb)?;
        let handed = handed_by(line)?;
        let numbers = numbers_of(heap, line, verb.words() + 3)?;
        let call = call_of(verb, &numbers[..]).ok_or(Wrong::Count)?;
        let mut places = self.places.lend(handed)?;
        let told = step::<Claims>(&mut self.book, call, &mut places);
        Ok(format!(in heap; "{}", Said(told))?)
    }

    // Answers a line `read L NB NC HEX`.
    fn read_line(&mut self, heap: Global, line: &str) -> Result<String, Halt> {
        let handed = handed_by(line)?;
        let file = bytes_of(heap, word_at(line, 4))?;
        let mut places = self.places.lend(handed)?;
        match read::<Claims>(&mut self.book, &file[..], &mut places) {
            Ok(_) => Ok(format!(in heap; "ok")?),
            Err(fault) => Ok(format!(in heap; "{fault}")?),
        }
    }

    // Answers a line `write CAP`.
    fn write_line(&self, heap: Global, line: &str) -> Result<String, Halt> {
        let room: usize = number_at(line, 1)?;
        if room > BYTES {
            return Err(Halt::NoCall(Wrong::Room));
        }
        let mut bytes: Vec<u8> = vec![in heap; UNWRITTEN; room]?;
        let written = write(&self.book, &mut bytes[..]);
        let file = word_of(heap, &bytes[..])?;
        match written {
            Ok(length) => Ok(format!(in heap; "{length} {file}")?),
            Err(few) => Ok(format!(in heap; "{} {file}", Refused(u32::from(few.number())))?),
        }
    }

    // Answers a line, whose words after the verb are right in number.
    fn answer_to(&mut self, heap: Global, line: &str) -> Result<String, Halt> {
        match word_at(line, 0) {
            "open" => self.open_line(heap, line),
            "read" => self.read_line(heap, line),
            "write" => self.write_line(heap, line),
            "count" => count_line(heap, line),
            "levels" | "bounds" | "claims" => self.places.say(heap, line),
            "poke" => {
                self.places.poke(line)?;
                Ok(format!(in heap; "ok")?)
            }
            _ => self.call_line(heap, line),
        }
    }

    // Answers a line, or says what is wrong with it.
    pub(crate) fn answer(&mut self, heap: Global, line: &str) -> Result<String, Halt> {
        if !is_right_count(line) {
            return Err(Halt::NoCall(Wrong::Count));
        }
        self.answer_to(heap, line)
    }
}

// Whether a line of a fixed number of words has as many.
fn is_right_count(line: &str) -> bool {
    let words = word_count(line);
    match word_at(line, 0) {
        "read" => words == 5,
        "write" => words == 2,
        "levels" | "bounds" | "claims" => words == 3,
        "poke" => words == if word_at(line, 1) == "bounds" { 5 } else { 4 },
        _ => true,
    }
}
