// Reading a tariff file: the form of the whole file, then open, then line by line.
ghost use Rattle.std.specs.Prelude.{◌≡◌, ◌+◌, ◌<◌, ◌≤◌, false, [], length, IfOk, IfErr, MatchResult, OnOk};
ghost use Rattle.book.specs.Declines.{places_wrong};
ghost use Rattle.book.specs.Laid.{state, Holds};
ghost use Rattle.book.specs.Listed.{listed};
ghost use Rattle.book.specs.Places.{held, handed_of, SamePlaces};
ghost use Rattle.tariff.specs.Filed.{ReadsFile};
ghost use Rattle.tariff.specs.Forms.{SharesRight, SharesWrong, FormWrong};
ghost use Rattle.tariff.specs.Grammar.{LinesFrom};
ghost use Rattle.tariff.specs.Refusals.{telling};
ghost use Rattle.tariff.specs.Reading.{ReadsShare, ReadsDue, ReadsContractLine, Counts, Formed, FormedWith, EntersLine, EntersPart, MayCome};

use crate::part::ContractPart;
use crate::refusal::{BookFault, FileFault, LineFault};
use book::book::Book;
use book::places::Lent;
use lines::fault::LineKind;
use lines::line::read_line;
use lines::trailer::{Trailer, read_trailer};
use reckoning::reckoning::Reckoning;

// What an accepted read answers: a type of its own, so that it can tell more later.
#[derive(Clone, Copy, Debug, PartialEq, Eq)]
pub struct FileRead;

// The share of the S line at a place, and the place behind it. A C line is read likewise, but into other numbers, and told at the byte of the whole file.
fn share_line(body: &[u8], place: usize) -> Result<(u32, usize), LineFault>
    ensures { ReadsShare body.now place result }
{
    // one number, since a line is read into a slice that is there
    let mut share = [0u32; 1];
    let read = read_line(body, place, b'S', &mut share);
    let next = read.map_err(|wrong| LineFault::Share(place, wrong))?;
    Ok((share[0], next))
}

// The S line that is due at a place; where a C line or the trailer stands in its place, that is told at the trailer.
fn due_share(body: &[u8], place: usize) -> Result<(u32, usize), FileFault>
    ensures { ReadsDue body.now place result }
{
    let first = body.get(place).ok_or(FileFault::Shares(body.len()))?;
    match LineKind::from(*first) {
        LineKind::Contract => Err(FileFault::Shares(body.len())),
        LineKind::Share | LineKind::Trailer | LineKind::Other => Ok(share_line(body, place)?),
    }
}

// Reads as many S lines as there are shares; they have to end at the byte `end`.
fn read_shares(body: &[u8], end: usize, shares: &mut [u32]) -> Result<(), FileFault>
    ensures { MatchResult result (λ _. SharesRight body.now (length shares.old) end shares.new) (SharesWrong body.now (length shares.old) end) }
{
    let mut place = 0;
    for share in shares.iter_mut() {
        (*share, place) = due_share(body, place)?;
    }
    if place != end {
        return Err(FileFault::Shares(body.len()));
    }
    Ok(())
}

impl ContractPart<'_> {
    // Reads the C line at a place, and answers the place behind it.
    fn line(&self, place: usize, numbers: &mut [u32]) -> Result<usize, LineFault>
        requires { place ≤ length self.now.bytes.now }
        ensures { ReadsContractLine self.now.bytes.now self.now.base place numbers.new result }
    {
        let byte = self.base + place;
        let read = read_line(self.bytes, place, b'C', numbers);
        read.map_err(|wrong| LineFault::Contract(byte, wrong))
    }

    // How many C lines there are; the first line that is none is told.
    fn count_lines(&self) -> Result<usize, LineFault>
        ensures { Counts self.now.bytes.now self.now.base (2 + self.now.scenarios) result }
    {
        let count = 2 + self.scenarios;
        // As many numbers as a line can have, since a line is read into a slice that is there.
        let mut numbers = [0u32; 11];
        let mut place = 0;
        let mut lines: usize = 0;
        // A while, since a line says itself where the next one begins. An iterator would hand out the numbers of each line by value, and would have to end after a fault.
        while place < self.bytes.len() {
            place = self.line(place, &mut numbers[..count])?;
            lines += 1;
        }
        Ok(lines)
    }

    // Enters the contract of the C line at a place, and answers the place behind it. That the places fit the book goes from open to the last line as a premise, since book and places are lent apart.
    fn enter_line<R: Reckoning>(
        &self,
        place: usize,
        book: &mut Book,
        places: &mut Lent<'_, R::Value>,
    ) -> Result<usize, FileFault>
        requires within { place < length self.now.bytes.now }
        requires lines { LinesFrom self.now.bytes.now place 67 (2 + self.now.scenarios) }
        requires places { places_wrong (handed_of (held places.old)) (listed book.old) ≡ false }
        ensures walks { IfOk result (λ next. (place < next) × (next ≤ length self.now.bytes.now) × LinesFrom self.now.bytes.now next 67 (2 + self.now.scenarios)) }
        ensures lent { SamePlaces places.old places.new }
        ensures places { OnOk result (places_wrong (handed_of (held places.new)) (listed book.new) ≡ false) }
        ensures enters { Holds R.Reckoning.operations book.old (held places.old) → EntersLine R.Reckoning.operations (handed_of (held places.old)) self.now.bytes.now self.now.base (2 + self.now.scenarios) place (state book.old (held places.old)) (state book.new (held places.new)) result }
    {
        let begin = self.base + place;
        let count = 2 + self.scenarios;
        // As many numbers as a line can have, since a line is read into a slice that is there.
        let mut numbers = [0u32; 11];
        let line = &mut numbers[..count];
        let next = self.line(place, line)?;
        book.enter::<R>(line[0], line[1], &line[2..], places)
            .map_err(|refusal| BookFault {
                place: begin,
                refusal,
            })?;
        Ok(next)
    }

    // Enters the contracts line by line; each line is entered before the next is read.
    fn enter<R: Reckoning>(
        &self,
        book: &mut Book,
        places: &mut Lent<'_, R::Value>,
    ) -> Result<FileRead, FileFault>
        requires lines { LinesFrom self.now.bytes.now 0 67 (2 + self.now.scenarios) }
        requires places { places_wrong (handed_of (held places.old)) (listed book.old) ≡ false }
        ensures lent { SamePlaces places.old places.new }
        ensures enters { (listed book.old).contracts ≡ [] → Holds R.Reckoning.operations book.old (held places.old) → EntersPart R.Reckoning.operations (handed_of (held places.old)) self.now.bytes.now self.now.base (2 + self.now.scenarios) (state book.old (held places.old)) (state book.new (held places.new)) result }
    {
        let mut place = 0;
        // A while, as where the lines are counted.
        while place < self.bytes.len() {
            place = self.enter_line::<R>(place, book, places)?;
        }
        Ok(FileRead)
    }
}

// The trailer of a file whose form is right, with its shares; else what is wrong with the form.
fn check_form(file: &[u8], shares: &mut [u32]) -> Result<Trailer, FileFault>
    requires { length shares.old ≡ 9 }
    ensures formed { IfOk result (Formed file.now) }
    ensures reads { MatchResult result (FormedWith file.now shares.new) (FormWrong file.now) }
{
    let len = file.len();
    if !(18..=21_346).contains(&len) {
        return Err(FileFault::Length);
    }
    let at = len - 18;
    let trailer = read_trailer(&file[at..]).ok_or(FileFault::Trailer(at))?;
    let scenarios = trailer.scenarios;
    let place = trailer.place;
    read_shares(&file[..at], place, &mut shares[..scenarios])?;
    let part = ContractPart {
        bytes: &file[place..at],
        base: place,
        scenarios,
    };
    let lines = part.count_lines()?;
    if lines != trailer.contracts {
        return Err(FileFault::Count(at));
    }
    Ok(trailer)
}

// Reads a file into a book: a refusal leaves book and places as they were, but one met while the contracts are entered leaves the opened book with the contracts before the faulty line.
pub fn read<R: Reckoning>(
    book: &mut Book,
    file: &[u8],
    places: &mut Lent<'_, R::Value>,
) -> Result<FileRead, FileFault>
    ensures reads { ReadsFile R.Reckoning.operations (handed_of (held places.old)) file.now (state book.old (held places.old)) (state book.new (held places.new)) result }
    ensures lent { SamePlaces places.old places.new }
    ensures comes { IfErr result (MayCome (length file.now)) }
    ensures unchanged { IfErr result (λ e. (telling e).number ≤ 7 → state book.new (held places.new) ≡ state book.old (held places.old)) }
{
    // As many shares as a trailer can tell of, since they are read into a slice that is there.
    let mut shares = [0u32; 9];
    let trailer = check_form(file, &mut shares)?;
    let scenarios = trailer.scenarios;
    let place = trailer.place;
    let at = file.len() - 18;
    book.open::<R>(trailer.ceiling, &shares[..scenarios], places)
        .map_err(|refusal| BookFault { place: at, refusal })?;
    let bytes = &file[place..at];
    let part = ContractPart {
        bytes,
        base: place,
        scenarios,
    };
    part.enter::<R>(book, places)
}
