// Writing a tariff file: the S lines, the C lines, the trailer.
ghost use Rattle.std.specs.Prelude.{◌≡◌, ℕ, ◌+◌, ◌*◌, ◌≤◌, List, ◌∷◌, ◌++◌, [], length, drop};
ghost use Rattle.std.specs.List.{flat_map};
ghost use Rattle.arrayvec.specs.ArrayVec.{array_vec_len};
ghost use Rattle.book.specs.Entries.{entry_of};
ghost use Rattle.book.specs.Listed.{listed};
ghost use Rattle.tariff.specs.Files.{numbers_of, file_text};
ghost use Rattle.lines.specs.Places.{written};
ghost use Rattle.lines.specs.Texts.{line_text, numbers_text, trailer_text};
ghost use Rattle.rendering.specs.Told.{Tells};

use crate::line::{Line, digit_count};
use crate::text::TooFew;
use arrayvec::ArrayVec;
use book::book::Book;
use book::contract::Contract;
use lines::trailer::Trailer;

// Puts the one file of a book at the front of the bytes, and answers its length.
pub fn write(book: &Book, out: &mut [u8]) -> Result<usize, TooFew>
    ensures tells { Tells (file_text (listed book.now)) out.old out.new result }
{
    let length = file_length(book);
    if out.len() < length {
        return Err(TooFew);
    }
    put_file(book, out);
    Ok(length)
}

// How long the file of a book is.
fn file_length(book: &Book) -> usize
    ensures value { result ≡ length (file_text (listed book.now)) }
{
    let shares = book.shares();
    let contracts = book.contracts();
    let scenarios = shares.len();
    lines_length(shares, scenarios) + lines_length(contracts, scenarios) + 18
}

// Puts the file of a book at the front, line by line: a file is longer than the buffer of a line.
fn put_file(book: &Book, out: &mut [u8])
    requires fits { length (file_text (listed book.now)) ≤ length out.old }
    ensures after { out.new ≡ file_text (listed book.now) ++ drop (length (file_text (listed book.now))) out.old }
{
    let shares = book.shares();
    let contracts = book.contracts();
    let scenarios = shares.len();
    let place = put_lines(out, 0, shares, scenarios);
    let end = put_lines(out, place, contracts, scenarios);
    let trailer = trailer_line(Trailer {
        ceiling: book.ceiling(),
        scenarios,
        contracts: contracts.len(),
        place,
    });
    put_line(out, end, &trailer);
}

// What has a line in the file of a book.
trait Lined {
    // the bytes of its line in a book of so many scenarios
    ghost text: { ℕ → Self → List ℕ };

    // How long the line is.
    fn line_length(&self, scenarios: usize) -> usize
        ensures value { result ≡ length (text scenarios self.now) }
        ensures bound { result ≤ 256 };

    // Makes it in place of another line.
    fn line_in(&self, scenarios: usize, line: &mut Line)
        ensures text { line.new.bytes.items ≡ text scenarios self.now }
        ensures short { array_vec_len line.new.bytes ≤ 256 };
}

// A share has an S line.
impl Lined for u32 {
    ghost text = { λ scenarios share. line_text 83 (share ∷ []) };

    fn line_length(&self, _scenarios: usize) -> usize {
        length_of(&[*self])
    }

    fn line_in(&self, _scenarios: usize, line: &mut Line) {
        line_of(b'S', &[*self], line);
    }
}

// A contract has a C line.
impl Lined for Contract {
    ghost text = { λ scenarios contract. line_text 67 (numbers_of (entry_of scenarios contract)) };

    fn line_length(&self, scenarios: usize) -> usize {
        let numbers = numbers_of(self, scenarios);
        length_of(numbers.as_slice())
    }

    fn line_in(&self, scenarios: usize, line: &mut Line) {
        let numbers = numbers_of(self, scenarios);
        line_of(b'C', numbers.as_slice(), line);
    }
}

// How long the lines of these are together.
fn lines_length<T: Lined>(items: &[T], scenarios: usize) -> usize
    requires few { length items.now ≤ 256 }
    ensures value { result ≡ length (flat_map (T.text scenarios) items.now) }
    ensures bound { result ≤ 65536 }
{
    items.iter().map(|item| item.line_length(scenarios)).sum()
}

// Puts the lines of these in turn, and answers the place behind them. They are made in one line, since a new one costs more than the numbers in it.
fn put_lines<T: Lined>(out: &mut [u8], from: usize, items: &[T], scenarios: usize) -> usize
    requires fits { from + length (flat_map (T.text scenarios) items.now) ≤ length out.old }
    ensures value { result ≡ from + length (flat_map (T.text scenarios) items.now) }
    ensures after { out.new ≡ written out.old from (flat_map (T.text scenarios) items.now) }
{
    let mut line = Line::new();
    let mut at = from;
    for item in items {
        item.line_in(scenarios, &mut line);
        at = put_line(out, at, &line);
    }
    at
}

// Puts a line, and answers the place behind it. The place goes along: a struct of both would have to say in each clause whose bytes it holds.
fn put_line(out: &mut [u8], from: usize, line: &Line) -> usize
    requires fits { from + array_vec_len line.now.bytes ≤ length out.old }
    ensures value { result ≡ from + array_vec_len line.now.bytes }
    ensures after { out.new ≡ written out.old from line.now.bytes.items }
{
    let end = from + line.as_slice().len();
    out[from..end].copy_from_slice(line.as_slice());
    end
}

// The numbers of a contract's C line.
fn numbers_of(contract: &Contract, scenarios: usize) -> ArrayVec<u32, 10>
    ensures value { result.items ≡ numbers_of (entry_of scenarios contract.now) }
{
    let mut numbers = ArrayVec::new();
    numbers.push(contract.key());
    numbers.push(contract.loss());
    for rate in contract.rates().iter().take(scenarios) {
        numbers.push(rate.millionths());
    }
    numbers
}

// How long a line of at most ten numbers is.
fn length_of(numbers: &[u32]) -> usize
    requires few { length numbers.now ≤ 10 }
    ensures value { result ≡ length (numbers_text numbers.now) + 2 }
    ensures bound { result ≤ 256 }
{
    let mut length: usize = 2;
    for n in numbers {
        length += digit_count(u64::from(*n)) + 1;
    }
    length
}

// Makes a line of a letter and at most ten numbers, in place of another.
fn line_of(letter: u8, numbers: &[u32], line: &mut Line)
    requires few { length numbers.now ≤ 10 }
    ensures text { line.new.bytes.items ≡ line_text letter numbers.now }
    ensures short { array_vec_len line.new.bytes ≤ 256 }
{
    line.clear();
    line.put_byte(letter);
    for n in numbers {
        line.put_spaced(u64::from(*n));
    }
    line.put_byte(b'\n');
}

// The line of a trailer.
fn trailer_line(trailer: Trailer) -> Line
    ensures text { result.bytes.items ≡ trailer_text trailer.ceiling trailer.scenarios trailer.contracts trailer.place }
    ensures short { array_vec_len result.bytes ≡ 18 }
{
    let mut line = Line::new();
    line.put_byte(b'T');
    line.put_spaced_digits(5, u64::from(trailer.ceiling));
    line.put_spaced_digits(1, trailer.scenarios as u64);
    line.put_spaced_digits(3, trailer.contracts as u64);
    line.put_spaced_digits(3, trailer.place as u64);
    line.put_byte(b'\n');
    line
}
