// The statement of a tariff file: a line for each kept level, or why the file is refused.
ghost use Rattle.std.specs.Prelude.{◌≡◌, ◌≤◌, false, ◌++◌, length, take, IfOk, IsOk, MatchBool, OnOk};
ghost use Rattle.reckoning.specs.Counting.{counts};
ghost use Rattle.book.specs.Declines.{places_wrong};
ghost use Rattle.book.specs.Laid.{Holds};
ghost use Rattle.book.specs.Listed.{listed};
ghost use Rattle.book.specs.Places.{handed, handed_of, held, shown};
ghost use Rattle.book.specs.Plain.{unopened};
ghost use Rattle.rendering.specs.Tables.{Table, Refused, table_of, Stated};
ghost use Rattle.rendering.specs.Statements.{is_table, text_of};

use crate::text::{TooFew, level_line, refusal_line};
use book::book::Book;
use book::places::Lent;
use book::shown::Shown;
use reckoning::claims::Claims;
use reckoning::grains::Grains;
use std::alloc::{AllocError, Global};
use tariff::reading::read;

// How many level places a statement brings.
const LEVELS: usize = 256;

// The places for them in each of eight scenarios.
const VALUES: usize = 2048;

// Enough bytes for each line of a statement, which the public calls put into bytes that they are handed.
const LINE: usize = 64;

// A statement, with its bytes: a table of levels, or a refusal. It is no Result: a refusal is printed as the table is, and what fails is only the memory.
#[derive(Drop)]
pub enum Statement {
    Table(Vec<u8>),
    Refusal(Vec<u8>),
}

impl Statement {
    // The bytes to print.
    pub fn into_text(self) -> Vec<u8>
        ensures value { result.items ≡ text_of self }
    {
        match self {
            Statement::Table(text) => text,
            Statement::Refusal(text) => text,
        }
    }
}

// Appends the line that a call has put at the front of bytes that were enough for it.
fn append(text: &mut Vec<u8>, bytes: &[u8], told: Result<usize, TooFew>) -> Result<(), AllocError>
    requires enough { IsOk told }
    requires within { IfOk told (λ k. k ≤ length bytes.now) }
    ensures appends { OnOk result (IfOk told (λ k. text.new.items ≡ text.old.items ++ take k bytes.now)) }
{
    let length = told.unwrap();
    text.extend_from_slice(&bytes[..length])?;
    Ok(())
}

// The line of each kept level, with the bounds of the mix.
fn table(heap: Global, book: &Book, places: &Shown<'_, Option<u16>>) -> Result<Vec<u8>, AllocError>
    ensures rows { IfOk result (λ text. Table text.items) }
    ensures kept { places_wrong (handed_of (shown places.now)) (listed book.now) ≡ false → Holds counts book.now (shown places.now) → IfOk result (λ text. text.items ≡ table_of (listed book.now)) }
{
    let mut text = Vec::new(heap);
    let kept = book.levels_kept().min(places.levels.len());
    for level in &places.levels[..kept] {
        if let Ok((lower, upper)) = book.chance::<Claims>(0, *level, places) {
            let mut line = [0u8; LINE];
            let told = level_line(&mut line, *level, lower, upper);
            append(&mut text, &line, told)?;
        }
    }
    Ok(text)
}

// The statement of a file that is read into a book before open, over places that are lent.
fn state_file(
    heap: Global,
    book: &mut Book,
    file: &[u8],
    places: &mut Lent<'_, Option<u16>>,
) -> Result<Statement, AllocError>
    requires empty { listed book.old ≡ unopened }
    requires places { handed_of (held places.old) ≡ handed 256 2048 2048 }
    ensures told { IfOk result (λ s. MatchBool (is_table s) (Table (text_of s)) (Refused (text_of s))) }
    ensures stated { IfOk result (λ s. Stated file.now (is_table s) (text_of s)) }
{
    match read::<Claims>(book, file, places) {
        Ok(_) => {
            let text = table(heap, book, &places.shown())?;
            Ok(Statement::Table(text))
        }
        Err(fault) => {
            let mut text = Vec::new(heap);
            let mut line = [0u8; LINE];
            let told = refusal_line(&mut line, fault.number(), fault.place());
            append(&mut text, &line, told)?;
            Ok(Statement::Refusal(text))
        }
    }
}

// The statement of a file, over 256 level places; only want of memory stops it.
pub fn statement_of(heap: Global, file: &[u8]) -> Result<Statement, AllocError>
    ensures told { IfOk result (λ s. MatchBool (is_table s) (Table (text_of s)) (Refused (text_of s))) }
    ensures stated { IfOk result (λ s. Stated file.now (is_table s) (text_of s)) }
{
    let mut book = Book::new(heap)?;
    let mut levels: Vec<u32> = vec![in heap; 0; LEVELS]?;
    let mut bounds: Vec<Grains> = vec![in heap; Grains { lower: 0, upper: 0 }; VALUES]?;
    let mut values: Vec<Option<u16>> = vec![in heap; None; VALUES]?;
    let mut places = Lent::new(&mut levels[..], &mut bounds[..], &mut values[..]);
    state_file(heap, &mut book, file, &mut places)
}
