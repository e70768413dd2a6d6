// The numbers of a line.
ghost use Rattle.std.specs.Prelude.{◌≡◌, ◌≤◌, vec_len};
ghost use Rattle.scripts.specs.declared.numbers.NoNumbers.TheVariants.{NotANumber, NoMemory};

use std::alloc::{AllocError, Global};
use std::num::ParseIntError;

// Why a line gives no numbers: a word is no number of 32 bits, or there is no memory. What ? makes of each error is written out, since a derived From would promise nothing of it.
#[derive(Debug, Drop)]
pub enum NoNumbers {
    NotANumber,
    NoMemory(AllocError),
}

impl From<ParseIntError> for NoNumbers {
    ghost from_gives = { λ _ r. r ≡ NotANumber };

    fn from(_e: ParseIntError) -> NoNumbers {
        NoNumbers::NotANumber
    }
}

impl From<AllocError> for NoNumbers {
    ghost from_gives = { λ e r. r ≡ NoMemory e };

    fn from(e: AllocError) -> NoNumbers {
        NoNumbers::NoMemory(e)
    }
}

// Appends the numbers of a line's words past the first `skip`.
fn append(line: &str, skip: usize, numbers: &mut Vec<u32>) -> Result<(), NoNumbers>
    ensures grows { vec_len numbers.old ≤ vec_len numbers.new }
{
    for word in line.split(' ').skip(skip) {
        numbers.push(word.parse()?).map_err(AllocError::from)?;
    }
    Ok(())
}

// Appends the numbers of a line's words past the first `skip`; false where one is no number of 32 bits.
pub fn read_numbers(line: &str, skip: usize, numbers: &mut Vec<u32>) -> Result<bool, AllocError>
    ensures grows { vec_len numbers.old ≤ vec_len numbers.new }
{
    match append(line, skip, numbers) {
        Ok(()) => Ok(true),
        Err(NoNumbers::NoMemory(wrong)) => Err(wrong),
        Err(_) => Ok(false),
    }
}

// The numbers of a line's words past the first `skip`, in a list of their own.
pub fn numbers_of(heap: Global, line: &str, skip: usize) -> Result<Vec<u32>, NoNumbers> {
    let mut numbers = Vec::new(heap);
    append(line, skip, &mut numbers)?;
    Ok(numbers)
}
