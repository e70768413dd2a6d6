// A line of the file: a letter, numbers behind spaces, and a line end.
ghost use Rattle.std.specs.Prelude.{length, IfErr};
ghost use Rattle.lines.specs.Reads.{ReadsSpaced, ReadsLine, SpacedFault, FaultInLine};

use crate::bytes::behind;
use crate::fault::Malformed;
use crate::number::{field_end, number};

// Reads at a place a line of this letter with as many numbers as there are places for,
// and answers the place behind it. Bytes and place stay apart, since faults are told by the place in the whole file.
pub fn read_line(
    bytes: &[u8],
    place: usize,
    letter: u8,
    numbers: &mut [u32],
) -> Result<usize, Malformed>
    ensures reads { ReadsLine bytes.now place letter numbers.new result }
    ensures fault { IfErr result (FaultInLine bytes.now place letter (length numbers.old)) }
{
    let mut at = behind(bytes, place, letter).ok_or(Malformed::Letter)?;
    for n in numbers.iter_mut() {
        (*n, at) = spaced_number(bytes, at)?;
    }
    behind(bytes, at, b'\n').ok_or(Malformed::NoEnd)
}

// The number behind one space, and the place behind it.
fn spaced_number(bytes: &[u8], place: usize) -> Result<(u32, usize), Malformed>
    ensures reads { ReadsSpaced bytes.now place result }
    ensures fault { IfErr result (SpacedFault bytes.now place) }
{
    let from = behind(bytes, place, b' ').ok_or(Malformed::NoSpace)?;
    let end = field_end(bytes, from);
    let n = number(&bytes[from..end])?;
    Ok((n, end))
}
