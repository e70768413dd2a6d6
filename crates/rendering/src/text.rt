// The lines that are told of a book: a level with its chances, and a refusal.
ghost use Rattle.std.specs.Prelude.{◌≡◌, ◌+◌, ◌≤◌, ◌++◌, length, decimal, IsOk};
ghost use Rattle.arrayvec.specs.ArrayVec.{array_vec_len};
ghost use Rattle.rendering.specs.Printed.{level_text, refusal_text};
ghost use Rattle.rendering.specs.Told.{Tells, number_of};

use crate::line::Line;

// The bytes handed over are too few for the text.
#[derive(Clone, Copy, Debug, PartialEq, Drop)]
pub struct TooFew;

impl TooFew {
    // The number under which it is told.
    pub fn number(self) -> u8
        ensures value { result ≡ number_of self }
    {
        18
    }
}

// Puts the line of a kept level at the front of the bytes, and answers its length.
pub fn level_line(out: &mut [u8], level: u32, lower: u64, upper: u64) -> Result<usize, TooFew>
    ensures tells { Tells (level_text level lower upper) out.old out.new result }
    ensures enough { 64 ≤ length out.old → IsOk result }
{
    let mut line = Line::new();
    line.put_field(u64::from(level), b" ");
    line.put_field(lower, b" ");
    line.put_field(upper, b"\n");
    tell(out, line.as_slice())
}

// Puts the line of a refusal at the front of the bytes, and answers its length.
pub fn refusal_line(out: &mut [u8], number: u32, place: usize) -> Result<usize, TooFew>
    ensures tells { Tells (refusal_text number place) out.old out.new result }
    ensures enough { 64 ≤ length out.old → IsOk result }
{
    let mut line = Line::new();
    line.put(b"refused ");
    line.put_field(u64::from(number), b" at ");
    line.put_field(place as u64, b"\n");
    tell(out, line.as_slice())
}

// Puts a text at the front of the bytes, and answers its length.
fn tell(out: &mut [u8], text: &[u8]) -> Result<usize, TooFew>
    ensures tells { Tells text.now out.old out.new result }
{
    let length = text.len();
    if out.len() < length {
        return Err(TooFew);
    }
    out[..length].copy_from_slice(text);
    Ok(length)
}
