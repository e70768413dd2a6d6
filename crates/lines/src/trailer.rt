// The last 18 bytes of a file, which tell what stands before them.
ghost use Rattle.std.specs.Prelude.{◌+◌, ◌<◌, ◌≤◌, length};
ghost use Rattle.lines.specs.Trailers.{ReadsSpacedDigits, ReadsTrailer};

use crate::bytes::behind;
use crate::number::digits;

#[derive(Clone, Copy, Debug, PartialEq, Eq)]
pub struct Trailer {
    pub ceiling: u32,
    pub scenarios: usize,
    pub contracts: usize,
    pub place: usize,
}

// The trailer that these bytes are, if they are one.
pub fn read_trailer(bytes: &[u8]) -> Option<Trailer>
    ensures reads { ReadsTrailer bytes.now result }
{
    if bytes.len() != 18 {
        return None;
    }
    behind(bytes, 0, b'T')?;
    // five digits fit
    let ceiling = spaced_digits(bytes, 1, 5)? as u32;
    let scenarios = spaced_digits(bytes, 7, 1)? as usize;
    let contracts = spaced_digits(bytes, 9, 3)? as usize;
    let place = spaced_digits(bytes, 13, 3)? as usize;
    behind(bytes, 17, b'\n')?;
    Some(Trailer {
        ceiling,
        scenarios,
        contracts,
        place,
    })
}

// The number that `count` digits behind a space write.
fn spaced_digits(bytes: &[u8], place: usize, count: usize) -> Option<u64>
    requires within { place + count < length bytes.now }
    requires few { count ≤ 10 }
    ensures reads { ReadsSpacedDigits bytes.now place count result }
{
    let from = behind(bytes, place, b' ')?;
    digits(&bytes[from..from + count])
}
