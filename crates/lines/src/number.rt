// A field of decimal digits, and where it ends.
ghost use Rattle.std.specs.Prelude.{◌≤◌, length, IfErr};
ghost use Rattle.lines.specs.Reads.{ReadsNumber, ReadsValue, FaultOf, FieldEnd};

use crate::fault::NumberFault;

// The number that a field writes.
#[tactic(auto, using(crate::proofs::Fields::field_not_empty, crate::proofs::Fields::zero_leads_alone, crate::proofs::Fields::field_at_most_ten))]
pub fn number(field: &[u8]) -> Result<u32, NumberFault>
    ensures reads { ReadsNumber field.now result }
    ensures fault { IfErr result (FaultOf field.now) }
{
    if field.is_empty() {
        return Err(NumberFault::Empty);
    }
    if field[0] == b'0' && field.len() > 1 {
        return Err(NumberFault::LeadingZero);
    }
    if field.len() > 10 {
        return Err(NumberFault::TooLarge);
    }
    let n = digits(field).ok_or(NumberFault::NoDigit)?;
    u32::try_from(n).map_err(|_| NumberFault::TooLarge)
}

// The number that at most ten digits write, leading zeros and all.
pub(crate) fn digits(field: &[u8]) -> Option<u64>
    requires { length field.now ≤ 10 }
    ensures { ReadsValue field.now result }
{
    let mut n: u64 = 0;
    for b in field {
        n = n * 10 + u64::from((*b as char).to_digit(10)?);
    }
    Some(n)
}

// The place of the first space or line end at or after `from`, or the length.
pub fn field_end(bytes: &[u8], from: usize) -> usize
    ensures value { FieldEnd bytes.now from result }
{
    let from = from.min(bytes.len());
    let rest = &bytes[from..];
    let ends = rest.iter().position(|b| *b == b' ' || *b == b'\n');
    from + ends.unwrap_or(rest.len())
}
