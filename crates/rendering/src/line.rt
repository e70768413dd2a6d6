// A line in the making: what is appended to it.
ghost use Rattle.std.specs.Prelude.{◌≡◌, ◌+◌, ◌≤◌, [], ◌∷◌, ◌++◌, length, decimal};
ghost use Rattle.arrayvec.specs.ArrayVec.{array_vec_len};
ghost use Rattle.lines.specs.Texts.{padded};

use arrayvec::ArrayVec;
use itoa::Buffer;

// The bytes of a line so far. The longest line has ten numbers.
#[derive(Drop)]
pub(crate) struct Line {
    pub(crate) bytes: ArrayVec<u8, 256>,
    // where a number's digits are made: one for all of a line, since a new one is filled with zeros first
    digits: Buffer,
}

// How many decimal digits a number has. One digit is told without being made.
#[tactic(auto, using(std::proofs::lemmas::Fmt::decimal_digit))]
pub(crate) fn digit_count(n: u64) -> usize
    ensures value { result ≡ length (decimal n) }
    ensures bound { result ≤ 20 }
{
    if n < 10 {
        return 1;
    }
    let mut digits = Buffer::new();
    digits.format(n).len()
}

impl Line {
    // A line with nothing in it.
    pub(crate) fn new() -> Line
        ensures empty { result.bytes.items ≡ [] }
        ensures none { array_vec_len result.bytes ≡ 0 }
    {
        Line {
            bytes: ArrayVec::new(),
            digits: Buffer::new(),
        }
    }

    // Takes out what is in it.
    pub(crate) fn clear(&mut self)
        ensures empty { self.new.bytes.items ≡ [] }
        ensures none { array_vec_len self.new.bytes ≡ 0 }
    {
        self.bytes.clear();
    }

    // The bytes.
    pub(crate) fn as_slice(&self) -> &[u8]
        ensures { result.now ≡ self.now.bytes.items }
    {
        self.bytes.as_slice()
    }

    // Appends bytes.
    pub(crate) fn put(&mut self, bytes: &[u8])
        requires room { array_vec_len self.old.bytes + length bytes.now ≤ 256 }
        ensures after { self.new.bytes.items ≡ self.old.bytes.items ++ bytes.now }
        ensures longer { array_vec_len self.new.bytes ≡ array_vec_len self.old.bytes + length bytes.now }
    {
        // there is room, so all of them are taken
        let _ = self.bytes.try_extend_from_slice(bytes);
    }

    // Appends a byte.
    pub(crate) fn put_byte(&mut self, byte: u8)
        requires room { array_vec_len self.old.bytes + 1 ≤ 256 }
        ensures after { self.new.bytes.items ≡ self.old.bytes.items ++ byte ∷ [] }
        ensures longer { array_vec_len self.new.bytes ≡ array_vec_len self.old.bytes + 1 }
    {
        self.bytes.push(byte);
    }

    // Appends a number without leading zeros: one digit as a byte, more by way of the place where digits are made.
    #[tactic(auto, using(std::proofs::lemmas::Fmt::decimal_digit))]
    pub(crate) fn put_number(&mut self, n: u64)
        requires room { array_vec_len self.old.bytes + 20 ≤ 256 }
        ensures after { self.new.bytes.items ≡ self.old.bytes.items ++ decimal n }
        ensures longer { array_vec_len self.new.bytes ≤ array_vec_len self.old.bytes + 20 }
    {
        if n < 10 {
            self.put_byte(b'0' + n as u8);
            return;
        }
        let digits = self.digits.format(n).as_bytes();
        // there is room, so all of them are taken
        let _ = self.bytes.try_extend_from_slice(digits);
    }

    // Appends a space and a number.
    pub(crate) fn put_spaced(&mut self, n: u64)
        requires room { array_vec_len self.old.bytes + 21 ≤ 256 }
        ensures after { self.new.bytes.items ≡ self.old.bytes.items ++ 32 ∷ decimal n }
        ensures longer { array_vec_len self.new.bytes ≤ array_vec_len self.old.bytes + 21 }
    {
        self.put_byte(b' ');
        self.put_number(n);
    }

    // Appends a number and the bytes that follow it.
    pub(crate) fn put_field(&mut self, n: u64, next: &[u8])
        requires room { array_vec_len self.old.bytes + (20 + length next.now) ≤ 256 }
        ensures after { self.new.bytes.items ≡ self.old.bytes.items ++ (decimal n ++ next.now) }
        ensures longer { array_vec_len self.new.bytes ≤ array_vec_len self.old.bytes + (20 + length next.now) }
    {
        self.put_number(n);
        self.put(next);
    }

    // Appends the last `count` digits of a number, with leading zeros: those before the last one first.
    fn put_padded(&mut self, count: usize, n: u64)
        requires room { array_vec_len self.old.bytes + count ≤ 256 }
        ensures after { self.new.bytes.items ≡ self.old.bytes.items ++ padded count n }
        ensures longer { array_vec_len self.new.bytes ≡ array_vec_len self.old.bytes + count }
    {
        if count > 0 {
            self.put_padded(count - 1, n / 10);
            self.put_byte(b'0' + (n % 10) as u8);
        }
    }

    // Appends a space and the last `count` digits of a number.
    pub(crate) fn put_spaced_digits(&mut self, count: usize, n: u64)
        requires room { array_vec_len self.old.bytes + (count + 1) ≤ 256 }
        ensures after { self.new.bytes.items ≡ self.old.bytes.items ++ 32 ∷ padded count n }
        ensures longer { array_vec_len self.new.bytes ≡ array_vec_len self.old.bytes + (count + 1) }
    {
        self.put_byte(b' ');
        self.put_padded(count, n);
    }
}
