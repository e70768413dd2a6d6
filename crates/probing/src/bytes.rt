// Bytes as pairs of hexadecimal digits; no bytes are written as a dash.
use crate::wrong::{Halt, Wrong};
use std::alloc::{AllocError, Global};

// The bytes of a word. Its digits are looked at first, since decoding takes memory for all of them before it looks at one.
pub(crate) fn bytes_of(heap: Global, word: &str) -> Result<Vec<u8>, Halt> {
    match word {
        "-" => Ok(Vec::new(heap)),
        "" => Err(Halt::NoCall(Wrong::Bytes)),
        digits if digits.bytes().all(|digit| digit.is_ascii_hexdigit()) => {
            Ok(hex::decode(heap, digits)?)
        }
        _ => Err(Halt::NoCall(Wrong::Bytes)),
    }
}

// Bytes as a word.
pub(crate) fn word_of(heap: Global, bytes: &[u8]) -> Result<String, AllocError> {
    if bytes.is_empty() {
        String::from_str(heap, "-")
    } else {
        hex::encode(heap, bytes)
    }
}
