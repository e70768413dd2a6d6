// The words of a line.
use crate::wrong::Wrong;
use std::num::ParseIntError;
use std::str::FromStr;

// A word of a line, from 0; empty past the last.
pub(crate) fn word_at(line: &str, place: usize) -> &str {
    line.split(' ').nth(place).unwrap_or("")
}

// How many words a line has.
pub(crate) fn word_count(line: &str) -> usize {
    line.split(' ').count()
}

// The number that a word of a line writes.
pub(crate) fn number_at<T: FromStr<Err = ParseIntError>>(
    line: &str,
    place: usize,
) -> Result<T, Wrong> {
    Ok(word_at(line, place).parse()?)
}
