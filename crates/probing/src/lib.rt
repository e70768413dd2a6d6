// Single calls on a book and its places, asked for by lines of text.
#![tactic(auto)]

mod asking;
mod bytes;
mod lending;
mod places;
pub mod running;
mod words;
pub mod wrong;
