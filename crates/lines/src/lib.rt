// The lines of a tariff file: its numbers, a line of numbers, and the trailer.
#![tactic(auto)]

mod bytes;
pub mod fault;
pub mod line;
pub mod number;
pub mod trailer;
