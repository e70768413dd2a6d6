// What is written of a book: its tariff file, its statement, and the lines that are told of it.
#![tactic(auto)]

mod line;
pub mod round_trips;
pub mod statement;
pub mod text;
pub mod writing;
