// Scripts of calls: their text, the calls and numbers of a line, and answers in words.
#![tactic(auto)]

pub mod input;
pub mod numbers;
pub mod saying;
pub mod verb;
