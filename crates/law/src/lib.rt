// The law over runs: calls on a book in any order, and what their answers have to do with the outcomes of its contracts.
#![tactic(auto)]

pub mod call;
pub mod figures;
pub mod running;
