// Counting the outcomes of a few contracts by a walk of their probability tree.
#![tactic(auto)]

pub mod counting;
pub mod pair;
pub mod refusal;
