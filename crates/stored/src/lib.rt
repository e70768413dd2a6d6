// Stored cases: what is run, beside the answer that it should get.
#![tactic(auto)]

pub mod answering;
pub mod comparing;
