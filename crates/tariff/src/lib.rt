// Reading a tariff file, and why one is refused.
#![tactic(auto)]

mod part;
pub mod reading;
pub mod refusal;
pub mod theorems;
