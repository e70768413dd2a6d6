// A loss book over lent places: its kept levels, and the values beside them.
#![tactic(auto)]

pub mod book;
pub mod changing;
pub mod contract;
pub mod entering;
mod frame;
pub mod layering;
mod laying;
pub mod listing;
mod merging;
pub mod opening;
pub mod places;
mod rebuilding;
pub mod refusal;
pub mod reserving;
pub mod shares;
pub mod shown;
pub mod telling;
pub mod theorems;
mod valuing;
