// Reckonings: what a value in a place stands for, and how two values are blended.
#![tactic(auto)]

pub mod bounds;
pub mod claims;
pub mod families;
pub mod grains;
pub mod loss;
pub mod rate;
pub mod reckoning;
