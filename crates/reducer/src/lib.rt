// Reduces a lifted stroke to the chain with the fewest points, and of these the least total, for every measure and every kind of total.
#![tactic(auto)]

pub mod answer;
pub mod reduce;
mod search;
pub mod step;
mod tables;
