// Kinds of total: how the errors of a chain's chords are drawn together, and when one total is not above another.
#![tactic(auto)]

pub mod pair;
pub mod sum;
pub mod sum_then_worst;
pub mod total;
pub mod unlawful;
pub mod worst;
