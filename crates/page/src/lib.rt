// Pages of strokes: records read in place, strokes and answers written whole.
#![tactic(auto)]

mod decode;
mod encode;
pub mod fault;
pub mod kinds;
pub mod order;
mod record;
mod record_kind;
mod steps;
pub mod walk;
pub mod writer;
