// The lines that are printed: one for each stroke, and one for the refusal of a page or of the program.
#![tactic(auto)]

pub mod line;
pub mod output;
