// The job: a page of strokes is read, and each stroke is answered by one record on an answer page.
#![tactic(auto)]

pub mod answered;
pub mod figures;
pub mod job;
mod keep;
pub mod kept;
mod marking;
pub mod next;
mod open;
mod points;
mod reads;
mod stroke;
mod whole;
