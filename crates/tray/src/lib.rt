// A tray holds one stroke, point by point. With the pen down points are put and taken back; with the pen up they are marked.
#![tactic(auto)]

pub mod calls;
pub mod causes;
pub mod point;
mod steps;
pub mod table;
pub mod tray;
