// Measures: the error of a chord of a lifted stroke. Three bare measures, and two layers over any measure.
#![tactic(auto)]

pub mod area;
mod chord;
pub mod corners;
pub mod distance;
pub mod measure;
mod offset;
pub mod span;
pub mod synchronous;
pub mod worked;
