// Writes path files: begun, given their points and closed with their workings, on a buffer that comes with each step.
#![tactic(auto)]

mod bytes;
pub mod encode;
pub mod point;
mod section;
pub mod states;
pub mod steps;
pub mod whole;
pub mod working;
