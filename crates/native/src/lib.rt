// The kernel for programs in C and Rust: planar points, as numbers, records and slices. Any input is allowed.
// C has no generics, no `Result` and no sources, so each call has a name of its own, gives a record of numbers, and takes the parts of a source and of a parameter one by one.
#![tactic(auto)]

pub mod answer;
pub mod chords;
pub mod evaluation;
pub mod opening;
pub mod working;
