// The constructions on control polygons, in place on slices of points of any kind.
// A polygon stays a plain slice that the caller lends, so private functions ask for its size in their contracts. Where a call fills places after the
// polygon too, as raise and split do, the number of its points is told beside the buffer.
#![tactic(auto)]

pub mod elevation;
pub mod flatness;
pub mod level;
pub mod reversal;
pub mod size;
pub mod subdivision;
