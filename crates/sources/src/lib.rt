// Sources of control polygons, piles of workings over them, and the point call.
// There is no heap, so a buffer is lent at each call and kept nowhere: source, parameter and buffer are arguments of their own.
#![tactic(auto)]

pub mod climbing;
pub mod evaluation;
pub mod memory;
pub mod source;
pub mod worked;
