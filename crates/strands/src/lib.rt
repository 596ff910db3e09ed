// Strands: polygons that are reworked call by call on a buffer of the caller's, which is lent at each call, since there is no heap.
#![tactic(auto)]

pub mod evaluation;
pub mod load;
pub mod rework;
pub mod strand;
