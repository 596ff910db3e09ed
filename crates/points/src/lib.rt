// Points of every kind, how they mix, and how a call refuses.
#![tactic(auto)]

pub mod fault;
pub mod height;
pub mod kind;
pub mod mixing;
pub mod parameter;
pub mod planar;
pub mod sample;
pub mod weight;
