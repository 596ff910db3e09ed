// The four workings on a control polygon, with what they charge and refuse.
#![tactic(auto)]

pub mod apply;
pub mod survey;
pub mod working;
