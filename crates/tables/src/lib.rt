// Points made from tables of numbers, and points and refusals as the trials print them.
#![tactic(auto)]

pub mod listing;
pub mod made;
