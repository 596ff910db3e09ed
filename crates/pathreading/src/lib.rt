// Reads the parts of path files: fields, points, workings and counted sections.
#![tactic(auto)]

pub mod fields;
pub mod filed;
pub mod item;
pub mod section;
pub mod working;
