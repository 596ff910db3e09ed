// Patches, and their cuts as sources of control polygons.
#![tactic(auto)]

mod columns;
pub mod cut;
pub mod patch;
