// Path files that are opened: what they say, and as sources of control polygons.
#![tactic(auto)]

pub mod opened;
pub mod opening;
pub mod source;
