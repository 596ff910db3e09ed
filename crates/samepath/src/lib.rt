// Whether two path files are the same path.
#![tactic(auto)]

pub mod numbers;
pub mod paths;
