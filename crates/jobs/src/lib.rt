// Jobs: a source loaded and worked by a list of workings, or an opened file by its own.
#![tactic(auto)]

pub mod file;
pub mod job;
