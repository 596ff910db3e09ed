// Flattening: the polygon of a source as straight chords.
// There is no heap, so the caller lends a buffer for each use: to work on, for the points and for the parameters.
#![tactic(auto)]

pub mod chords;
mod stack;
mod vertices;
mod walk;
