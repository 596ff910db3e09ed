// The format of path files: what bytes say, which bytes say it, and that the two agree.
#![tactic(auto)]

ghost use Rattle.pathformat.specs.File.{RoundTrip};

pub mod kind;

// Reading and writing a file undo each other, from either side.
pub fn round_trip()
    ensures { RoundTrip }
{}
