// Tries the calls on path files over a table on standard input, and prints what they answer. A line is one of
//   open KIND LENGTH FILE: a file, filled up with zeros to a length, is opened, surveyed, worked and written again
//   same KIND FILE FILE: two files are compared
//   steps KIND PLACES ALLOWANCE NAME VALUE .. | WORKING ..: a file is written step by step onto a buffer of so many places
// Bytes are in hexadecimal, '-' for none; a working is its letter, and after L and R k and a, as L:1:1; U*9 is nine of them.
#![tactic(auto)]

mod opened;
mod steps;
mod words;

use anyhow::{Context, anyhow};
use opened::{list_opened, list_same};
use pathwriting::point::EncodePoint;
use points::height::Height;
use points::planar::Planar;
use points::sample::Sample;
use std::io::Read;
use steps::list_steps;
use tables::made::Made;

// What a call answers on points of one kind. The name of a call becomes the call here.
fn list_call<K: EncodePoint + Made>(
    rt: &HostRuntime,
    call: &str,
    rest: &str,
) -> anyhow::Result<()> {
    match call {
        "open" => list_opened::<K>(rt, rest),
        "same" => list_same::<K>(rt, rest),
        "steps" => list_steps::<K>(rt, rest),
        _ => Err(anyhow!("no such call or kind")),
    }
}

// The name of a kind becomes a type here.
fn list_line(rt: &HostRuntime, line: &str) -> anyhow::Result<()> {
    let (call, more) = line.split_once(' ').context("a line without a call")?;
    let (kind, rest) = more.split_once(' ').context("a line without a kind")?;
    match kind {
        "height" => list_call::<Height>(rt, call, rest),
        "planar" => list_call::<Planar>(rt, call, rest),
        "sample" => list_call::<Sample>(rt, call, rest),
        _ => Err(anyhow!("no such call or kind")),
    }
}

// Each trial reads a table of its own, and all of it before it answers: a table that is no text gives no answer, and a pipe is not read byte by byte.
fn main(rt: HostRuntime) -> anyhow::Result<()> {
    let mut text = String::new(rt.alloc());
    rt.stdin().read_to_string(&mut text)?;
    for line in text.as_str().lines() {
        list_line(&rt, line)?;
    }
    Ok(())
}
