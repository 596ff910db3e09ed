// Cuts each patch of a table on standard input and prints what the cut tells and draws, what a pile over it draws, a point of it and its chords.
// A line is a kind, m, n, the allowance, a and k of s, a and k of t, the tolerance, the places of the buffer, and the axis values of the points, point after point.
#![tactic(auto)]

mod listing;
mod tried;

use listing::{MOST, WORKING, list_patch};
use points::height::Height;
use points::planar::Planar;
use points::sample::Sample;
use std::io::Read;
use tried::tried_of;

// A line has numbers of its own form in each trial. The name of a kind becomes a type here. Flattening takes always as many places, so they are arrays, of a
// size that is known for a kind by its name.
fn list_line(rt: &HostRuntime, line: &str) -> anyhow::Result<()> {
    let mut words = line.split_whitespace();
    let Some(kind) = words.next() else {
        return Ok(());
    };
    let numbers: Vec<i32> = words
        .map(|w| -> anyhow::Result<i32> { Ok(w.parse::<i32>()?) })
        .try_collect(rt.alloc())?;
    let (tried, values) = tried_of(numbers.as_slice())?;
    println!(rt; "{line}")?;
    match kind {
        "height" => {
            let origin = Height { z: 0 };
            list_patch(
                rt,
                tried,
                values,
                &mut [origin; WORKING],
                &mut [origin; MOST],
            )
        }
        "planar" => {
            let origin = Planar { x: 0, y: 0 };
            list_patch(
                rt,
                tried,
                values,
                &mut [origin; WORKING],
                &mut [origin; MOST],
            )
        }
        _ => {
            let origin = Sample {
                x: 0,
                y: 0,
                press: 0,
            };
            list_patch(
                rt,
                tried,
                values,
                &mut [origin; WORKING],
                &mut [origin; MOST],
            )
        }
    }
}

// Each trial reads a table of its own, and all of it before it answers: a table that is no text gives no answer, and a pipe is not read byte by byte.
fn main(rt: HostRuntime) -> anyhow::Result<()> {
    let mut text = String::new(rt.alloc());
    rt.stdin().read_to_string(&mut text)?;
    for line in text.as_str().lines() {
        list_line(&rt, line)?;
    }
    Ok(())
}
