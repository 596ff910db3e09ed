// Flattens each polygon of a table on standard input, and prints the vertices with their parameters times 4,096.
// A line is a kind, a tolerance, and the axis values of the points, point after point.
#![tactic(auto)]

mod listing;

use anyhow::anyhow;
use listing::{MOST, WORKING, list_chords};
use points::height::Height;
use points::planar::Planar;
use points::sample::Sample;
use std::io::Read;

// A line has numbers of its own form in each trial. The name of a kind becomes a type here. Flattening takes always as many places, so they are arrays, of a
// size that is known for a kind by its name.
fn list_line(rt: &HostRuntime, line: &str) -> anyhow::Result<()> {
    let mut words = line.split_whitespace();
    let Some(kind) = words.next() else {
        return Ok(());
    };
    let numbers: Vec<i32> = words
        .map(|w| -> anyhow::Result<i32> { Ok(w.parse::<i32>()?) })
        .try_collect(rt.alloc())?;
    let [tolerance, values @ ..] = numbers.as_slice() else {
        return Err(anyhow!("a line of too few words"));
    };
    let q = u16::try_from(*tolerance)?;
    println!(rt; "{line}")?;
    match kind {
        "height" => {
            let origin = Height { z: 0 };
            list_chords(rt, values, q, &mut [origin; WORKING], &mut [origin; MOST])
        }
        "planar" => {
            let origin = Planar { x: 0, y: 0 };
            list_chords(rt, values, q, &mut [origin; WORKING], &mut [origin; MOST])
        }
        _ => {
            let origin = Sample {
                x: 0,
                y: 0,
                press: 0,
            };
            list_chords(rt, values, q, &mut [origin; WORKING], &mut [origin; MOST])
        }
    }
}

// Each trial reads a table of its own, and all of it before it answers: a table that is no text gives no answer, and a pipe is not read byte by byte.
fn main(rt: HostRuntime) -> anyhow::Result<()> {
    let mut text = String::new(rt.alloc());
    rt.stdin().read_to_string(&mut text)?;
    for line in text.as_str().lines() {
        list_line(&rt, line)?;
    }
    Ok(())
}
