// Works each polygon of a table on standard input by every construction in place, and prints what they give.
// A line is a kind, k and a of a parameter, a tolerance, and the axis values of the points, point after point.
#![tactic(auto)]

mod listing;

use anyhow::anyhow;
use listing::list_polygon;
use points::height::Height;
use points::parameter::Parameter;
use points::planar::Planar;
use points::sample::Sample;
use std::io::Read;

// A line has numbers of its own form in each trial. The name of a kind becomes a type here.
fn list_line(rt: &HostRuntime, line: &str) -> anyhow::Result<()> {
    let mut words = line.split_whitespace();
    let Some(kind) = words.next() else {
        return Ok(());
    };
    let numbers: Vec<i32> = words
        .map(|w| -> anyhow::Result<i32> { Ok(w.parse::<i32>()?) })
        .try_collect(rt.alloc())?;
    let [k, a, tolerance, values @ ..] = numbers.as_slice() else {
        return Err(anyhow!("a line of too few words"));
    };
    let t = Parameter {
        a: u16::try_from(*a)?,
        k: u8::try_from(*k)?,
    };
    let q = u16::try_from(*tolerance)?;
    println!(rt; "{line}")?;
    match kind {
        "height" => list_polygon::<Height>(rt, values, t, q),
        "planar" => list_polygon::<Planar>(rt, values, t, q),
        _ => list_polygon::<Sample>(rt, values, t, q),
    }
}

// Each trial reads a table of its own, and all of it before it answers: a table that is no text gives no answer, and a pipe is not read byte by byte.
fn main(rt: HostRuntime) -> anyhow::Result<()> {
    let mut text = String::new(rt.alloc());
    rt.stdin().read_to_string(&mut text)?;
    for line in text.as_str().lines() {
        list_line(&rt, line)?;
    }
    Ok(())
}
