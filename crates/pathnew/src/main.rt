// Writes a path file to standard output from a plain text description on standard input.
#![tactic(auto)]

mod described;
mod description;
mod trouble;
mod words;

use described::Described;
use description::{Description, Line};
use points::height::Height;
use points::planar::Planar;
use points::sample::Sample;
use std::io::{Read, Write};
use std::process::ExitCode;
use trouble::Trouble;

// The longest description in bytes. One byte more is read, by which a longer one is told.
const LONGEST_TEXT: usize = 65_535;

// The longest file: a head of 5, a name of 66, 17 points of 10 and 256 workings of 4 bytes with their counts.
const LONGEST: usize = 1269;

// Tells a trouble on standard error, with the line where a text is wrong.
fn tell(rt: &HostRuntime, line: usize, trouble: Trouble) -> anyhow::Result<ExitCode> {
    match trouble {
        Trouble::Text(what) => eprintln!(rt; "line {line}: {what}")?,
        other => eprintln!(rt; "{other}")?,
    }
    Ok(ExitCode::FAILURE)
}

// Reads the lines of a text after so many, of which the last names the kind, and writes the file. What no line says is told at the last line.
fn write_described<K: Described>(
    rt: &HostRuntime,
    text: &str,
    read: usize,
) -> anyhow::Result<ExitCode> {
    let heap = rt.alloc();
    let mut description: Description<K> = Description::new(heap);
    // Each line is read when its turn comes, so that no list of them takes memory.
    for (i, line) in text.lines().enumerate().skip(read) {
        let Some(line) = Line::read(i.saturating_add(1), line) else {
            continue;
        };
        if let Err(t) = description.take(heap, &line) {
            return tell(rt, line.number, t);
        }
    }
    // An array, so that no memory can be lacking for a file that is described.
    let mut file = [0u8; LONGEST];
    match description.write(&mut file) {
        Ok(n) => {
            rt.stdout().write_all(file.get(..n).unwrap_or(&[]))?;
            Ok(ExitCode::SUCCESS)
        }
        Err(t) => tell(rt, text.lines().count(), t),
    }
}

fn main(rt: HostRuntime) -> anyhow::Result<ExitCode> {
    let mut bytes = Vec::new(rt.alloc());
    rt.stdin().take(65_536).read_to_end(&mut bytes)?;
    if bytes.len() > LONGEST_TEXT {
        return tell(&rt, 1, Trouble::Text("a description over 65535 bytes"));
    }
    let Ok(text) = std::str::from_utf8(bytes.as_slice()) else {
        return tell(&rt, 1, Trouble::Text("not text in UTF-8"));
    };
    let Some(first) = text
        .lines()
        .enumerate()
        .find_map(|(i, line)| Line::read(i.saturating_add(1), line))
    else {
        return tell(&rt, text.lines().count(), Trouble::Text("no kind"));
    };
    // The name of a kind becomes a type here.
    match (first.word, first.rest) {
        ("kind", "height") => write_described::<Height>(&rt, text, first.number),
        ("kind", "planar") => write_described::<Planar>(&rt, text, first.number),
        ("kind", "sample") => write_described::<Sample>(&rt, text, first.number),
        _ => tell(
            &rt,
            first.number,
            Trouble::Text("not 'kind' with height, planar or sample"),
        ),
    }
}
