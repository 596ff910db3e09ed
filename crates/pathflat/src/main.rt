// Reads a planar path file from standard input, flattens its points to a tolerance given as the argument, in 1/256 mm, and prints the vertices:
// the parameter times 4,096, and x and y in mm as the stylus gets them.
#![tactic(auto)]

use flattening::chords::flatten;
use pathfiles::opened::Opened;
use pathfiles::opening::open;
use points::fault::Fault;
use points::planar::Planar;
use std::alloc::{AllocError, Global};
use std::io::Read;
use std::process::ExitCode;
use std::{env, io};
use strokes::{Stroke, strokes};

// The longest file, and one byte more, by which a longer input is told without being read to its end.
const LIMIT: u64 = 65536;

const ORIGIN: Planar = Planar { x: 0, y: 0 };

// The places that flattening works on for the points of a file, always as many, so they are an array.
const WORKING: usize = 221;

// The most vertices that a flattening can have.
const MOST: usize = 4097;

// The first argument, if it is a number of 16 bits.
fn tolerance(rt: &HostRuntime) -> io::Result<Option<u16>> {
    Ok(
        env::args(rt)?
            .nth(1)
            .and_then(|word| word.as_str().parse().ok()),
    )
}

// Why nothing is drawn: the file or its points are refused, or there is no memory.
#[derive(Drop)]
enum Trouble {
    Refusal(Fault),
    Memory(AllocError),
}

impl From<Fault> for Trouble {
    fn from(f: Fault) -> Trouble {
        Trouble::Refusal(f)
    }
}

impl From<AllocError> for Trouble {
    fn from(e: AllocError) -> Trouble {
        Trouble::Memory(e)
    }
}

// The strokes to the vertices of a path, and the vertices' parameters times 4,096.
#[derive(Drop)]
struct Drawn {
    strokes: Vec<Stroke>,
    parameters: Vec<u16>,
}

impl Drawn {
    // Flattens the points of a file. Room for the vertices is made once the file opens, so that one that does not open takes none, and for the strokes once it is
    // flat. Flattening and strokes take a buffer each, so there are three vectors.
    fn of(alloc: Global, file: &[u8], tolerance: u16) -> Result<Drawn, Trouble> {
        let path: Opened<Planar> = open(file)?;
        let mut points = vec![in alloc; ORIGIN; MOST]?;
        let mut parameters = vec![in alloc; 0; MOST]?;
        let count = flatten(
            &path,
            tolerance,
            &mut [ORIGIN; WORKING],
            points.as_mut_slice(),
            parameters.as_mut_slice(),
        )?;
        points.truncate(count);
        parameters.truncate(count);
        let mut lines = vec![in alloc; Stroke::Start { x: 0.0, y: 0.0 }; MOST]?;
        let count = strokes(points.as_slice(), lines.as_mut_slice())?;
        lines.truncate(count);
        Ok(Drawn {
            strokes: lines,
            parameters,
        })
    }
}

fn list_strokes(rt: &impl Print, drawn: &Drawn) -> io::Result<()> {
    for (t, s) in drawn.parameters.iter().zip(drawn.strokes.iter()) {
        match s {
            Stroke::Start { x, y } => println!(rt; "{t} start {x} {y}")?,
            Stroke::Line { x, y } => println!(rt; "{t} line {x} {y}")?,
        }
    }
    Ok(())
}

fn main(rt: HostRuntime) -> anyhow::Result<ExitCode> {
    let Some(tolerance) = tolerance(&rt)? else {
        return Ok(ExitCode::FAILURE);
    };
    let mut file = Vec::new(rt.alloc());
    rt.stdin().take(LIMIT).read_to_end(&mut file)?;
    match Drawn::of(rt.alloc(), file.as_slice(), tolerance) {
        Ok(drawn) => {
            list_strokes(&rt, &drawn)?;
            Ok(ExitCode::SUCCESS)
        }
        Err(Trouble::Refusal(f)) => {
            println!(rt; "{f}")?;
            Ok(ExitCode::FAILURE)
        }
        Err(Trouble::Memory(e)) => Err(e.into()),
    }
}
