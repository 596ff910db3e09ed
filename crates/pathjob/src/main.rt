// Reads a planar path file from standard input, applies its workings, and prints what came of it.
#![tactic(auto)]

mod listing;

use jobs::file::run_file;
use jobs::job::Job;
use listing::list_job;
use pathfiles::opened::Opened;
use pathfiles::opening::open;
use points::fault::Fault;
use points::planar::Planar;
use std::io::Read;
use std::process::ExitCode;

// The longest file, and one byte more, by which a longer input is told without being read to its end.
const LIMIT: u64 = 65536;

const ORIGIN: Planar = Planar { x: 0, y: 0 };

// The most points of a polygon. So few stay an array, of which the polygon is the first part.
const MOST: usize = 17;

// Opens a file and works it on the buffer.
fn work<'a>(file: &'a [u8], buffer: &mut [Planar]) -> Result<(Opened<'a, Planar>, Job), Fault> {
    let path = open(file)?;
    let job = run_file(&path, buffer)?;
    Ok((path, job))
}

fn main(rt: HostRuntime) -> anyhow::Result<ExitCode> {
    let mut file = Vec::new(rt.alloc());
    rt.stdin().take(LIMIT).read_to_end(&mut file)?;
    let mut buffer = [ORIGIN; MOST];
    match work(file.as_slice(), &mut buffer) {
        Ok((path, job)) => {
            list_job(&rt, &path, &job, &buffer)?;
            match job.fault {
                None => Ok(ExitCode::SUCCESS),
                Some(_) => Ok(ExitCode::FAILURE),
            }
        }
        Err(f) => {
            println!(rt; "{f}")?;
            Ok(ExitCode::FAILURE)
        }
    }
}
