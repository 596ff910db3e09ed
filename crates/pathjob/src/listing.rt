use jobs::job::Job;
use pathfiles::opened::Opened;
use points::planar::Planar;
use std::{fmt, io};

// A name as it is printed: bytes outside printable ASCII are escaped, so that no control code reaches a terminal.
#[derive(Clone, Copy)]
struct Printable<'a>(&'a [u8]);

impl fmt::Display for Printable<'_> {
    fn fmt<W: fmt::Write>(&self, f: &mut fmt::Formatter<W>) -> fmt::Result {
        for b in self.0 {
            match *b {
                b'\\' => f.write_str("\\\\")?,
                b' '..=b'~' => f.write_char(char::from(*b))?,
                b => write!(f, "\\x{b:02x}")?,
            }
        }
        Ok(())
    }
}

// A job of a file: the name, the numbers of its strand, each point, and how many of all workings were done.
pub fn list_job(
    rt: &impl Print,
    path: &Opened<Planar>,
    job: &Job,
    buffer: &[Planar],
) -> io::Result<()> {
    println!(rt; "path {}", Printable(path.name()))?;
    let degree = job.strand.degree();
    println!(rt; "degree {degree} allowance {}", job.strand.allowance())?;
    for (i, p) in buffer.iter().enumerate().take(degree.saturating_add(1)) {
        println!(rt; "{i} {} {}", p.x, p.y)?;
    }
    println!(rt; "done {} of {}", job.done, path.working_count())?;
    if let Some(f) = job.fault {
        println!(rt; "refused {}", u8::from(f.refusal))?;
    }
    Ok(())
}
