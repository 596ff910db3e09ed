use crate::words::bytes;
use anyhow::{Context, anyhow};
use jobs::file::run_file;
use pathfiles::opened::Opened;
use pathfiles::opening::open;
use pathreading::filed::Filed;
use pathwriting::point::EncodePoint;
use pathwriting::whole::write_file;
use samepath::paths::same_path;
use sources::source::Source;
use tables::listing::{Listed, Storeyed};
use tables::made::Made;
use workings::working::Working;

// A place more than the most points of a file.
const PLACES: usize = 18;

// Writes an opened file again, onto a buffer with three places more, and tells whether it is the same bytes and the rest is kept.
fn list_written<K: EncodePoint + Made>(
    rt: &HostRuntime,
    path: &Opened<K>,
    file: &[u8],
) -> anyhow::Result<()> {
    let mut points = vec![in rt.alloc(); K::made(&[7, 7, 7]); PLACES]?;
    let count = path.points(points.as_mut_slice())?;
    points.truncate(count);
    let mut workings = vec![in rt.alloc(); Working::Turn; 256]?;
    let count = path.workings(workings.as_mut_slice())?;
    workings.truncate(count);
    let mut again = vec![in rt.alloc(); 0xee_u8; file.len().saturating_add(3)]?;
    match write_file(
        again.as_mut_slice(),
        path.name(),
        path.allowance(),
        points.as_slice(),
        workings.as_slice(),
    ) {
        Ok(n) => {
            let kept = again.iter().skip(n).all(|b| *b == 0xee);
            again.truncate(n);
            let same = again.as_slice() == file;
            println!(rt; "written {n} same {same} kept {kept}")?;
        }
        Err(f) => println!(rt; "written {}", Storeyed(f))?,
    }
    Ok(())
}

// What an opened file holds as a source.
fn list_source<K: EncodePoint + Made>(rt: &HostRuntime, path: &Opened<K>) -> anyhow::Result<()> {
    let mut buffer = vec![in rt.alloc(); K::made(&[7, 7, 7]); PLACES]?;
    let s = path.draw(buffer.as_mut_slice())?;
    buffer.truncate(s.reach);
    let name = path.name().len();
    let workings = path.working_count();
    println!(rt;
        "opened name {name} workings {workings} degree {} allowance {} reach {}",
        s.degree, s.allowance, s.reach
    )?;
    println!(rt; "points{}", Listed(buffer.as_slice()))?;
    Ok(())
}

// What the job of an opened file comes to.
fn list_job<K: EncodePoint + Made>(rt: &HostRuntime, path: &Opened<K>) -> anyhow::Result<()> {
    let mut buffer = vec![in rt.alloc(); K::made(&[7, 7, 7]); PLACES]?;
    let job = run_file(path, buffer.as_mut_slice())?;
    let degree = job.strand.degree();
    let allowance = job.strand.allowance();
    println!(rt;
        "job degree {degree} allowance {allowance} done {}",
        job.done
    )?;
    buffer.truncate(degree.saturating_add(1));
    println!(rt; "points{}", Listed(buffer.as_slice()))?;
    if let Some(f) = job.fault {
        println!(rt; "job {}", Storeyed(f))?;
    }
    Ok(())
}

// Opens a file and lists what it holds, whether it is written again as it was, and what its job comes to.
pub fn list_opened<K: EncodePoint + Made>(rt: &HostRuntime, rest: &str) -> anyhow::Result<()> {
    let (length, word) = rest.split_once(' ').context("no file")?;
    let mut file = bytes(rt.alloc(), word)?;
    let length = file.len().max(length.parse()?);
    file.resize(length, 0)?;
    let path: Opened<K> = match open(file.as_slice()) {
        Ok(path) => path,
        Err(f) => {
            println!(rt; "open {}", Storeyed(f))?;
            return Ok(());
        }
    };
    list_source(rt, &path)?;
    list_written(rt, &path, file.as_slice())?;
    list_job(rt, &path)
}

// Opens a file that is compared; one that does not open ends the program.
fn opened<'a, K: Filed + 'a>(file: &'a [u8]) -> anyhow::Result<Opened<'a, K>> {
    open(file).map_err(|_| anyhow!("refused"))
}

// Opens two files as one kind and tells whether they are the same path, asked either way round.
pub fn list_same<K: Filed>(rt: &HostRuntime, rest: &str) -> anyhow::Result<()> {
    let (first, second) = rest.split_once(' ').context("not two files")?;
    let first = bytes(rt.alloc(), first)?;
    let second = bytes(rt.alloc(), second)?;
    let a: Opened<K> = opened(first.as_slice())?;
    let b: Opened<K> = opened(second.as_slice())?;
    println!(rt; "same {} {}", same_path(&a, &b), same_path(&b, &a))?;
    Ok(())
}
