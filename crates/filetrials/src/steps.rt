use crate::words::{bytes, push_workings};
use anyhow::{Context, anyhow};
use pathwriting::point::EncodePoint;
use pathwriting::states::NewFile;
use points::fault::Fault;
use std::fmt;
use tables::listing::Storeyed;
use tables::made::{Made, first, points};
use workings::working::Working;

// The most points of a line, one more than a file has; values of more are left out.
const POINTS: usize = 18;

// Bytes as they are printed, two hexadecimal digits each. The library's `hex` makes a text of them first, which takes memory.
#[derive(Clone, Copy)]
struct Digits<'a>(&'a [u8]);

impl fmt::Display for Digits<'_> {
    fn fmt<W: fmt::Write>(&self, f: &mut fmt::Formatter<W>) -> fmt::Result {
        for b in self.0 {
            write!(f, "{b:02x}")?;
        }
        Ok(())
    }
}

// The buffer after a step.
fn list_buffer(rt: &HostRuntime, label: &str, buffer: &[u8]) -> anyhow::Result<()> {
    println!(rt; "{label} {}", Digits(buffer))?;
    Ok(())
}

// A refused step, and the buffer after it.
fn list_refused(rt: &HostRuntime, step: &str, f: Fault, buffer: &[u8]) -> anyhow::Result<()> {
    println!(rt; "{step} {}", Storeyed(f))?;
    list_buffer(rt, "buffer", buffer)
}

// Writes a file in its three steps and lists the buffer after each; a refused step ends it. It takes what the steps take, one by one.
fn list_writing<K: EncodePoint>(
    rt: &HostRuntime,
    buffer: &mut [u8],
    name: &[u8],
    allowance: u16,
    points: &[K],
    workings: &[Working],
) -> anyhow::Result<()> {
    let begun = match NewFile::<K>::new().begin(buffer, name, allowance) {
        Ok(begun) => begun,
        Err((_, f)) => return list_refused(rt, "begin", f, buffer),
    };
    list_buffer(rt, "begun", buffer)?;
    let pointed = match begun.points(buffer, points) {
        Ok(pointed) => pointed,
        Err((_, f)) => return list_refused(rt, "points", f, buffer),
    };
    list_buffer(rt, "pointed", buffer)?;
    match pointed.close(buffer, workings) {
        Ok(n) => {
            println!(rt; "closed {n}")?;
            list_buffer(rt, "buffer", buffer)
        }
        Err((_, f)) => list_refused(rt, "close", f, buffer),
    }
}

pub fn list_steps<K: EncodePoint + Made>(rt: &HostRuntime, rest: &str) -> anyhow::Result<()> {
    let (before, after) = rest.split_once('|').context("no workings")?;
    let mut words = before.split_whitespace();
    let (Some(places), Some(allowance), Some(name)) = (words.next(), words.next(), words.next())
    else {
        return Err(anyhow!("too few words"));
    };
    let values: Vec<i32> = words
        .map(|w| -> anyhow::Result<i32> { Ok(w.parse::<i32>()?) })
        .try_collect(rt.alloc())?;
    let mut workings = Vec::new(rt.alloc());
    for w in after.split_whitespace() {
        push_workings(&mut workings, w)?;
    }
    let name = bytes(rt.alloc(), name)?;
    let points: Vec<K> = points(rt.alloc(), first::<K>(values.as_slice(), POINTS))?;
    let mut file = vec![in rt.alloc(); 0xee_u8; places.parse::<usize>()?]?;
    list_writing(
        rt,
        file.as_mut_slice(),
        name.as_slice(),
        allowance.parse::<u16>()?,
        points.as_slice(),
        workings.as_slice(),
    )
}
