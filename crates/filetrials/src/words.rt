use anyhow::{Context, anyhow};
use points::parameter::Parameter;
use std::alloc::Global;
use workings::working::Working;

// A byte from one or two hexadecimal digits.
fn byte(pair: &[u8]) -> anyhow::Result<u8> {
    let digits = std::str::from_utf8(pair).map_err(|_| anyhow!("no digits"))?;
    Ok(u8::from_str_radix(digits, 16)?)
}

// Bytes from hexadecimal digits, none from '-'. A table may have one digit for the last byte of a word, or a sign before a digit, which the library's `hex` refuses.
pub fn bytes(heap: Global, word: &str) -> anyhow::Result<Vec<u8>> {
    if word == "-" {
        return Ok(Vec::new(heap));
    }
    word.as_bytes().chunks(2).map(byte).try_collect(heap)
}

fn parameter(k: Option<&str>, a: Option<&str>) -> anyhow::Result<Parameter> {
    let k = k.context("a working without its parameter")?;
    let a = a.context("a working without its parameter")?;
    Ok(Parameter {
        a: a.parse()?,
        k: k.parse()?,
    })
}

// A working by its letter, and after L and R k and a. A word becomes a working here.
fn working(word: &str) -> anyhow::Result<Working> {
    let mut parts = word.split(':');
    match parts.next() {
        Some("L") => Ok(Working::Left(parameter(parts.next(), parts.next())?)),
        Some("R") => Ok(Working::Right(parameter(parts.next(), parts.next())?)),
        Some("U") => Ok(Working::Raise),
        Some("T") => Ok(Working::Turn),
        _ => Err(anyhow!("no such working")),
    }
}

// Puts a working onto the list, as often as the word says.
pub fn push_workings(list: &mut Vec<Working>, word: &str) -> anyhow::Result<()> {
    let (one, times) = word.split_once('*').unwrap_or((word, "1"));
    let w = working(one)?;
    // One by one: room for all of a word at once is up to twice the room in the end.
    for _ in 0..times.parse::<u16>()? {
        list.push(w)?;
    }
    Ok(())
}
