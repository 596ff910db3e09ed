// The words of a description: numbers, parameters and names.
ghost use Rattle.std.specs.Prelude.{◌≤◌, length, IfSome};

use crate::trouble::Trouble;
use points::parameter::Parameter;
use std::alloc::Global;
use std::str::FromStr;

// A number, or what it should have been.
fn number<N: FromStr>(word: &str, or: &'static str) -> Result<N, Trouble>
where
    N::Err: Drop,
{
    word.parse::<N>().map_err(|_| Trouble::Text(or))
}

// A whole number of 32 bits with its sign.
pub fn axis_value(word: &str) -> Result<i32, Trouble> {
    number(word, "not a whole number of 32 bits")
}

// A whole number from 0 to 65,535.
pub fn small_number(word: &str) -> Result<u16, Trouble> {
    number(word, "not a whole number from 0 to 65535")
}

// The power of two that a number is.
fn power_of_two(word: &str) -> Option<u8> {
    let n = word.parse::<u32>().ok().filter(|n| n.is_power_of_two())?;
    u8::try_from(n.trailing_zeros()).ok()
}

// A parameter, as 3/8: the number below is a power of two, which tells k. Whether it is on the scale is tested when the file is written.
pub fn parameter(word: &str) -> Result<Parameter, Trouble> {
    let (above, below) = word
        .split_once('/')
        .ok_or(Trouble::Text("not a fraction, as 3/8"))?;
    let a = small_number(above)?;
    let k = power_of_two(below).ok_or(Trouble::Text("not a power of two below the line"))?;
    Ok(Parameter { a, k })
}

// A byte that follows a backslash, and the bytes after it.
fn escaped(rest: &[u8]) -> Option<(u8, &[u8])>
    ensures { IfSome result (λ v. length v.1.now ≤ length rest.now) }
{
    match rest {
        [b'\\', more @ ..] => Some((b'\\', more)),
        [b'x', high, low, more @ ..] => {
            let h = char::from(*high).to_digit(16)?;
            let l = char::from(*low).to_digit(16)?;
            Some((u8::try_from(h * 16 + l).ok()?, more))
        }
        _ => None,
    }
}

// The bytes of a name: \\ is a backslash and \xHH any byte, as they are printed.
pub fn name(heap: Global, text: &[u8]) -> Result<Vec<u8>, Trouble> {
    let mut bytes = Vec::new(heap);
    let mut rest = text;
    while let [first, more @ ..] = rest {
        let (byte, after) = match first {
            b'\\' => escaped(more).ok_or(Trouble::Text("not \\\\ or \\xHH"))?,
            b => (*b, more),
        };
        bytes.push(byte)?;
        rest = after;
    }
    Ok(bytes)
}
