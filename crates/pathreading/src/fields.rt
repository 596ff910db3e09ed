ghost use Rattle.std.specs.Prelude.{◌≡◌};
ghost use Rattle.pathformat.specs.Reading.{fault, one, two, four};
ghost use Rattle.pathreading.specs.Outcomes.{Reads};

use points::fault::{Fault, Refusal};

// What is left to read of a file of `total` bytes.
#[derive(Clone, Copy)]
pub struct Unread<'a> {
    pub total: usize,
    pub rest: &'a [u8],
}

// Each size of number has its own call, since each names its bytes and the rest by a slice pattern, as all reading here does.
impl<'a> Unread<'a> {
    // The fault of the field that starts here.
    pub fn fault(self, refusal: Refusal) -> Fault
        ensures { result ≡ fault refusal self.entry.total self.entry.rest.now }
    {
        Fault::new(refusal, self.total.saturating_sub(self.rest.len()))
    }

    // A number of one byte.
    pub fn one_byte(self) -> Result<(u8, Unread<'a>), Fault>
        ensures { Reads one self.entry result }
    {
        match self.rest {
            [b, rest @ ..] => Ok((*b, Unread { rest, ..self })),
            _ => Err(self.fault(Refusal::Cut)),
        }
    }

    // A number of two bytes.
    pub fn two_bytes(self) -> Result<(u16, Unread<'a>), Fault>
        ensures { Reads two self.entry result }
    {
        match self.rest {
            [hi, lo, rest @ ..] => Ok((u16::from_be_bytes([*hi, *lo]), Unread { rest, ..self })),
            _ => Err(self.fault(Refusal::Cut)),
        }
    }

    // A signed number of four bytes.
    pub fn four_bytes(self) -> Result<(i32, Unread<'a>), Fault>
        ensures { Reads four self.entry result }
    {
        match self.rest {
            [a, b, c, d, rest @ ..] => {
                let number = i32::from_be_bytes([*a, *b, *c, *d]);
                Ok((number, Unread { rest, ..self }))
            }
            _ => Err(self.fault(Refusal::Cut)),
        }
    }
}
