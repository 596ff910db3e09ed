ghost use Rattle.std.specs.Prelude.{◌≡◌, ◌≤◌, Some, OnOk};
ghost use Rattle.points.specs.Refusals.{number_of, refuse, placed, refusal_text};

use std::error::Error;
use std::fmt;

// Why a call refuses.
#[derive(Clone, Copy, PartialEq, Eq, Debug)]
pub enum Refusal {
    // not a weight or a parameter
    OffScale = 1,
    // a buffer is too short
    Short = 2,
    // the degree is not 1 to 16, so the points are not 2 to 17
    Degree = 3,
    // the allowance would pass 65,535
    Worn = 4,
    // not a path file of the kind wanted
    Foreign = 5,
    // a field of a file is not whole
    Cut = 6,
    // bytes are left over after a file
    Tail = 7,
    // a press over 4,095
    Press = 8,
    // a piece at the last depth is not flat
    Bent = 9,
    // a patch has not (m + 1)·(n + 1) points
    Grid = 10,
    // no working has this letter
    Letter = 11,
    // a file, a name or a list of workings is too long
    Overlong = 12,
}

// The number that reports give, 1 to 12.
impl From<Refusal> for u8 {
    ghost from_gives = { λ refusal number. number ≡ number_of refusal };

    fn from(refusal: Refusal) -> u8 {
        // The number stands beside each variant, and `as` is how it is read.
        refusal as u8
    }
}

// A refusal, its storey (how many workings it has climbed through, at most 255) and its place.
#[derive(Clone, Copy, PartialEq, Eq, Debug)]
pub struct Fault {
    pub refusal: Refusal,
    pub storey: u8,
    pub place: usize,
}

impl Fault {
    // The fault of a call itself, on storey 0.
    pub fn new(refusal: Refusal, place: usize) -> Fault
        ensures { result ≡ refuse refusal place }
    {
        Fault {
            refusal,
            storey: 0,
            place,
        }
    }
}

// A buffer has to have so many places; else refusal 2.
pub fn test_places(needed: usize, places: usize) -> Result<(), Fault>
    ensures answer { result ≡ placed needed places }
    ensures fits { OnOk result (needed ≤ places) }
{
    if places < needed {
        return Err(Fault::new(Refusal::Short, needed));
    }
    Ok(())
}

// The number of the refusal and the place; the storey is not told.
impl fmt::Display for Fault {
    ghost output = { λ fault. Some (refusal_text fault) };

    fn fmt<W: fmt::Write>(&self, f: &mut fmt::Formatter<W>) -> fmt::Result {
        let number = u8::from(self.refusal);
        let place = self.place;
        write!(f, "refused {number} at {place}")
    }
}

impl Error for Fault {}
