ghost use Rattle.std.specs.Prelude.{◌≡◌};
ghost use Rattle.workings.specs.Charges.{charge_added};

use points::fault::{Fault, Refusal, test_places};
use polygons::size::test_size;

// What is told of a polygon: its degree, its allowance (by how much it may be off, in half units), and its reach, the places that a buffer for it must have.
#[derive(Clone, Copy, PartialEq, Eq, Debug)]
pub struct Survey {
    pub degree: usize,
    pub allowance: u16,
    pub reach: usize,
}

// The allowance after a charge; one past 65,535 is refused with 4, and the place is the charge.
pub fn add_charge(allowance: u16, charge: usize) -> Result<u16, Fault>
    ensures { result ≡ charge_added allowance charge }
{
    u16::try_from(usize::from(allowance).saturating_add(charge)).map_err(|_| Fault::new(
        Refusal::Worn,
        charge,
    ))
}

impl Survey {
    ghost use Rattle.workings.specs.Surveys.{given, fitting};

    // What is told of points that are given with an allowance, or refusal 3; the reach is their number.
    pub fn of_points(points: usize, allowance: u16) -> Result<Survey, Fault>
        ensures { result ≡ given points allowance }
    {
        test_size(points)?;
        Ok(Survey {
            degree: points - 1,
            allowance,
            reach: points,
        })
    }

    // The survey, if a buffer of so many places has the reach; else refusal 2.
    pub fn fitting(self, places: usize) -> Result<Survey, Fault>
        ensures { result ≡ fitting self places }
    {
        test_places(self.reach, places)?;
        Ok(self)
    }
}
