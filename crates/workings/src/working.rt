ghost use Rattle.std.specs.Prelude.{◌≡◌, ◌+◌, ◌≤◌, if◌then◌else◌, Ok, Err};
ghost use Rattle.points.specs.Refusals.{refuse};
ghost use Rattle.points.specs.declared.fault.Refusal.TheVariants.{OffScale};
ghost use Rattle.workings.specs.Workings.{off_scale_in, charge_of, next_degree, tested, after};

use crate::survey::{Survey, add_charge};
use points::fault::Fault;
use points::parameter::Parameter;
use polygons::size::test_range;

// What can be done to a control polygon: its left part at a parameter, its right part, one degree more, or the points in the other order.
// A file or a caller names it and it is kept, so it is data, and a match picks the call.
#[derive(Clone, Copy, PartialEq, Eq, Debug)]
pub enum Working {
    Left(Parameter),
    Right(Parameter),
    Raise,
    Turn,
}

impl Working {
    // Its parameter is one; else refusal 1.
    pub fn test_parameter(self) -> Result<(), Fault>
        ensures { result ≡ (if off_scale_in self then Err (refuse OffScale 0) else Ok tt) }
    {
        match self {
            Working::Left(t) | Working::Right(t) => t.weight().map(|_| ()),
            Working::Raise | Working::Turn => Ok(()),
        }
    }

    // What it adds to the allowance of a polygon of this degree: the degree for a part, 1 for a raise, 0 for a turn.
    pub fn charge(self, degree: usize) -> usize
        ensures { result ≡ charge_of self degree }
    {
        match self {
            Working::Left(_) | Working::Right(_) => degree,
            Working::Raise => 1,
            Working::Turn => 0,
        }
    }

    fn degree_after(self, degree: usize) -> usize
        requires { degree ≤ 16 }
        ensures { result ≡ next_degree self degree }
    {
        match self {
            Working::Raise => degree + 1,
            _ => degree,
        }
    }

    // The degree after it, or the refusal of its parameter (1) or of the degree (3).
    pub fn test(self, degree: usize) -> Result<usize, Fault>
        ensures { result ≡ tested self degree }
    {
        self.test_parameter()?;
        test_range(degree, 1, 16)?;
        let after = self.degree_after(degree);
        test_range(after, 1, 16)?;
        Ok(after)
    }

    // What is told above it, from what is told below; it refuses 1, 3, then 4.
    pub fn after(self, below: Survey) -> Result<Survey, Fault>
        ensures { result ≡ after self below }
    {
        let degree = self.test(below.degree)?;
        let charge = self.charge(below.degree);
        let allowance = add_charge(below.allowance, charge)?;
        Ok(Survey {
            degree,
            allowance,
            reach: below.reach.max(degree + 1),
        })
    }
}
