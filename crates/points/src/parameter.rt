ghost use Rattle.std.specs.Prelude.{◌≡◌, ◌^◌, true, false, MatchResult};
ghost use Rattle.points.specs.Refusals.{refuse};
ghost use Rattle.points.specs.Parameters.{off_scale};
ghost use Rattle.points.specs.declared.fault.Refusal.TheVariants.{OffScale};

use crate::fault::{Fault, Refusal};
use crate::weight::Weight;

// a/2^k, a parameter if k is at most 15 and a at most 2^k. Any numbers may stand here: each call tests them.
#[derive(Clone, Copy, PartialEq, Eq, Debug)]
pub struct Parameter {
    pub a: u16,
    pub k: u8,
}

impl Parameter {
    // The parameter as a weight, or refusal 1.
    pub fn weight(self) -> Result<Weight, Fault>
        ensures { MatchResult result (λ w. (w.num ≡ self.a) × (w.den ≡ 2 ^ self.k) × (off_scale self ≡ false)) (λ f. (f ≡ refuse OffScale 0) × (off_scale self ≡ true)) }
    {
        if self.k > 15 {
            return Err(Fault::new(Refusal::OffScale, 0));
        }
        Weight::new(self.a, 1 << self.k)
    }
}
