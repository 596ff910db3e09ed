ghost use Rattle.std.specs.Prelude.{◌≡◌, ◌-◌, MatchResult};
ghost use Rattle.points.specs.Refusals.{refuse};
ghost use Rattle.points.specs.Weights.{IsWeight};
ghost use Rattle.points.specs.declared.fault.Refusal.TheVariants.{OffScale};

use crate::fault::{Fault, Refusal};

// num/den, with den from 1 to 32,768 and num from 0 to den.
#[derive(Clone, Copy)]
pub struct Weight {
    pub num: u16,
    pub den: u16,
    ghost weighs: { IsWeight num den },
}

impl Weight {
    // The weight num/den, or refusal 1.
    pub fn new(num: u16, den: u16) -> Result<Weight, Fault>
        ensures { MatchResult result (λ w. (w.num ≡ num) × (w.den ≡ den)) (λ f. (f ≡ refuse OffScale 0) × (IsWeight num den → ⊥)) }
    {
        if !(1..=32768).contains(&den) || num > den {
            return Err(Fault::new(Refusal::OffScale, 0));
        }
        Ok(Weight { num, den })
    }

    // What is missing to 1.
    pub fn complement(self) -> Weight
        ensures { (result.num ≡ self.den - self.num) × (result.den ≡ self.den) }
    {
        Weight {
            num: self.den - self.num,
            den: self.den,
        }
    }
}
