ghost use Rattle.std.specs.Prelude.{◌≡◌, ◌<◌, ◌≤◌, min, MatchResult};
ghost use Rattle.points.specs.Refusals.{refuse};
ghost use Rattle.points.specs.Points.{sample, sample_eq, Same};
ghost use Rattle.points.specs.declared.fault.Refusal.TheVariants.{Press};
ghost use Rattle.std.proofs.Common.{rules};
ghost use Rattle.std.specs.Cmp.Rules.{comparing};

use crate::fault::{Fault, Refusal};
use crate::kind::{Kind, same};
use crate::mixing::mix_axis;
use crate::weight::Weight;

// A point of a stroke, x and y in 1/256 mm, with how hard the stylus presses there, 0 to 4,095 without a unit.
// The record is plain: a stored press over 4,095 counts, and is read, as 4,095.
#[derive(Clone, Copy, Debug)]
pub struct Sample {
    pub x: i32,
    pub y: i32,
    pub press: u16,
}

impl Sample {
    // The sample of these numbers; a press over 4,095 is refused with 8.
    pub fn new(x: i32, y: i32, press: u16) -> Result<Sample, Fault>
        ensures { MatchResult result (λ s. (s.x ≡ x) × (s.y ≡ y) × (s.press ≡ press) × (press ≤ 4095)) (λ f. (f ≡ refuse Press press) × (4095 < press)) }
    {
        if press > 4095 {
            return Err(Fault::new(Refusal::Press, usize::from(press)));
        }
        Ok(Sample { x, y, press })
    }

    // The press as it is read.
    pub fn pressed(&self) -> u16
        ensures { result ≡ min self.now.press 4095 }
    {
        self.press.min(4095)
    }
}

impl Kind for Sample {
    ghost width = { 3 };

    ghost coord = { sample };

    ghost some = { Prim.search rules };

    ghost lacks = { Prim.search rules };

    fn axes() -> usize {
        3
    }

    fn axis(&self, a: usize) -> i32 {
        match a {
            0 => self.x,
            1 => self.y,
            2 => i32::from(self.pressed()),
            _ => 0,
        }
    }

    fn mix(p: Sample, q: Sample, w: Weight) -> Sample {
        let press = mix_axis(i32::from(p.pressed()), i32::from(q.pressed()), w);
        Sample {
            x: mix_axis(p.x, q.x, w),
            y: mix_axis(p.y, q.y, w),
            // A press between two of at most 4,095 is one, so the cast keeps it; `try_from` would want an answer for a refusal that never comes.
            press: press as u16,
        }
    }
}

// Not derived: two stored presses over 4,095 are the same press.
impl PartialEq for Sample {
    ghost eq = { sample_eq };

    ghost laws = { Prim.search (comparing, rules) };

    fn eq(&self, other: &Sample) -> bool
        ensures eq { result ≡ sample_eq self.now other.now }
        ensures same { Same (sample self.now) (sample other.now) result }
    {
        same(self, other)
    }
}
