ghost use Rattle.std.specs.Prelude.{◌≡◌};
ghost use Rattle.points.specs.Points.{height, height_eq, Same};
ghost use Rattle.std.proofs.Common.{rules};
ghost use Rattle.std.specs.Cmp.Rules.{comparing};

use crate::kind::{Kind, same};
use crate::mixing::mix_axis;
use crate::weight::Weight;

// A point of one axis, in 1/256 mm.
#[derive(Clone, Copy, Debug)]
pub struct Height {
    pub z: i32,
}

impl Kind for Height {
    ghost width = { 1 };

    ghost coord = { height };

    ghost some = { Prim.search rules };

    ghost lacks = { Prim.search rules };

    fn axes() -> usize {
        1
    }

    fn axis(&self, a: usize) -> i32 {
        if a == 0 { self.z } else { 0 }
    }

    fn mix(p: Height, q: Height, w: Weight) -> Height {
        Height {
            z: mix_axis(p.z, q.z, w),
        }
    }
}

// Not derived: == promises as a clause that it is sameness on every axis, and a derive has no clauses of its own.
impl PartialEq for Height {
    ghost eq = { height_eq };

    ghost laws = { Prim.search (comparing, rules) };

    fn eq(&self, other: &Height) -> bool
        ensures eq { result ≡ height_eq self.now other.now }
        ensures same { Same (height self.now) (height other.now) result }
    {
        same(self, other)
    }
}
