ghost use Rattle.std.specs.Prelude.{◌≡◌};
ghost use Rattle.points.specs.Points.{planar, planar_eq, Same};
ghost use Rattle.std.proofs.Common.{rules};
ghost use Rattle.std.specs.Cmp.Rules.{comparing};

use crate::kind::{Kind, same};
use crate::mixing::mix_axis;
use crate::weight::Weight;

// A point of the plane, in 1/256 mm. Laid out as in C, so that programs in other languages can hand over buffers of them.
#[repr(C)]
#[derive(Clone, Copy, Debug)]
pub struct Planar {
    pub x: i32,
    pub y: i32,
}

impl Kind for Planar {
    ghost width = { 2 };

    ghost coord = { planar };

    ghost some = { Prim.search rules };

    ghost lacks = { Prim.search rules };

    fn axes() -> usize {
        2
    }

    fn axis(&self, a: usize) -> i32 {
        match a {
            0 => self.x,
            1 => self.y,
            _ => 0,
        }
    }

    fn mix(p: Planar, q: Planar, w: Weight) -> Planar {
        Planar {
            x: mix_axis(p.x, q.x, w),
            y: mix_axis(p.y, q.y, w),
        }
    }
}

// Not derived: == promises as a clause that it is sameness on every axis, and a derive has no clauses of its own.
impl PartialEq for Planar {
    ghost eq = { planar_eq };

    ghost laws = { Prim.search (comparing, rules) };

    fn eq(&self, other: &Planar) -> bool
        ensures eq { result ≡ planar_eq self.now other.now }
        ensures same { Same (planar self.now) (planar other.now) result }
    {
        same(self, other)
    }
}
