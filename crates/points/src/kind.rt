ghost use Rattle.std.specs.Prelude.{◌≡◌, ℕ, ◌<◌, ◌≤◌, ℤ, pos};
ghost use Rattle.points.specs.Points.{mix_point, Same};

use crate::weight::Weight;

// A kind of point: a fixed number of axes, at least one, each with a 32-bit value.
pub trait Kind: Copy {
    // how many axes there are
    ghost width: { ℕ };

    // the value on each axis, 0 on one that is lacking
    ghost coord: { Self → ℕ → ℤ };

    // The number of axes.
    fn axes() -> usize
        ensures { result ≡ width };

    // The value on an axis, counted from 0.
    fn axis(&self, a: usize) -> i32
        ensures { result ≡ coord self.now a };

    // The points p and q mixed by a weight.
    fn mix(p: Self, q: Self, w: Weight) -> Self
        ensures { coord result ≡ mix_point w.num w.den (coord p) (coord q) };

    ghost some: { 1 ≤ width };

    ghost lacks: { (x : Self) (a : ℕ) → width ≤ a → coord x a ≡ pos 0 };
}

// Whether two points have the same axis values.
pub fn same<K: Kind>(p: &K, q: &K) -> bool
    ensures { Same (K.coord p.now) (K.coord q.now) result }
{
    (0..K::axes()).all(|a| p.axis(a) == q.axis(a))
}
