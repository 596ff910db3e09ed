ghost use Rattle.std.specs.Prelude.{◌≡◌, ◌+◌, ◌-◌, ◌*◌, ◌<◌, ◌≤◌, map, length, pos, ◌*ℤ◌};
ghost use borrow.Author.Differences.{up, down};
ghost use Rattle.polygons.specs.Flatness.{off_at, FirstOff, Tested};

use crate::size::test_size;
use points::fault::Fault;
use points::kind::Kind;

// The first point of a polygon that is off, and the first axis on it.
#[derive(Clone, Copy, PartialEq, Eq, Debug)]
pub struct Off {
    pub point: usize,
    pub axis: usize,
}

fn scaled(n: usize, x: i32) -> i64
    requires { n ≤ 16 }
    ensures { (result ≡ pos n *ℤ x) × (up result ≤ 34359738368) × (down result ≤ 34359738368) }
{
    // No `From` leads from usize to i64 or u64.
    n as i64 * i64::from(x)
}

// Whether point i is off by more than the tolerance on an axis.
fn is_off<K: Kind>(p: &[K], q: u16, i: usize, a: usize) -> bool
    requires { (i < length p.now) × (length p.now ≤ 17) }
    ensures { result ≡ off_at (map K.coord p.now) (λ _. q) i a }
{
    let n = p.len() - 1;
    let chord = scaled(n - i, p[0].axis(a)) + scaled(i, p[n].axis(a));
    let gap = (scaled(n, p[i].axis(a)) - chord).unsigned_abs();
    n as u64 * u64::from(q) < gap
}

fn first_off<K: Kind>(p: &[K], q: u16) -> Option<Off>
    requires { (2 ≤ length p.now) × (length p.now ≤ 17) }
    ensures { FirstOff (map K.coord p.now) (λ _. q) result }
{
    let mut answer = None;
    // Both ends lie on the chord. A point tells the value on one axis at a time, so points and axes are counted; the label leaves both loops.
    'points: for i in 1..p.len() - 1 {
        for a in 0..K::axes() {
            if is_off(p, q, i, a) {
                answer = Some(Off { point: i, axis: a });
                break 'points;
            }
        }
    }
    answer
}

// Whether the polygon is flat to a tolerance, and if not, where it is off first: flat if no n·P(i) differs from (n − i)·P(0) + i·P(n) by more than n times the tolerance, on any axis.
pub fn flat_test<K: Kind>(polygon: &[K], tolerance: u16) -> Result<Option<Off>, Fault>
    ensures { Tested (map K.coord polygon.now) (length polygon.now) (λ _. tolerance) result }
{
    test_size(polygon.len())?;
    Ok(first_off(polygon, tolerance))
}
