ghost use Rattle.std.specs.Prelude.{◌≡◌, ◌*◌, ◌/◌, length, take, IfOk};

use points::height::Height;
use points::kind::Kind;
use points::planar::Planar;
use points::sample::Sample;
use std::alloc::{AllocError, Global};

// A kind whose points are made from axis values, for tables of numbers. Each kind names its own fields.
pub trait Made: Kind {
    // The point with these values on its axes, and 0 on one that they lack.
    fn made(axes: &[i32]) -> Self;
}

fn value(axes: &[i32], a: usize) -> i32 {
    axes.get(a).copied().unwrap_or(0)
}

impl Made for Height {
    fn made(axes: &[i32]) -> Height {
        Height { z: value(axes, 0) }
    }
}

impl Made for Planar {
    fn made(axes: &[i32]) -> Planar {
        Planar {
            x: value(axes, 0),
            y: value(axes, 1),
        }
    }
}

// A press over 4,095 is stored as it is; one that the record cannot hold becomes 0.
impl Made for Sample {
    fn made(axes: &[i32]) -> Sample {
        Sample {
            x: value(axes, 0),
            y: value(axes, 1),
            press: u16::try_from(value(axes, 2)).unwrap_or(0),
        }
    }
}

// The values of the first points, so many at most; those of more points are left out.
pub fn first<K: Kind>(values: &[i32], most: usize) -> &[i32]
    ensures { result.now ≡ take (most * K.width) values.now }
{
    values
        .get(..most.saturating_mul(K::axes()))
        .unwrap_or(values)
}

// The points that the values are, axis after axis; values that are too few for a point more are left out.
pub fn points<K: Made>(heap: Global, values: &[i32]) -> Result<Vec<K>, AllocError>
    ensures { IfOk result (λ made. length made.items ≡ length values.now / K.width) }
{
    let mut points = vec![in heap; K::made(&[]); values.len() / K::axes()]?;
    fill(points.as_mut_slice(), values);
    Ok(points)
}

// Fills the buffer from the front with the points that the values are, axis after axis; says how many.
pub fn fill<K: Made>(buffer: &mut [K], values: &[i32]) -> usize {
    for (place, axes) in buffer.iter_mut().zip(values.chunks_exact(K::axes())) {
        *place = K::made(axes);
    }
    buffer.len().min(values.len() / K::axes())
}
