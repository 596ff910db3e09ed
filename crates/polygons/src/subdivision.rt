ghost use Rattle.std.specs.Prelude.{◌≡◌, ◌+◌, ◌-◌, ◌<◌, ◌≤◌, ◌++◌, map, length, take};
ghost use Rattle.exact.specs.Polygon as exact;
ghost use Rattle.points.specs.Points.{mix_point};
ghost use Rattle.polygons.specs.Buffers.{sized, scaled, splittable, Puts};
ghost use Rattle.polygons.specs.Constructions.{left_part_at, right_part_at, both_parts_at};

use crate::level::{mix_level, test_call};
use points::fault::{Fault, test_places};
use points::kind::Kind;
use points::parameter::Parameter;
use points::weight::Weight;

// The last points of all levels, the last level first: each pass leaves one more of them.
fn right_part<K: Kind>(p: &mut [K], w: Weight)
    ensures { map K.coord p.new ≡ exact.right (mix_point w.num w.den) (map K.coord p.old) }
{
    // n is how many points a pass mixes, and no place.
    for n in (1..p.len()).rev() {
        mix_level(p, n, w);
    }
}

// The right part at t: the last points of levels n down to 0.
pub fn right<K: Kind>(polygon: &mut [K], t: Parameter) -> Result<(), Fault>
    ensures answer { result ≡ scaled t (sized (length polygon.old)) }
    ensures right { Puts K.coord (right_part_at t (map K.coord polygon.old)) result polygon.old polygon.new }
{
    let w = test_call(t, polygon.len())?;
    right_part(polygon, w);
    Ok(())
}

// The left part at t: the first points of levels 0 to n.
// Mixing p and q by w/d is mixing q and p by (d − w)/d, so it is the right part from the other end.
pub fn left<K: Kind>(polygon: &mut [K], t: Parameter) -> Result<(), Fault>
    ensures answer { result ≡ scaled t (sized (length polygon.old)) }
    ensures left { Puts K.coord (left_part_at t (map K.coord polygon.old)) result polygon.old polygon.new }
{
    let w = test_call(t, polygon.len())?;
    polygon.reverse();
    right_part(polygon, w.complement());
    polygon.reverse();
    Ok(())
}

// Both parts out of one triangle of mixes: the polygon becomes its right part, and its first point on each level goes to the left part.
fn both_parts<K: Kind>(polygon: &mut [K], left: &mut [K], w: Weight)
    requires { (1 ≤ length polygon.old) × (length left.old ≡ length polygon.old) }
    ensures right { map K.coord polygon.new ≡ exact.right (mix_point w.num w.den) (map K.coord polygon.old) }
    ensures left { map K.coord left.new ≡ exact.left (mix_point w.num w.den) (map K.coord polygon.old) }
{
    let len = polygon.len();
    left[0] = polygon[0];
    // By number: a loop over the places of `left` that also puts the first of them makes flattening 12 % slower.
    for n in (1..len).rev() {
        mix_level(polygon, n, w);
        left[len - n] = polygon[0];
    }
}

// Both parts at t of the polygon of so many points that stands first on the buffer: the right part in its place, the left part after it.
pub fn split<K: Kind>(buffer: &mut [K], points: usize, t: Parameter) -> Result<(), Fault>
    ensures answer { result ≡ scaled t (splittable points (length buffer.old)) }
    ensures split { Puts K.coord (both_parts_at t (map K.coord (take points buffer.old))) result buffer.old buffer.new }
{
    let w = test_call(t, points)?;
    test_places(points + points, buffer.len())?;
    let (polygon, rest) = buffer.split_at_mut(points);
    both_parts(polygon, &mut rest[0..points], w);
    Ok(())
}
