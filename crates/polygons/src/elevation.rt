ghost use Rattle.std.specs.Prelude.{◌≡◌, ◌+◌, ◌-◌, ◌<◌, ◌≤◌, map, length, take};
ghost use Rattle.points.specs.Points.{mix_point};
ghost use Rattle.polygons.specs.Buffers.{raisable, Puts};
ghost use Rattle.polygons.specs.Constructions.{raised};

use crate::size::test_range;
use points::fault::{Fault, test_places};
use points::kind::Kind;
use points::weight::Weight;

// Point i of the raised polygon of degree d: P(i) and P(i − 1) mixed by i/d.
fn raised_point<K: Kind>(here: K, before: K, i: usize, d: usize) -> K
    requires { (i ≤ d) × (1 ≤ d) × (d ≤ 17) }
    ensures { K.coord result ≡ mix_point i d (K.coord here) (K.coord before) }
{
    // At most 17: `try_from` would bring an error that cannot come.
    let w = Weight {
        num: i as u16,
        den: d as u16,
    };
    K::mix(here, before, w)
}

// One degree more, from the top down. The last place is free, the ones before it hold the polygon.
fn raise_all<K: Kind>(p: &mut [K])
    requires { (2 ≤ length p.old) × (length p.old ≤ 17) }
    ensures { map K.coord p.new ≡ raised (map K.coord (take (length p.old - 1) p.old)) }
{
    let d = p.len() - 1;
    p[d] = p[d - 1];
    // From the top down each place is made from itself and the one before; forwards, the one before would have to be kept beside.
    for i in (1..d).rev() {
        p[i] = raised_point(p[i], p[i - 1], i, d);
    }
}

// Raises the polygon of so many points that stands first on the buffer by one degree.
pub fn raise<K: Kind>(buffer: &mut [K], points: usize) -> Result<(), Fault>
    ensures answer { result ≡ raisable points (length buffer.old) }
    ensures raised { Puts K.coord (raised (map K.coord (take points buffer.old))) result buffer.old buffer.new }
{
    test_range(points, 2, 16)?;
    test_places(points + 1, buffer.len())?;
    raise_all(&mut buffer[0..points + 1]);
    Ok(())
}
