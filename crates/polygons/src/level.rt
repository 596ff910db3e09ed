ghost use Rattle.std.specs.Prelude.{◌≡◌, ◌<◌, map, length, drop};
ghost use Rattle.points.specs.Points.{mix_point};
ghost use Rattle.polygons.specs.Buffers.{sized, scaled, Puts, Weighs};
ghost use Rattle.polygons.specs.Constructions.{Passed, level_above};

use crate::size::test_size;
use points::fault::Fault;
use points::kind::Kind;
use points::parameter::Parameter;
use points::weight::Weight;

// The tests of a call on a polygon at a parameter: 1, then 3.
pub(crate) fn test_call(t: Parameter, points: usize) -> Result<Weight, Fault>
    ensures { Weighs t points result }
{
    let w = t.weight()?;
    test_size(points)?;
    Ok(w)
}

// One pass of mixes: each of the first n points with the one after it. More points may follow on the slice, so n is told.
pub(crate) fn mix_level<K: Kind>(p: &mut [K], n: usize, w: Weight)
    requires { n < length p.old }
    ensures passes { Passed (mix_point w.num w.den) (map K.coord p.old) (map K.coord p.new) n }
    ensures rest { drop n p.new ≡ drop n p.old }
{
    // By number: over the places from the last, with the point after carried along, a pass takes 4 % longer at 17 points, 12 % at 3.
    for i in 0..n {
        p[i] = K::mix(p[i], p[i + 1], w);
    }
}

// Puts the level above the polygon first: its n points, each two neighbours mixed. The last place stays.
pub fn level<K: Kind>(polygon: &mut [K], t: Parameter) -> Result<(), Fault>
    ensures answer { result ≡ scaled t (sized (length polygon.old)) }
    ensures level { Puts K.coord (level_above t (map K.coord polygon.old)) result polygon.old polygon.new }
{
    let n = polygon.len();
    let w = test_call(t, n)?;
    mix_level(polygon, n - 1, w);
    Ok(())
}
