ghost use Rattle.std.specs.Prelude.{◌≡◌, map, length, take};
ghost use Rattle.points.specs.Points.{planar};
ghost use Rattle.polygons.specs.Buffers.{sized, scaled, raisable, Puts};
ghost use Rattle.polygons.specs.Constructions.{left_part_at, right_part_at, raised, turned};
ghost use Rattle.native.specs.Answers.{end_of, fraction};

use crate::answer::Answer;
use points::parameter::Parameter;
use points::planar::Planar;
use polygons::elevation::raise;
use polygons::reversal::turn;
use polygons::subdivision::{left, right};

// The left part at a/2^k, in place.
#[unsafe(no_mangle)]
pub extern "C" fn planar_left(polygon: &mut [Planar], a: u16, k: u8) -> Answer
    ensures answer { result ≡ end_of (scaled (fraction a k) (sized (length polygon.old))) }
    ensures left { Puts planar (left_part_at (fraction a k) (map planar polygon.old)) (scaled (fraction a k) (sized (length polygon.old))) polygon.old polygon.new }
{
    left(polygon, Parameter { a, k }).into()
}

// The right part at a/2^k, in place.
#[unsafe(no_mangle)]
pub extern "C" fn planar_right(polygon: &mut [Planar], a: u16, k: u8) -> Answer
    ensures answer { result ≡ end_of (scaled (fraction a k) (sized (length polygon.old))) }
    ensures right { Puts planar (right_part_at (fraction a k) (map planar polygon.old)) (scaled (fraction a k) (sized (length polygon.old))) polygon.old polygon.new }
{
    right(polygon, Parameter { a, k }).into()
}

// One degree more, for the polygon of so many points that stands first on the buffer. The place after it is filled, so the number of its points is told.
#[unsafe(no_mangle)]
pub extern "C" fn planar_raise(buffer: &mut [Planar], points: usize) -> Answer
    ensures answer { result ≡ end_of (raisable points (length buffer.old)) }
    ensures raised { Puts planar (raised (map planar (take points buffer.old))) (raisable points (length buffer.old)) buffer.old buffer.new }
{
    raise(buffer, points).into()
}

// The points in the other order, in place.
#[unsafe(no_mangle)]
pub extern "C" fn planar_turn(polygon: &mut [Planar]) -> Answer
    ensures answer { result ≡ end_of (sized (length polygon.old)) }
    ensures turned { Puts planar (turned (map planar polygon.old)) (sized (length polygon.old)) polygon.old polygon.new }
{
    turn(polygon).into()
}
