ghost use Rattle.std.specs.Prelude.{◌≡◌, map, length};
ghost use Rattle.points.specs.Points.{planar};
ghost use Rattle.sources.specs.Meaning.{in_memory, Laid};
ghost use Rattle.sources.specs.Points.{point_of, pointed, seen};
ghost use Rattle.native.specs.Answers.{point_answer_of, fraction};

use crate::answer::{Answer, accepted};
use points::fault::Fault;
use points::parameter::Parameter;
use points::planar::Planar;
use sources::evaluation::point;
use sources::memory::InMemory;

// How a point call ended, and, where it was accepted, the point and its allowance; else both are 0.
#[repr(C)]
#[derive(Clone, Copy)]
pub struct PointAnswer {
    pub answer: Answer,
    pub point: Planar,
    pub allowance: u32,
}

// How a call that answers a point and its allowance ended.
impl From<Result<(Planar, u32), Fault>> for PointAnswer {
    ghost from_gives = { λ r answer. answer ≡ point_answer_of (seen planar r) };

    fn from(r: Result<(Planar, u32), Fault>) -> PointAnswer {
        match r {
            Ok((point, allowance)) => PointAnswer {
                answer: accepted(0),
                point,
                allowance,
            },
            Err(f) => PointAnswer {
                answer: f.into(),
                point: Planar { x: 0, y: 0 },
                allowance: 0,
            },
        }
    }
}

// The point at a/2^k of a polygon in memory that has this allowance. The buffer then starts with the right part there.
#[unsafe(no_mangle)]
pub extern "C" fn planar_point(
    polygon: &[Planar],
    allowance: u16,
    a: u16,
    k: u8,
    buffer: &mut [Planar],
) -> PointAnswer
    ensures answer { result ≡ point_answer_of (point_of (fraction a k) (in_memory (map planar polygon.now) allowance) (length buffer.old)) }
    ensures laid { Laid planar (pointed (fraction a k) (in_memory (map planar polygon.now) allowance)) buffer.old buffer.new }
{
    let source = InMemory {
        points: polygon,
        allowance,
    };
    point(&source, Parameter { a, k }, buffer).into()
}
