ghost use Rattle.std.specs.Prelude.{◌≡◌};
ghost use Rattle.sources.specs.Points.{point_of, on_axis};
ghost use Rattle.promises.specs.Bites.{half};
ghost use Rattle.promises.specs.Values.{cubic};

use points::fault::Fault;
use points::height::Height;
use points::parameter::Parameter;
use sources::evaluation::coordinate;
use sources::memory::InMemory;

// The height at 1/2 of a cubic with these control heights, and its allowance. It is rounded level by level, so it is not the Bernstein sum rounded once.
pub fn cubic_at_half(a: i32, b: i32, c: i32, d: i32) -> Result<(i32, u32), Fault>
    ensures { result ≡ on_axis 0 (point_of half (cubic a b c d) 4) }
{
    let points = [
        Height { z: a },
        Height { z: b },
        Height { z: c },
        Height { z: d },
    ];
    let mut buffer = [Height { z: 0 }; 4];
    let source = InMemory {
        points: &points,
        allowance: 0,
    };
    coordinate(&source, Parameter { a: 1, k: 1 }, 0, &mut buffer)
}
