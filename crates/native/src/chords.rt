ghost use Rattle.std.specs.Prelude.{◌≡◌, length};
ghost use Rattle.points.specs.Points.{planar};
ghost use Rattle.flattening.specs.Flattening.{Freed, PutsFirst};
ghost use Rattle.native.specs.Answers.{count_of};
ghost use Rattle.native.specs.Flattenings.{memory, flatten_planar, vertices_planar, parameters_planar};

use crate::answer::Answer;
use flattening::chords::flatten;
use points::planar::Planar;
use sources::memory::InMemory;

// Flattens a polygon in memory that has this allowance. Accepted, the vertices and their parameters times 4,096 stand first on their buffers, and `place` is their number.
#[unsafe(no_mangle)]
pub extern "C" fn planar_flatten(
    polygon: &[Planar],
    allowance: u16,
    tolerance: u16,
    working: &mut [Planar],
    points: &mut [Planar],
    parameters: &mut [u16],
) -> Answer
    ensures answer { result ≡ count_of (flatten_planar tolerance (memory polygon.now allowance) (length working.old) (length points.old) (length parameters.old)) }
    ensures working { Freed (memory polygon.now allowance) working.old working.new }
    ensures points { PutsFirst planar (vertices_planar tolerance (memory polygon.now allowance)) (flatten_planar tolerance (memory polygon.now allowance) (length working.old) (length points.old) (length parameters.old)) points.old points.new }
    ensures parameters { PutsFirst (λ t. t) (parameters_planar tolerance (memory polygon.now allowance)) (flatten_planar tolerance (memory polygon.now allowance) (length working.old) (length points.old) (length parameters.old)) parameters.old parameters.new }
{
    let source = InMemory {
        points: polygon,
        allowance,
    };
    flatten(&source, tolerance, working, points, parameters).into()
}
