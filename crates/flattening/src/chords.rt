ghost use Rattle.std.specs.Prelude.{◌≡◌, ◌≤◌, max, map, length, Ok, OnOk};
ghost use Rattle.sources.specs.Meaning.{survey_of};
ghost use Rattle.flattening.specs.Flattening.{flatten_of, Freed, vertices_of, parameters_of, PutsFirst, decided, Stackable, PastNeeded, walk_of};
ghost use Rattle.flattening.specs.Walks.{Adds};
ghost use Rattle.flattening.specs.Chords.{ChordBound};

use crate::stack::Stack;
use crate::vertices::Vertices;
use crate::walk::walk;
use points::fault::{Fault, Refusal, test_places};
use points::kind::Kind;
use sources::source::Source;
use workings::survey::Survey;

// How many parameters can wait to be written: as many as there are vertices that can, of a polygon of two points. They wait in an array, since there is no heap.
const WAITING: usize = 195;

// Draws the polygon onto a buffer and walks its pieces, on a stack there. The vertices are the first ones on their buffers.
fn draw_and_walk<S: Source>(
    source: &S,
    tolerance: u16,
    buffer: &mut [S::K],
    vertices: &mut Vertices<S::K>,
) -> Result<(), Fault>
    requires { Stackable (S.means source.now) (length buffer.old) × (vertices.old.count ≡ 0) }
    ensures answer { result ≡ walk_of S.K.Kind.width (λ _. tolerance) (S.means source.now) }
    ensures past { PastNeeded (S.means source.now) buffer.old buffer.new }
    ensures vertices { OnOk result (Adds S.K.Kind.coord (vertices_of S.K.Kind.width (λ _. tolerance) (S.means source.now)) (parameters_of S.K.Kind.width (λ _. tolerance) (S.means source.now)) vertices.old vertices.new) }
    ensures same_points { vertices.new.points.ghost_name ≡ vertices.old.points.ghost_name }
    ensures same_parameters { vertices.new.parameters.ghost_name ≡ vertices.old.parameters.ghost_name }
{
    let size = source.draw(buffer)?.degree + 1;
    vertices.push(buffer[0], 0);
    let mut stack = Stack {
        buffer,
        size,
        used: size,
    };
    walk(&mut stack, tolerance, 12, 0, vertices)
}

// Flattens a source that was surveyed, on the places that are needed.
// No vertex may be written before it is known that nothing refuses, so the vertices wait behind the stack; if they are too many for that, the walk is done again.
fn flatten_within<S: Source>(
    source: &S,
    survey: Survey,
    tolerance: u16,
    places: &mut [S::K],
    vertices: &mut Vertices<S::K>,
) -> Result<usize, Fault>
    requires { (Ok survey ≡ survey_of (S.means source.now)) × (max survey.reach 221 ≤ length places.old) × (vertices.old.count ≡ 0) }
    ensures answer { result ≡ decided S.K.Kind.width (λ _. tolerance) (S.means source.now) (length vertices.old.points.now) (length vertices.old.parameters.now) }
    ensures points { PutsFirst S.K.Kind.coord (vertices_of S.K.Kind.width (λ _. tolerance) (S.means source.now)) result vertices.old.points.now vertices.new.points.now }
    ensures parameters { PutsFirst (λ t. t) (parameters_of S.K.Kind.width (λ _. tolerance) (S.means source.now)) result vertices.old.parameters.now vertices.new.parameters.now }
    ensures same_points { vertices.new.points.ghost_name ≡ vertices.old.points.ghost_name }
    ensures same_parameters { vertices.new.parameters.ghost_name ≡ vertices.old.parameters.ghost_name }
{
    let enough = survey.reach.max(13 * (survey.degree + 1));
    let (stack, free) = places.split_at_mut(enough);
    let mut marks = [0u16; WAITING];
    let mut waiting = Vertices {
        points: free,
        parameters: &mut marks,
        count: 0,
    };
    draw_and_walk(source, tolerance, stack, &mut waiting)?;
    let count = waiting.count;
    if !vertices.has_places(count) {
        return Err(Fault::new(Refusal::Short, count));
    }
    if waiting.has_places(count) {
        vertices.copy_from(&waiting);
        return Ok(count);
    }
    draw_and_walk(source, tolerance, places, vertices)?;
    Ok(count)
}

// Flattens a source: its polygon is halved until every piece is flat to the tolerance. The vertices, the first piece's start and every piece's end, are written with their
// parameters times 4,096, and their number is answered. Between two vertices the straight chord is off the exact curve by at most the tolerance and half the piece's allowance.
pub fn flatten<S: Source>(
    source: &S,
    tolerance: u16,
    working: &mut [S::K],
    points: &mut [S::K],
    parameters: &mut [u16],
) -> Result<usize, Fault>
    ensures answer { result ≡ flatten_of S.K.Kind.width (λ _. tolerance) (S.means source.now) (length working.old) (length points.old) (length parameters.old) }
    ensures working { Freed (S.means source.now) working.old working.new }
    ensures points { PutsFirst S.K.Kind.coord (vertices_of S.K.Kind.width (λ _. tolerance) (S.means source.now)) result points.old points.new }
    ensures parameters { PutsFirst (λ t. t) (parameters_of S.K.Kind.width (λ _. tolerance) (S.means source.now)) result parameters.old parameters.new }
    ensures chords { ChordBound S.K.Kind.width (λ _. tolerance) (S.means source.now) result (map S.K.Kind.coord points.new) parameters.new }
{
    let survey = source.survey()?;
    let needed = survey.reach.max(221);
    test_places(needed, working.len())?;
    let mut vertices = Vertices {
        points,
        parameters,
        count: 0,
    };
    flatten_within(
        source,
        survey,
        tolerance,
        &mut working[..needed],
        &mut vertices,
    )
}
