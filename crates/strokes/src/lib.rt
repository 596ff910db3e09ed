// Strokes for the stylus, made from planar vertices.
#![tactic(auto)]

ghost use Rattle.std.specs.Prelude.{◌≡◌, ◌<◌, length};
ghost use Rattle.strokes.specs.Strokes.{InMillimetres, StrokeTo, strokes_of, Stroked};

use points::fault::{Fault, test_places};
use points::planar::Planar;

// What the stylus is told: where to start, or to draw a line to. x and y are in mm.
#[derive(Clone, Copy)]
pub enum Stroke {
    Start { x: f64, y: f64 },
    Line { x: f64, y: f64 },
}

// 1/256 mm as mm. A 32-bit number has fewer bits than a float keeps, and 256 is a power of two, so nothing is lost.
fn millimetres(value: i32) -> f64
    ensures { InMillimetres value result }
{
    f64::from(value) / 256.0
}

// The stroke to the vertex with so many before it.
fn stroke_to(before: usize, vertex: Planar) -> Stroke
    ensures { StrokeTo before vertex result }
{
    let x = millimetres(vertex.x);
    let y = millimetres(vertex.y);
    if before == 0 {
        Stroke::Start { x, y }
    } else {
        Stroke::Line { x, y }
    }
}

// Puts the strokes to the vertices first on the buffer, and answers their number: a start, then lines. A buffer that is too short is refused with 2 and stays as it is.
pub fn strokes(vertices: &[Planar], buffer: &mut [Stroke]) -> Result<usize, Fault>
    ensures answer { result ≡ strokes_of (length vertices.now) (length buffer.old) }
    ensures strokes { Stroked vertices.now result buffer.old buffer.new }
{
    let count = vertices.len();
    test_places(count, buffer.len())?;
    // Of a mutable slice that an adapter such as `zip` went over, no contract says what it holds, so the buffer is written by place.
    for (i, vertex) in vertices.iter().enumerate() {
        buffer[i] = stroke_to(i, *vertex);
    }
    Ok(count)
}
