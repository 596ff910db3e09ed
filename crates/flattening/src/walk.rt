ghost use Rattle.std.specs.Prelude.{◌≡◌, ◌^◌, ◌≤◌};
ghost use Rattle.flattening.specs.Flat.{flat?};
ghost use Rattle.flattening.specs.Walks.{top_pieces, Walkable, Walk};

use crate::stack::Stack;
use crate::vertices::Vertices;
use points::fault::{Fault, Refusal};
use points::kind::Kind;

// How many of the 4,096 parts of the parameter a piece spans that may be halved so many times more.
fn span(halvings: u32) -> u16
    requires { halvings ≤ 12 }
    ensures { result ≡ 2 ^ halvings }
{
    1 << halvings
}

// Walks the pieces of the top piece, left first, and takes it off. It starts at `start` and may be halved so many times more.
// The end of each piece that is kept is added to the vertices.
pub(crate) fn walk<K: Kind>(
    stack: &mut Stack<K>,
    tolerance: u16,
    halvings: u32,
    start: u16,
    vertices: &mut Vertices<K>,
) -> Result<(), Fault>
    requires { Walkable halvings start stack.old vertices.old }
    ensures walk { Walk K.coord (top_pieces K.coord K.width (λ _. tolerance) halvings start stack.old) halvings stack.old stack.new vertices.old vertices.new result }
    ensures same_buffer { stack.new.buffer.ghost_name ≡ stack.old.buffer.ghost_name }
    ensures same_points { vertices.new.points.ghost_name ≡ vertices.old.points.ghost_name }
    ensures same_parameters { vertices.new.parameters.ghost_name ≡ vertices.old.parameters.ghost_name }
{
    if stack.top_is_flat(tolerance)? {
        vertices.push(stack.pop(), start + span(halvings));
        return Ok(());
    }
    if halvings == 0 {
        return Err(Fault::new(Refusal::Bent, usize::from(start)));
    }
    stack.halve()?;
    walk(stack, tolerance, halvings - 1, start, vertices)?;
    walk(
        stack,
        tolerance,
        halvings - 1,
        start + span(halvings - 1),
        vertices,
    )
}
