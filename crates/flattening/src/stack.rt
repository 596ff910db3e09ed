ghost use Rattle.std.specs.Prelude.{◌≡◌, ◌+◌, ◌≤◌, map, length, Ok};

use points::fault::Fault;
use points::kind::Kind;
use points::parameter::Parameter;
use polygons::flatness::flat_test;
use polygons::subdivision::split;

// Pieces of `size` points each, one after the other from the start of a buffer; `used` places are taken. By a rule of the project it is a struct over a
// mutable slice: there is no heap, so the places are lent.
#[derive(Drop)]
pub(crate) struct Stack<'a, K> {
    pub(crate) buffer: &'a mut [K],
    pub(crate) size: usize,
    pub(crate) used: usize,
    ghost least: { 2 ≤ size },
    ghost most: { size ≤ 17 },
    ghost fits: { used ≤ length buffer.now },
}

// `Topped` stands in the requires, since the last pop leaves no piece.
impl<'a, K: Kind> Stack<'a, K> {
    ghost use Rattle.flattening.specs.Flat.{flat?};
    ghost use Rattle.flattening.specs.Vertices.{last_of};
    ghost use Rattle.flattening.specs.Stacks.{top_of, Topped, Roomy, Popped, Halved};

    // The top piece.
    fn top(&self) -> &[K]
        requires { Topped self.now }
        ensures { result.now ≡ top_of self.now }
    {
        &self.buffer[self.used - self.size..self.used]
    }

    // Whether the top piece is flat to the tolerance.
    pub(crate) fn top_is_flat(&self, tolerance: u16) -> Result<bool, Fault>
        requires { Topped self.now }
        ensures { result ≡ Ok (flat? K.width (λ _. tolerance) (map K.coord (top_of self.now))) }
    {
        Ok(flat_test(self.top(), tolerance)?.is_none())
    }

    // Takes the top piece off, and answers its last point.
    pub(crate) fn pop(&mut self) -> K
        requires { Topped self.old }
        ensures last { K.coord result ≡ last_of (map K.coord (top_of self.old)) }
        ensures popped { Popped self.old self.new }
        ensures same { self.new.buffer.ghost_name ≡ self.old.buffer.ghost_name }
    {
        let last = self.buffer[self.used - 1];
        self.used -= self.size;
        last
    }

    // Puts the right half of the top piece in its place, and the left half above it.
    pub(crate) fn halve(&mut self) -> Result<(), Fault>
        requires { Topped self.old × Roomy self.old }
        ensures answer { result ≡ Ok tt }
        ensures halved { Halved K.coord self.old self.new }
        ensures same { self.new.buffer.ghost_name ≡ self.old.buffer.ghost_name }
    {
        let half = Parameter { a: 1, k: 1 };
        let size = self.size;
        let end = self.used;
        split(&mut self.buffer[end - size..end + size], size, half)?;
        self.used = end + size;
        Ok(())
    }
}
