ghost use Rattle.std.specs.Prelude.{◌≡◌, ◌+◌, ◌<◌, ◌≤◌, ◌++◌, ◌↔◌, length, take, drop, slice_set, IsTrue};

use points::kind::Kind;

// The vertices of a flattening on two buffers: their points, and their parameters times 4,096.
// All of them are counted, also those for which a buffer has no place. The caller lends the buffers one by one, so they are not one slice of pairs.
// That the buffers stay the same ones (`same_points`, `same_parameters`) stands in each contract, since a type says nothing of two of its values.
#[derive(Drop)]
pub(crate) struct Vertices<'a, K> {
    pub(crate) points: &'a mut [K],
    pub(crate) parameters: &'a mut [u16],
    pub(crate) count: usize,
}

// Writes x at the place i, where there is one.
// Nothing is promised of a slice after `get_mut`, so the place is tested.
fn put<T: Copy>(buffer: &mut [T], i: usize, x: T)
    ensures { buffer.new ≡ slice_set buffer.old i x }
{
    if i < buffer.len() {
        buffer[i] = x;
    }
}

// Writes all the values first.
fn put_all<T: Copy>(buffer: &mut [T], values: &[T])
    requires { length values.now ≤ length buffer.old }
    ensures { buffer.new ≡ values.now ++ drop (length values.now) buffer.old }
{
    buffer[..values.len()].copy_from_slice(values);
}

impl<'a, K: Kind> Vertices<'a, K> {
    ghost use Rattle.flattening.specs.Walks.{HasPlaces};

    // Whether so many vertices have places on both buffers.
    pub(crate) fn has_places(&self, count: usize) -> bool
        ensures { IsTrue result ↔ HasPlaces self.now count }
    {
        count <= self.points.len().min(self.parameters.len())
    }

    // Adds a vertex after those that are there, and writes it where there are places.
    pub(crate) fn push(&mut self, point: K, parameter: u16)
        requires { self.old.count < usize.MAX }
        ensures count { self.new.count ≡ self.old.count + 1 }
        ensures points { self.new.points.now ≡ slice_set self.old.points.now self.old.count point }
        ensures parameters { self.new.parameters.now ≡ slice_set self.old.parameters.now self.old.count parameter }
        ensures same_points { self.new.points.ghost_name ≡ self.old.points.ghost_name }
        ensures same_parameters { self.new.parameters.ghost_name ≡ self.old.parameters.ghost_name }
    {
        put(self.points, self.count, point);
        put(self.parameters, self.count, parameter);
        self.count += 1;
    }

    // Becomes the vertices of another, all of which have places on both.
    pub(crate) fn copy_from(&mut self, other: &Vertices<K>)
        requires { HasPlaces self.old other.now.count × HasPlaces other.now other.now.count }
        ensures count { self.new.count ≡ other.now.count }
        ensures points { self.new.points.now ≡ take other.now.count other.now.points.now ++ drop other.now.count self.old.points.now }
        ensures parameters { self.new.parameters.now ≡ take other.now.count other.now.parameters.now ++ drop other.now.count self.old.parameters.now }
        ensures same_points { self.new.points.ghost_name ≡ self.old.points.ghost_name }
        ensures same_parameters { self.new.parameters.ghost_name ≡ self.old.parameters.ghost_name }
    {
        put_all(self.points, &other.points[..other.count]);
        put_all(self.parameters, &other.parameters[..other.count]);
        self.count = other.count;
    }
}
