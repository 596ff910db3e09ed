ghost use Rattle.std.specs.Prelude.{◌≡◌, ◌+◌, ◌*◌, ◌≤◌, false, map, length, take, drop, slice_index_or};
ghost use Rattle.points.specs.Parameters.{off_scale};
ghost use Rattle.points.specs.Points.{origin};
ghost use Rattle.sources.specs.Points.{point_at};
ghost use Rattle.patches.specs.Nets.{column, cut_points, Gridded};

use points::kind::Kind;
use points::parameter::Parameter;
use polygons::subdivision::right;

// The points of a patch whose numbers were tested: its degrees pass, and every row and column has its points.
#[derive(Drop)]
pub(crate) struct Grid<'a, K> {
    pub(crate) points: &'a [K],
    pub(crate) m: usize,
    pub(crate) n: usize,
    ghost gridded: { Gridded m n (length points.now) },
}

impl<'a, K: Kind> Grid<'a, K> {
    // Copies column j, the points (0, j) to (m, j).
    fn copy_column(&self, j: usize, room: &mut [K])
        requires column_in { j ≤ self.now.n }
        requires room_fits { length room.old ≡ self.now.m + 1 }
        ensures { map K.coord room.new ≡ column origin self.now.m self.now.n (map K.coord self.now.points.now) j }
    {
        // Of a mutable slice that an adapter such as `zip` went over, no contract says what it holds, so the room is written by place.
        for (i, row) in self.points.chunks_exact(self.n + 1).enumerate() {
            room[i] = row[j];
        }
    }

    // Makes the point at s of column j, which then stands first in the room of m + 1 places.
    fn column_point(&self, j: usize, s: Parameter, room: &mut [K])
        requires column_in { j ≤ self.now.n }
        requires room_fits { length room.old ≡ self.now.m + 1 }
        requires on_scale { off_scale s ≡ false }
        ensures { slice_index_or (map K.coord room.new) 0 origin ≡ point_at s (column origin self.now.m self.now.n (map K.coord self.now.points.now) j) }
    {
        self.copy_column(j, room);
        // A column is a polygon, so its right part at s, which starts with the point at s, is never refused.
        let _ = right(room, s);
    }

    // Puts the points of the cut at s first on the buffer. Each column is worked in the room from its point's place on, so m places past the cut are enough.
    pub(crate) fn draw(&self, s: Parameter, buffer: &mut [K])
        requires on_scale { off_scale s ≡ false }
        requires roomy { self.now.n + 1 + self.now.m ≤ length buffer.old }
        ensures cut { map K.coord (take (self.now.n + 1) buffer.new) ≡ cut_points s self.now.m self.now.n (map K.coord self.now.points.now) }
        ensures untouched { drop (self.now.n + 1 + self.now.m) buffer.new ≡ drop (self.now.n + 1 + self.now.m) buffer.old }
    {
        // An iterator has no overlapping windows over a mutable slice, so the columns are counted.
        for j in 0..self.n + 1 {
            self.column_point(j, s, &mut buffer[j..j + self.m + 1]);
        }
    }
}
