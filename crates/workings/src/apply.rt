ghost use Rattle.std.specs.Prelude.{◌≡◌, ◌+◌, map, length, take};
ghost use Rattle.polygons.specs.Buffers.{Puts};
ghost use Rattle.workings.specs.Workings.{tested, roomy, shape};

use crate::working::Working;
use points::fault::{Fault, test_places};
use points::kind::Kind;
use polygons::elevation::raise;
use polygons::reversal::turn;
use polygons::subdivision::{left, right};

impl Working {
    // Works the polygon of this degree that stands first on the buffer; it refuses 1, 3, then 2. The places after the polygon may be filled, so its degree
    // is told beside the buffer.
    pub fn apply<K: Kind>(self, buffer: &mut [K], degree: usize) -> Result<(), Fault>
        ensures answer { result ≡ roomy (tested self degree) (length buffer.old) }
        ensures worked { Puts K.coord (shape self (map K.coord (take (degree + 1) buffer.old))) result buffer.old buffer.new }
    {
        let after = self.test(degree)?;
        test_places(after + 1, buffer.len())?;
        match self {
            Working::Left(t) => left(&mut buffer[..=degree], t),
            Working::Right(t) => right(&mut buffer[..=degree], t),
            Working::Raise => raise(buffer, degree + 1),
            Working::Turn => turn(&mut buffer[..=degree]),
        }
    }
}
