ghost use Rattle.std.specs.Prelude.{◌≡◌, map, length};
ghost use Rattle.polygons.specs.Buffers.{sized, Puts};
ghost use Rattle.polygons.specs.Constructions.{turned};

use crate::size::test_size;
use points::fault::Fault;
use points::kind::Kind;

// The points in the other order.
pub fn turn<K: Kind>(polygon: &mut [K]) -> Result<(), Fault>
    ensures answer { result ≡ sized (length polygon.old) }
    ensures turned { Puts K.coord (turned (map K.coord polygon.old)) result polygon.old polygon.new }
{
    test_size(polygon.len())?;
    polygon.reverse();
    Ok(())
}
