ghost use Rattle.std.specs.Prelude.{◌≡◌, length};
ghost use Rattle.pathwriting.specs.Steps.{axis_values};
ghost use Rattle.pathwriting.specs.Written.{file_of, write_test, WritesFile};

use crate::bytes::test_room;
use crate::point::EncodePoint;
use crate::section::items_size;
use crate::states::NewFile;
use crate::steps::{LONGEST_NAME, MOST_WORKINGS, test_most, test_parameters};
use points::fault::Fault;
use polygons::size::test_size;
use workings::working::Working;

// The length of the file that these make, if a buffer of so many places takes it. An allowance has two bytes, so it decides nothing here.
fn test_file<K: EncodePoint>(
    name: &[u8],
    points: &[K],
    workings: &[Working],
    places: usize,
) -> Result<usize, Fault>
    ensures { result ≡ write_test (file_of K.Filed.kind 0 name.now (axis_values K.Kind.width K.Kind.coord points.now) workings.now) places }
{
    test_parameters(workings)?;
    test_most(name, LONGEST_NAME)?;
    test_most(workings, MOST_WORKINGS)?;
    test_size(points.len())?;
    test_room(
        11 + name.len() + items_size(points) + items_size(workings),
        places,
    )
}

// Writes a whole file onto one buffer, in its three steps, and answers its length. What was written opens to what was given; and what was opened, written
// again, is the same bytes. It refuses 1 for a bad parameter, 12 for the name, 12 for the workings, 3 for the points, then 2 with the file's length; a
// refused call writes nothing. It takes what the three steps take, one by one, so no record of them is made.
pub fn write_file<K: EncodePoint>(
    buffer: &mut [u8],
    name: &[u8],
    allowance: u16,
    points: &[K],
    workings: &[Working],
) -> Result<usize, Fault>
    ensures answer { result ≡ write_test (file_of K.Filed.kind allowance name.now (axis_values K.Kind.width K.Kind.coord points.now) workings.now) (length buffer.old) }
    ensures written { WritesFile (file_of K.Filed.kind allowance name.now (axis_values K.Kind.width K.Kind.coord points.now) workings.now) buffer.old buffer.new result }
{
    test_file(name, points, workings, buffer.len())?;
    let begun = NewFile::new()
        .begin(buffer, name, allowance)
        .map_err(|(_, f)| f)?;
    let pointed = begun.points(buffer, points).map_err(|(_, f)| f)?;
    pointed.close(buffer, workings).map_err(|(_, f)| f)
}
