ghost use Rattle.std.specs.Prelude.{◌≡◌, ◌+◌, ◌≤◌, length};
ghost use Rattle.pathwriting.specs.Puts.{put, joined, room_for, Writes};

use points::fault::{Fault, test_places};

// Whether a buffer of so many places has room for bytes that end at a place; else refusal 2.
pub(crate) fn test_room(end: usize, places: usize) -> Result<usize, Fault>
    ensures { result ≡ room_for end places }
{
    test_places(end, places)?;
    Ok(end)
}

// The parts one after another, first on a buffer that has room for them.
pub(crate) fn put_parts(buffer: &mut [u8], parts: &[&[u8]])
    requires { length (joined parts.now) ≤ length buffer.old }
    ensures { buffer.new ≡ put 0 (joined parts.now) buffer.old }
{
    // The parts differ in length, so their places are added up.
    let mut to = 0;
    for part in parts {
        buffer[to..to + part.len()].copy_from_slice(part);
        to += part.len();
    }
}

// How many bytes the parts have together.
fn parts_size(parts: &[&[u8]]) -> usize
    requires { length (joined parts.now) ≤ 12 }
    ensures { result ≡ length (joined parts.now) }
{
    parts.iter().map(|part| part.len()).sum()
}

// The parts one after another, first on a buffer; one that is shorter is refused with 2.
pub(crate) fn write_parts(buffer: &mut [u8], parts: &[&[u8]]) -> Result<usize, Fault>
    requires { length (joined parts.now) ≤ 12 }
    ensures answer { result ≡ room_for (length (joined parts.now)) (length buffer.old) }
    ensures written { Writes 0 (joined parts.now) buffer.old buffer.new result }
{
    let n = test_room(parts_size(parts), buffer.len())?;
    put_parts(buffer, parts);
    Ok(n)
}
