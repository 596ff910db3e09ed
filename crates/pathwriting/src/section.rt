ghost use Rattle.std.specs.Prelude.{◌≡◌, ◌+◌, ◌*◌, ◌≤◌, length, IfOk, OnOk};
ghost use Rattle.std.specs.List.{flat_map};
ghost use Rattle.pathformat.specs.Writing.{bytes_each, Each};
ghost use Rattle.pathwriting.specs.Puts.{put, room_for, Writes};

use crate::bytes::{put_parts, test_room};
use crate::encode::Encode;
use points::fault::Fault;

// The items are lent slices; who lends them has tested their number, so `items_size`, `test_section` and `put_section` ask for it.

// How many bytes the items have, one after another.
pub(crate) fn items_size<I: Encode>(items: &[I]) -> usize
    requires { length items.now ≤ 256 }
    ensures { (result ≡ length (flat_map I.bytes items.now)) × (result ≤ 12 * length items.now) }
{
    items.iter().map(|item| item.size()).sum()
}

// The items one after another, first on a buffer that has room for them.
fn put_items<I: Encode>(buffer: &mut [u8], items: &[I])
    requires { length (flat_map I.bytes items.now) ≤ length buffer.old }
    ensures written { buffer.new ≡ put 0 (flat_map I.bytes items.now) buffer.old }
    ensures sound { Each I.sound items.now }
{
    // There is room, so no item is refused. The items differ in length, so their places are added up.
    let mut to = 0;
    for item in items {
        to += item.write(&mut buffer[to..]).unwrap();
    }
}

// Where the items end if they stand at a place after their count, if a buffer of so many places has room for them; else refusal 2.
pub(crate) fn test_section<I: Encode>(at: usize, items: &[I], places: usize) -> Result<usize, Fault>
    requires { (at ≤ 300) × (length items.now ≤ 256) }
    ensures answer { result ≡ room_for (at + length (bytes_each I.bytes items.now)) places }
    ensures small { IfOk result (λ end. end ≤ at + 2 + 12 * length items.now) }
{
    test_room(at + 2 + items_size(items), places)
}

// The items after their count, first on a buffer that has room for them.
pub(crate) fn put_section<I: Encode>(buffer: &mut [u8], items: &[I])
    requires few { length items.now ≤ 256 }
    requires room { length (bytes_each I.bytes items.now) ≤ length buffer.old }
    ensures written { buffer.new ≡ put 0 (bytes_each I.bytes items.now) buffer.old }
    ensures sound { Each I.sound items.now }
{
    // At most 256: `try_from` would want an answer for a refusal that never comes.
    put_parts(buffer, &[&(items.len() as u16).to_be_bytes()]);
    put_items(&mut buffer[2..], items);
}
