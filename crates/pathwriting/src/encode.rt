ghost use Rattle.std.specs.Prelude.{◌≡◌, ℕ, ◌≤◌, List, length, OnOk};
ghost use Rattle.pathwriting.specs.Puts.{room_for, Writes};

use points::fault::Fault;

// What stands many times in a file, a point or a working, as it is written.
pub trait Encode: Copy {
    // its bytes in a file
    ghost bytes: { Self → List ℕ };

    // what is known of each one that is written
    ghost sound: { Self → Type 0 };

    // How many bytes it has, at most 12.
    fn size(&self) -> usize
        ensures { (result ≡ length (bytes self.now)) × (result ≤ 12) };

    // Puts its bytes first on a buffer; one that is shorter is refused with 2.
    fn write(&self, buffer: &mut [u8]) -> Result<usize, Fault>
        ensures answer { result ≡ room_for (length (bytes self.now)) (length buffer.old) }
        ensures written { Writes 0 (bytes self.now) buffer.old buffer.new result }
        ensures sound { OnOk result (sound self.now) };
}
