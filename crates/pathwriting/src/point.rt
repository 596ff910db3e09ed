ghost use Rattle.std.specs.Prelude.{◌≡◌, ◌≤◌, length, OnOk};
ghost use Rattle.pathwriting.specs.Puts.{room_for, Writes};
ghost use Rattle.pathwriting.specs.Steps.{bytes_of_point, FileablePoint};

use crate::bytes::write_parts;
use crate::encode::Encode;
use pathreading::filed::Filed;
use points::fault::Fault;
use points::height::Height;
use points::kind::Kind;
use points::planar::Planar;
use points::sample::Sample;

// A kind of point that path files are written with: its fields one after another. Each kind names its fields and their size itself.
pub trait EncodePoint: Filed {
    // How many bytes a point has, at most 12.
    fn point_size(&self) -> usize
        ensures { (result ≡ length (bytes_of_point Self.Filed.kind Self.Kind.width Self.Kind.coord self.now)) × (result ≤ 12) };

    // Puts the bytes of a point first on a buffer; one that is shorter is refused with 2.
    fn write_point(&self, buffer: &mut [u8]) -> Result<usize, Fault>
        ensures answer { result ≡ room_for (length (bytes_of_point Self.Filed.kind Self.Kind.width Self.Kind.coord self.now)) (length buffer.old) }
        ensures written { Writes 0 (bytes_of_point Self.Filed.kind Self.Kind.width Self.Kind.coord self.now) buffer.old buffer.new result }
        ensures sound { OnOk result (FileablePoint Self.Filed.kind Self.Kind.width Self.Kind.coord self.now) };
}

// A point of any such kind is an item of a file, written as its fields.
impl<K: EncodePoint> Encode for K {
    ghost bytes = { bytes_of_point K.Filed.kind K.Kind.width K.Kind.coord };

    ghost sound = { FileablePoint K.Filed.kind K.Kind.width K.Kind.coord };

    fn size(&self) -> usize {
        self.point_size()
    }

    fn write(&self, buffer: &mut [u8]) -> Result<usize, Fault> {
        self.write_point(buffer)
    }
}

impl EncodePoint for Height {
    fn point_size(&self) -> usize {
        4
    }

    fn write_point(&self, buffer: &mut [u8]) -> Result<usize, Fault> {
        write_parts(buffer, &[&self.z.to_be_bytes()])
    }
}

impl EncodePoint for Planar {
    fn point_size(&self) -> usize {
        8
    }

    fn write_point(&self, buffer: &mut [u8]) -> Result<usize, Fault> {
        write_parts(buffer, &[&self.x.to_be_bytes(), &self.y.to_be_bytes()])
    }
}

impl EncodePoint for Sample {
    fn point_size(&self) -> usize {
        10
    }

    fn write_point(&self, buffer: &mut [u8]) -> Result<usize, Fault> {
        write_parts(
            buffer,
            &[
                &self.x.to_be_bytes(),
                &self.y.to_be_bytes(),
                &self.pressed().to_be_bytes(),
            ],
        )
    }
}
