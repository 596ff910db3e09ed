ghost use Rattle.std.specs.Prelude.{◌≡◌, List, ℤ};
ghost use Rattle.pathformat.specs.declared.kind.FileKind.{FileKind};
ghost use Rattle.pathformat.specs.declared.kind.FileKind.TheVariants.{Height as HeightFile, Planar as PlanarFile, Sample as SampleFile};
ghost use Rattle.pathformat.specs.File.{listed, point_at, press_at};
ghost use Rattle.pathreading.specs.Outcomes.{Reads, ReadsAs};

use crate::fields::Unread;
use crate::item::Item;
use pathformat::kind::FileKind;
use points::fault::{Fault, Refusal};
use points::height::Height;
use points::kind::Kind;
use points::planar::Planar;
use points::sample::Sample;

// A kind of point that path files hold. Each kind names its own fields.
pub trait Filed: Kind {
    // the kind in a file's head
    ghost kind: { FileKind };

    // The kind as it is filed.
    fn filed_as() -> FileKind
        ensures { result ≡ kind };

    // The point that stands next, and what is left after it.
    fn read_point(file: Unread) -> Result<(Self, Unread), Fault>
        ensures { ReadsAs (λ p. listed Self.Kind.width (Self.Kind.coord p)) (point_at kind) file.entry result };
}

// A point of any such kind is an item, and stands for the list of its axis values.
impl<K: Filed> Item for K {
    ghost Value = { List ℤ };

    ghost value = { λ p. listed K.Kind.width (K.Kind.coord p) };

    ghost reads = { point_at K.Filed.kind };

    fn read(file: Unread) -> Result<(K, Unread), Fault> {
        K::read_point(file)
    }
}

impl Filed for Height {
    ghost kind = { HeightFile };

    fn filed_as() -> FileKind {
        FileKind::Height
    }

    fn read_point(file: Unread) -> Result<(Height, Unread), Fault> {
        let (z, rest) = file.four_bytes()?;
        Ok((Height { z }, rest))
    }
}

impl Filed for Planar {
    ghost kind = { PlanarFile };

    fn filed_as() -> FileKind {
        FileKind::Planar
    }

    fn read_point(file: Unread) -> Result<(Planar, Unread), Fault> {
        let (x, rest) = file.four_bytes()?;
        let (y, rest) = rest.four_bytes()?;
        Ok((Planar { x, y }, rest))
    }
}

// A press of two bytes, at most 4,095.
fn read_press(file: Unread) -> Result<(u16, Unread), Fault>
    ensures { Reads press_at file.entry result }
{
    let (press, rest) = file.two_bytes()?;
    if press > 4095 {
        return Err(file.fault(Refusal::Press));
    }
    Ok((press, rest))
}

impl Filed for Sample {
    ghost kind = { SampleFile };

    fn filed_as() -> FileKind {
        FileKind::Sample
    }

    fn read_point(file: Unread) -> Result<(Sample, Unread), Fault> {
        let (x, rest) = file.four_bytes()?;
        let (y, rest) = rest.four_bytes()?;
        let (press, rest) = read_press(rest)?;
        Ok((Sample { x, y, press }, rest))
    }
}
