ghost use Rattle.std.specs.Prelude.{◌≡◌, length, MatchResult};
ghost use Rattle.pathformat.specs.File.{decode};
ghost use Rattle.pathformat.specs.declared.kind.FileKind.TheVariants.{Planar as PlanarFile};
ghost use Rattle.native.specs.Files.{file_answer_of, FiledOn, no_numbers};

use crate::answer::{Answer, accepted};
use pathfiles::opening::open;
use points::fault::Fault;
use points::planar::Planar;

// How opening ended, and, where it was accepted, the file's numbers: its allowance, how long the name is, how many points and workings it has. Else they are 0.
#[repr(C)]
#[derive(Clone, Copy)]
pub struct FileAnswer {
    pub answer: Answer,
    pub allowance: u16,
    pub name: u16,
    pub points: u16,
    pub workings: u16,
}

// How a refused opening ended.
impl From<Fault> for FileAnswer {
    ghost from_gives = { λ f answer. answer ≡ no_numbers f };

    fn from(f: Fault) -> FileAnswer {
        FileAnswer {
            answer: f.into(),
            allowance: 0,
            name: 0,
            points: 0,
            workings: 0,
        }
    }
}

// Opens a planar file, puts its points first on the buffer and answers its numbers; or the first fault, of the file or of the buffer.
fn opened(file: &[u8], buffer: &mut [Planar]) -> Result<FileAnswer, Fault>
    ensures answer { MatchResult result
        (λ a. a ≡ file_answer_of (decode PlanarFile file.now) (length buffer.old))
        (λ f. no_numbers f ≡ file_answer_of (decode PlanarFile file.now) (length buffer.old)) }
    ensures points { FiledOn (decode PlanarFile file.now) buffer.old buffer.new }
{
    let o = open::<Planar>(file)?;
    o.points(buffer)?;
    Ok(FileAnswer {
        answer: accepted(0),
        allowance: o.allowance(),
        // A name has at most 64 bytes. No `From` makes a `usize` a `u16`, and a `try_from` could not refuse here.
        name: o.name().len() as u16,
        points: o.point_count(),
        workings: o.working_count(),
    })
}

// Opens a planar file and puts its points first on the buffer. A buffer that is shorter than they are many is refused with 2, after all that opening refuses.
#[unsafe(no_mangle)]
pub extern "C" fn planar_open(file: &[u8], buffer: &mut [Planar]) -> FileAnswer
    ensures answer { result ≡ file_answer_of (decode PlanarFile file.now) (length buffer.old) }
    ensures points { FiledOn (decode PlanarFile file.now) buffer.old buffer.new }
{
    opened(file, buffer).unwrap_or_else(FileAnswer::from)
}
