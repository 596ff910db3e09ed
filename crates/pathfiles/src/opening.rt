ghost use Rattle.std.specs.Result.{MatchResult};
ghost use Rattle.pathformat.specs.File.{head_at, name_at, sections, decode};
ghost use Rattle.pathreading.specs.Outcomes.{Reads, ReadsAs};
ghost use Rattle.pathfiles.specs.Opened.{OpensBy, Holds, NoFile};

use crate::opened::Opened;
use pathformat::kind::FileKind;
use pathreading::fields::Unread;
use pathreading::filed::Filed;
use pathreading::section::Section;
use points::fault::{Fault, Refusal};
use std::marker::PhantomData;
use workings::working::Working;

// The most bytes that a file and a name may have.
const LONGEST_FILE: usize = 65_535;

const LONGEST_NAME: u16 = 64;

// The allowance, after a head of the kind wanted.
fn read_head(wanted: FileKind, file: Unread) -> Result<(u16, Unread), Fault>
    ensures { Reads (head_at wanted) file.entry result }
{
    let (count, rest) = file.two_bytes()?;
    if count != 3 {
        return Err(file.fault(Refusal::Foreign));
    }
    let (kind, more) = rest.one_byte()?;
    if kind != u8::from(wanted) {
        return Err(rest.fault(Refusal::Foreign));
    }
    more.two_bytes()
}

// The name, as a part of the file.
fn read_name(file: Unread) -> Result<(&[u8], Unread), Fault>
    ensures { ReadsAs (λ x. x.now) name_at file.entry result }
{
    let (count, unread) = file.two_bytes()?;
    if count > LONGEST_NAME {
        return Err(file.fault(Refusal::Overlong));
    }
    let Some((name, rest)) = unread.rest.split_at_checked(usize::from(count)) else {
        return Err(unread.fault(Refusal::Cut));
    };
    Ok((name, Unread { rest, ..unread }))
}

// The four sections, and nothing after them.
fn read_sections<'a, K: Filed + 'a>(file: Unread<'a>) -> Result<Opened<'a, K>, Fault>
    ensures { OpensBy (sections K.kind file.entry.total file.entry.rest.now) K.kind result }
{
    let (allowance, rest) = read_head(K::filed_as(), file)?;
    let (name, rest) = read_name(rest)?;
    let (points, rest) = Section::read::<K>(2, 17, Refusal::Degree, rest)?;
    let (workings, tail) = Section::read::<Working>(0, 256, Refusal::Overlong, rest)?;
    if !tail.rest.is_empty() {
        return Err(tail.fault(Refusal::Tail));
    }
    Ok(Opened {
        allowance,
        name,
        points,
        workings,
        kind: PhantomData,
    })
}

// Opens a file as the kind K. A file over 65,535 bytes is refused with 12; then the first field that fails tells the fault, and its place.
pub fn open<'a, K: Filed + 'a>(file: &'a [u8]) -> Result<Opened<'a, K>, Fault>
    ensures answer { OpensBy (decode K.kind file.now) K.kind result }
    ensures exactly { MatchResult result (Holds K.kind file.now) (λ _. NoFile K.kind file.now) }
{
    let total = file.len();
    if total > LONGEST_FILE {
        return Err(Fault::new(Refusal::Overlong, 0));
    }
    read_sections(Unread { total, rest: file })
}
