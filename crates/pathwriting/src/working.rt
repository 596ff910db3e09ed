ghost use Rattle.std.specs.Prelude.{◌≡◌, ◌∷◌, length};
ghost use Rattle.workings.specs.declared.working.Working.{Working};
ghost use Rattle.pathformat.specs.File.{parameter_bytes, working_bytes};
ghost use Rattle.pathwriting.specs.Puts.{room_for, Writes};

use crate::bytes::write_parts;
use crate::encode::Encode;
use points::fault::Fault;
use points::parameter::Parameter;
use workings::working::Working;

// A letter with a parameter after it: k, then a.
fn write_split(letter: u8, t: Parameter, buffer: &mut [u8]) -> Result<usize, Fault>
    ensures answer { result ≡ room_for 4 (length buffer.old) }
    ensures written { Writes 0 (letter ∷ parameter_bytes t) buffer.old buffer.new result }
{
    write_parts(buffer, &[&[letter, t.k], &t.a.to_be_bytes()])
}

impl Encode for Working {
    ghost bytes = { working_bytes };

    ghost sound = { λ _. Unit {0} };

    fn size(&self) -> usize {
        match self {
            Working::Left(_) | Working::Right(_) => 4,
            Working::Raise | Working::Turn => 1,
        }
    }

    fn write(&self, buffer: &mut [u8]) -> Result<usize, Fault> {
        match *self {
            Working::Left(t) => write_split(b'L', t, buffer),
            Working::Right(t) => write_split(b'R', t, buffer),
            Working::Raise => write_parts(buffer, &[b"U"]),
            Working::Turn => write_parts(buffer, &[b"T"]),
        }
    }
}
