ghost use Rattle.workings.specs.declared.working.Working.{Working};
ghost use Rattle.pathformat.specs.File.{parameter_at, working_at};
ghost use Rattle.pathreading.specs.Outcomes.{Reads};

use crate::fields::Unread;
use crate::item::Item;
use points::fault::{Fault, Refusal};
use points::parameter::Parameter;
use workings::working::Working;

// k and a, tested once both are read.
fn read_parameter(file: Unread) -> Result<(Parameter, Unread), Fault>
    ensures { Reads parameter_at file.entry result }
{
    let (k, rest) = file.one_byte()?;
    let (a, rest) = rest.two_bytes()?;
    let t = Parameter { a, k };
    if t.weight().is_err() {
        return Err(file.fault(Refusal::OffScale));
    }
    Ok((t, rest))
}

impl Item for Working {
    ghost Value = { Working };

    ghost value = { λ w. w };

    ghost reads = { working_at };

    // Inlined, so that what is left to read stays in registers from one working to the next: by a call, a list of workings takes four to ten times as long.
    #[inline(always)]
    fn read(file: Unread) -> Result<(Working, Unread), Fault> {
        let (letter, rest) = file.one_byte()?;
        match char::from(letter) {
            'L' => {
                let (t, rest) = read_parameter(rest)?;
                Ok((Working::Left(t), rest))
            }
            'R' => {
                let (t, rest) = read_parameter(rest)?;
                Ok((Working::Right(t), rest))
            }
            'U' => Ok((Working::Raise, rest)),
            'T' => Ok((Working::Turn, rest)),
            _ => Err(file.fault(Refusal::Letter)),
        }
    }
}
