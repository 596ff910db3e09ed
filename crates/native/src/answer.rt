ghost use Rattle.std.specs.Prelude.{◌≡◌};
ghost use Rattle.native.specs.Answers.{refused_by, end_of, count_of};

use points::fault::Fault;

// How a call ended. Accepted: refusal 0, and a count in `place` where the call answers one. Refused: the number, storey and place of the fault.
// The C interface has numbers for the kinds of answer, so no enum stands here.
#[repr(C)]
#[derive(Clone, Copy)]
pub struct Answer {
    pub refusal: u8,
    pub storey: u8,
    pub place: usize,
}

pub(crate) fn accepted(count: usize) -> Answer
    ensures { result ≡ record { refusal = 0; storey = 0; place = count } }
{
    Answer {
        refusal: 0,
        storey: 0,
        place: count,
    }
}

// How a refused call ended.
impl From<Fault> for Answer {
    ghost from_gives = { λ f answer. answer ≡ refused_by f };

    fn from(f: Fault) -> Answer {
        Answer {
            refusal: u8::from(f.refusal),
            storey: f.storey,
            place: f.place,
        }
    }
}

// How a call that answers a count ended.
impl From<Result<usize, Fault>> for Answer {
    ghost from_gives = { λ r answer. answer ≡ count_of r };

    fn from(r: Result<usize, Fault>) -> Answer {
        r.map_or_else(Answer::from, accepted)
    }
}

// How a call that answers nothing more ended.
impl From<Result<(), Fault>> for Answer {
    ghost from_gives = { λ r answer. answer ≡ end_of r };

    fn from(r: Result<(), Fault>) -> Answer {
        r.map(|()| 0).into()
    }
}
