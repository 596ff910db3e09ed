use points::fault::Fault;
use std::alloc::{AllocError, AllocFailed};
use std::fmt;

// Why a description makes no file: what is wrong with its text, a refusal, or no memory.
#[derive(Debug, Drop)]
pub enum Trouble {
    Text(&'static str),
    Refusal(Fault),
    Memory,
}

impl fmt::Display for Trouble {
    fn fmt<W: fmt::Write>(&self, f: &mut fmt::Formatter<W>) -> fmt::Result {
        match self {
            Trouble::Text(what) => f.write_str(what),
            Trouble::Refusal(fault) => write!(f, "{fault}"),
            Trouble::Memory => f.write_str("no memory"),
        }
    }
}

impl From<AllocError> for Trouble {
    fn from(_: AllocError) -> Trouble {
        Trouble::Memory
    }
}

impl<T: Drop> From<AllocFailed<T>> for Trouble {
    fn from(_: AllocFailed<T>) -> Trouble {
        Trouble::Memory
    }
}

impl From<Fault> for Trouble {
    fn from(f: Fault) -> Trouble {
        Trouble::Refusal(f)
    }
}
