ghost use Rattle.std.specs.Prelude.{ℕ, List};
ghost use Rattle.pathformat.specs.Reading.{Read};
ghost use Rattle.pathreading.specs.Outcomes.{ReadsAs};

use crate::fields::Unread;
use points::fault::Fault;

// What stands many times in a file: a point or a working.
pub trait Item: Copy {
    // what it stands for in a file
    ghost Value: { Type 0 };

    ghost value: { Self → Value };

    // how it is read where some bytes are left of a file of so many
    ghost reads: { ℕ → List ℕ → Read Value };

    // The item that stands next, and what is left after it.
    fn read(file: Unread) -> Result<(Self, Unread), Fault>
        ensures { ReadsAs value reads file.entry result };
}
