ghost use Rattle.pathfiles.specs.Opened.{says};
ghost use Rattle.jobs.specs.Jobs.{FileAnswers};

use crate::job::{Job, run};
use pathfiles::opened::Opened;
use pathreading::filed::Filed;
use points::fault::Fault;
use points::kind::Kind;
use workings::working::Working;

// Works an opened file: loads its points, applies its workings in order and stops at the first that is refused. A point of the strand that comes back is
// true to every drawing that the file stands for, at the parameter carried back through the workings done.
pub fn run_file<K: Filed>(file: &Opened<K>, buffer: &mut [K]) -> Result<Job, Fault>
    ensures { FileAnswers K.Kind.coord K.Kind.width (says K.kind file.now) buffer.old buffer.new result }
{
    file.check()?;
    // There is no heap, so they lie in an array that has room for the most.
    let mut list = [Working::Turn; 256];
    let n = file.workings(&mut list)?;
    run(file, &list[..n], buffer)
}
