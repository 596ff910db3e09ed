ghost use Rattle.jobs.specs.Jobs.{Answers, CarriesDone};

use points::fault::Fault;
use sources::source::Source;
use strands::strand::Strand;
use workings::working::Working;

// A strand after a job, how many workings were done, and what refused the next.
#[derive(Drop)]
pub struct Job {
    pub strand: Strand,
    pub done: usize,
    pub fault: Option<Fault>,
}

// Loads a source and applies the workings in order; it stops at the first that is refused. A load that is refused leaves the buffer as found.
pub fn run<S: Source>(source: &S, workings: &[Working], buffer: &mut [S::K]) -> Result<Job, Fault>
    ensures answers { Answers S.K.Kind.coord (S.means source.now) workings.now buffer.old buffer.new result }
    ensures carries { CarriesDone S.K.Kind.coord S.K.Kind.width (S.means source.now) workings.now buffer.new result }
{
    let mut strand = Strand::load(source, buffer)?;
    for (done, w) in workings.iter().enumerate() {
        if let Err(f) = strand.work(*w, buffer) {
            return Ok(Job {
                strand,
                done,
                fault: Some(f),
            });
        }
    }
    Ok(Job {
        strand,
        done: workings.len(),
        fault: None,
    })
}
