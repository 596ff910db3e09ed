ghost use Rattle.sources.specs.Piles.{work};
ghost use Rattle.sources.specs.Sounds.{work_sound};

use crate::climbing::climb;
use crate::source::Source;
use points::fault::Fault;
use points::kind::Kind;
use workings::survey::Survey;
use workings::working::Working;

// A working over a source, which is a source again, so that workings pile up.
#[derive(Drop)]
pub struct Worked<S> {
    pub below: S,
    pub working: Working,
}

impl<S: Source> Source for Worked<S> {
    type K = S::K;

    ghost means = { λ s. work s.working (S.Source.means s.below) };

    ghost sound = { λ s. work_sound s.working (S.Source.means s.below) (S.Source.sound s.below) };

    fn survey(&self) -> Result<Survey, Fault> {
        let s = climb(self.below.survey())?;
        self.working.after(s)
    }

    // Its own faults are tested before the source below draws, since a refused draw writes nothing.
    fn draw(&self, buffer: &mut [S::K]) -> Result<Survey, Fault> {
        let s = climb(self.below.survey())?;
        let t = self.working.after(s)?;
        t.fitting(buffer.len())?;
        climb(self.below.draw(buffer))?;
        self.working.apply(buffer, s.degree)?;
        Ok(t)
    }
}
