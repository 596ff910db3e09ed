ghost use Rattle.std.specs.Prelude.{◌≤◌, map};
ghost use Rattle.sources.specs.Meaning.{in_memory};
ghost use Rattle.sources.specs.Sounds.{memory_sound};

use crate::source::Source;
use points::fault::Fault;
use points::kind::Kind;
use workings::survey::Survey;

// A polygon in memory: points that were given, with the allowance that they are told to have.
#[derive(Drop)]
pub struct InMemory<'a, K> {
    pub points: &'a [K],
    pub allowance: u16,
    ghost small: { allowance ≤ 65535 },
}

impl<'a, K: Kind> Source for InMemory<'a, K> {
    type K = K;

    ghost means = { λ s. in_memory (map K.Kind.coord s.points.now) s.allowance };

    ghost sound = { λ s. memory_sound (map K.Kind.coord s.points.now) s.allowance s.small };

    fn survey(&self) -> Result<Survey, Fault> {
        Survey::of_points(self.points.len(), self.allowance)
    }

    fn draw(&self, buffer: &mut [K]) -> Result<Survey, Fault> {
        let s = self.survey()?.fitting(buffer.len())?;
        buffer[..self.points.len()].copy_from_slice(self.points);
        Ok(s)
    }
}
