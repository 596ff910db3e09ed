ghost use Rattle.pathfiles.specs.Opened.{says};
ghost use Rattle.pathfiles.specs.Filed.{filed};
ghost use Rattle.pathfiles.specs.Sounds.{filed_sound};

use crate::opened::Opened;
use pathreading::filed::Filed;
use points::fault::Fault;
use points::kind::Kind;
use sources::source::Source;
use workings::survey::Survey;

// An opened file holds its points with the allowance in its head; its reach is the number of points. The workings that it lists are not applied.
impl<'a, K: Filed> Source for Opened<'a, K> {
    type K = K;

    ghost means = { λ o. filed (says K.Filed.kind o) };

    ghost sound = { λ o. filed_sound K.Filed.kind o };

    fn survey(&self) -> Result<Survey, Fault> {
        self.check()?;
        Survey::of_points(usize::from(self.point_count()), self.allowance())
    }

    fn draw(&self, buffer: &mut [K]) -> Result<Survey, Fault> {
        let s = self.survey()?.fitting(buffer.len())?;
        self.points(buffer)?;
        Ok(s)
    }
}
