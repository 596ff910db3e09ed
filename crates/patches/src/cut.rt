ghost use Rattle.std.specs.Prelude.{◌≡◌};
ghost use Rattle.patches.specs.Nets.{net_of, cut_of};
ghost use Rattle.patches.specs.Sounds.{cut_sound};
ghost use Rattle.patches.specs.Surfaces.{CutStands};

use crate::columns::Grid;
use crate::patch::Patch;
use points::fault::{Fault, Refusal};
use points::kind::Kind;
use points::parameter::Parameter;
use polygons::size::test_range;
use sources::source::Source;
use workings::survey::{Survey, add_charge};

// The cut of a patch at a parameter, its isoparametric curve there: point j is the point at `at` of column j.
#[derive_where(Clone, Copy)]
pub struct Cut<'a, K> {
    pub patch: Patch<'a, K>,
    pub at: Parameter,
}

impl<'a, K: Kind> Source for Cut<'a, K> {
    type K = K;

    ghost means = { λ s. cut_of s.at (net_of K.Kind.coord s.patch) };

    ghost sound = { λ s. cut_sound s.at (net_of K.Kind.coord s.patch) };

    fn survey(&self) -> Result<Survey, Fault> {
        // It tests 1 for the parameter, 3 for m, 3 for n, 10, then 4.
        let Patch {
            points,
            m,
            n,
            allowance,
        } = self.patch;
        self.at.weight()?;
        test_range(m, 1, 16)?;
        test_range(n, 1, 16)?;
        let grid = (m + 1) * (n + 1);
        if points.len() != grid {
            return Err(Fault::new(Refusal::Grid, grid));
        }
        let charged = add_charge(allowance, m)?;
        Ok(Survey {
            degree: n,
            allowance: charged,
            reach: n + 1 + m,
        })
    }

    fn draw(&self, buffer: &mut [K]) -> Result<Survey, Fault> {
        let s = self.survey()?.fitting(buffer.len())?;
        let Patch { points, m, n, .. } = self.patch;
        Grid { points, m, n }.draw(self.at, buffer);
        Ok(s)
    }
}

impl<'a, K: Kind> Patch<'a, K> {
    // The cut at s, a source. It stands, among others, for the isoparametric curve at s of every patch drawing within half of the patch's allowance of its points.
    pub fn cut(&self, s: Parameter) -> Cut<'a, K>
        ensures cut { (net_of K.coord result.patch ≡ net_of K.coord self.now) × (result.at ≡ s) }
        ensures stands { CutStands K.width (net_of K.coord self.now) s }
    {
        Cut {
            patch: *self,
            at: s,
        }
    }
}
