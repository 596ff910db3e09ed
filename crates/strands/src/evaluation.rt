ghost use Rattle.std.specs.Prelude.{◌≡◌, length};
ghost use Rattle.polygons.specs.Buffers.{Puts};
ghost use Rattle.polygons.specs.Constructions.{right_part_at};
ghost use Rattle.sources.specs.Points.{seen};
ghost use Rattle.strands.specs.States.{state, polygon, strand_point, outcome};
ghost use Rattle.strands.specs.Histories.{AccurateAfter};

use crate::strand::Strand;
use points::fault::{Fault, test_places};
use points::kind::Kind;
use points::parameter::Parameter;
use polygons::subdivision::right;

impl Strand {
    // The point at t together with its allowance. The second buffer then starts with the right part at t; the strand and its buffer stay.
    pub fn point<K: Kind>(
        &self,
        t: Parameter,
        buffer: &[K],
        second: &mut [K],
    ) -> Result<(K, u32), Fault>
        ensures answer { seen K.coord result ≡ strand_point K.coord t (state self.now buffer.now) (length second.old) }
        ensures second { Puts K.coord (right_part_at t (polygon K.coord (state self.now buffer.now))) (outcome result) second.old second.new }
        ensures accurate { AccurateAfter K.coord K.width (state self.now buffer.now) t (seen K.coord result) }
    {
        t.weight()?;
        let n = self.degree + 1;
        test_places(n, buffer.len().min(second.len()))?;
        second[..n].copy_from_slice(&buffer[..n]);
        right(&mut second[..n], t)?;
        // A degree is at most 16, so its cast keeps it; `try_from` would want an answer for a refusal that never comes.
        Ok((second[0], u32::from(self.allowance) + self.degree as u32))
    }
}
