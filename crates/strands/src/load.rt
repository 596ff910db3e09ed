ghost use Rattle.std.specs.Prelude.{◌≡◌, length};
ghost use Rattle.sources.specs.Meaning.{Laid};
ghost use Rattle.strands.specs.States.{numbers, load_of};
ghost use Rattle.strands.specs.Histories.{Begins};

use crate::strand::Strand;
use points::fault::Fault;
use sources::source::Source;

impl Strand {
    // Draws a source onto a buffer; it refuses as draw does.
    pub fn load<S: Source>(source: &S, buffer: &mut [S::K]) -> Result<Strand, Fault>
        ensures answer { numbers result ≡ load_of (S.means source.now) (length buffer.old) }
        ensures laid { Laid S.K.Kind.coord (S.means source.now) buffer.old buffer.new }
        ensures begins { Begins S.K.Kind.coord (S.means source.now) buffer.new result }
    {
        let s = source.draw(buffer)?;
        Ok(Strand {
            degree: s.degree,
            allowance: s.allowance,
        })
    }
}
