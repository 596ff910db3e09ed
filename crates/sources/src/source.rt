ghost use Rattle.std.specs.Prelude.{◌≡◌, length};
ghost use Rattle.sources.specs.Meaning.{Meaning, Sound, survey_of, draw_of, Laid};

use points::fault::Fault;
use points::kind::Kind;
use workings::survey::Survey;

// Where control polygons come from. A source means a fault, or a polygon with its allowance and its reach; anyone can add one by showing these two calls for its meaning.
pub trait Source {
    type K: Kind;

    ghost means: { Self → Meaning };

    ghost sound: { (s : Self) → Sound (means s) };

    // The degree, the allowance and the reach, or the fault.
    fn survey(&self) -> Result<Survey, Fault>
        ensures { result ≡ survey_of (means self.now) };

    // Puts the polygon first on the buffer. Places from there up to the reach are free, later ones stay; a refused draw writes nothing.
    fn draw(&self, buffer: &mut [Self::K]) -> Result<Survey, Fault>
        ensures answer { result ≡ draw_of (means self.now) (length buffer.old) }
        ensures laid { Laid Self.K.Kind.coord (means self.now) buffer.old buffer.new };
}
