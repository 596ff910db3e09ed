ghost use Rattle.std.specs.Prelude.{◌≡◌, length};
ghost use Rattle.sources.specs.Meaning.{Laid};
ghost use Rattle.sources.specs.Points.{point_of, pointed, seen, on_axis};
ghost use Rattle.sources.specs.Accuracy.{AccurateOver};

use crate::source::Source;
use points::fault::Fault;
use points::kind::Kind;
use points::parameter::Parameter;
use polygons::subdivision::right;

// The point at t together with its allowance: on every axis it is off the exact curve by at most half of that. The buffer then starts with the right part at t.
pub fn point<S: Source>(source: &S, t: Parameter, buffer: &mut [S::K]) -> Result<(S::K, u32), Fault>
    ensures answer { seen S.K.Kind.coord result ≡ point_of t (S.means source.now) (length buffer.old) }
    ensures laid { Laid S.K.Kind.coord (pointed t (S.means source.now)) buffer.old buffer.new }
    ensures accurate { AccurateOver S.K.Kind.width (S.means source.now) t (seen S.K.Kind.coord result) }
{
    let s = source.survey()?;
    t.weight()?;
    source.draw(buffer)?;
    right(&mut buffer[..=s.degree], t)?;
    // A degree is at most 16, so its cast keeps it; `try_from` would want an answer for a refusal that never comes.
    Ok((buffer[0], u32::from(s.allowance) + s.degree as u32))
}

// The same on one axis.
pub fn coordinate<S: Source>(
    source: &S,
    t: Parameter,
    axis: usize,
    buffer: &mut [S::K],
) -> Result<(i32, u32), Fault>
    ensures answer { result ≡ on_axis axis (point_of t (S.means source.now) (length buffer.old)) }
    ensures laid { Laid S.K.Kind.coord (pointed t (S.means source.now)) buffer.old buffer.new }
{
    let (p, allowance) = point(source, t, buffer)?;
    Ok((p.axis(axis), allowance))
}
