ghost use Rattle.std.specs.Prelude.{◌≡◌, map, length};
ghost use Rattle.sources.specs.Meaning.{Laid};
ghost use Rattle.sources.specs.Points.{point_of, pointed, seen};
ghost use Rattle.sources.specs.Accuracy.{AccurateOver};
ghost use Rattle.flattening.specs.Flattening.{flatten_of, Freed, vertices_of, parameters_of, PutsFirst};
ghost use Rattle.flattening.specs.Chords.{ChordBound};
ghost use Rattle.patches.specs.Nets.{net_of, cut_of};
ghost use Rattle.surfaces.specs.Bounds.{OnSurface, ChordsOnSurface};

use flattening::chords::flatten;
use patches::patch::Patch;
use points::fault::Fault;
use points::kind::Kind;
use points::parameter::Parameter;
use sources::evaluation::point;

// The point at t of the isoparametric curve at s of a patch, with its allowance: the point call on the cut at s. On every axis it is off the surface at s and t by at most half of that
// allowance, whichever patch drawing within half of the patch's allowance was meant.
pub fn isoparametric_point<K: Kind>(
    patch: &Patch<K>,
    s: Parameter,
    t: Parameter,
    buffer: &mut [K],
) -> Result<(K, u32), Fault>
    ensures answer { seen K.coord result ≡ point_of t (cut_of s (net_of K.coord patch.now)) (length buffer.old) }
    ensures laid { Laid K.coord (pointed t (cut_of s (net_of K.coord patch.now))) buffer.old buffer.new }
    ensures accurate { AccurateOver K.width (cut_of s (net_of K.coord patch.now)) t (seen K.coord result) }
    ensures surface { OnSurface K.width (net_of K.coord patch.now) s t (seen K.coord result) }
{
    point(&patch.cut(s), t, buffer)
}

// Flattens the isoparametric curve at s of a patch: flatten on the cut at s. Between two vertices the straight chord is off the surface along that curve by at most the tolerance and half
// the piece's allowance, whichever patch drawing within half of the patch's allowance was meant.
pub fn isoparametric_flatten<K: Kind>(
    patch: &Patch<K>,
    s: Parameter,
    tolerance: u16,
    working: &mut [K],
    points: &mut [K],
    parameters: &mut [u16],
) -> Result<usize, Fault>
    ensures answer { result ≡ flatten_of K.width (λ _. tolerance) (cut_of s (net_of K.coord patch.now)) (length working.old) (length points.old) (length parameters.old) }
    ensures working { Freed (cut_of s (net_of K.coord patch.now)) working.old working.new }
    ensures points { PutsFirst K.coord (vertices_of K.width (λ _. tolerance) (cut_of s (net_of K.coord patch.now))) result points.old points.new }
    ensures parameters { PutsFirst (λ t. t) (parameters_of K.width (λ _. tolerance) (cut_of s (net_of K.coord patch.now))) result parameters.old parameters.new }
    ensures chords { ChordBound K.width (λ _. tolerance) (cut_of s (net_of K.coord patch.now)) result (map K.coord points.new) parameters.new }
    ensures surface { ChordsOnSurface K.width (λ _. tolerance) (net_of K.coord patch.now) s result (map K.coord points.new) parameters.new }
{
    flatten(&patch.cut(s), tolerance, working, points, parameters)
}
