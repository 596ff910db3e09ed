// Points and chords of the isoparametric curves of patches, held against every exact surface that the patch may stand for.
// The buffers are lent one by one, as the point call and flattening take them.
#![tactic(auto)]

pub mod isoparametric;

ghost use Rattle.surfaces.specs.Refutations.{SurfaceRefutations};
ghost use Rattle.surfaces.specs.Bounds.{SurfaceAccuracy};

use points::kind::Kind;

// The accuracy over patches, for every kind of point: what is promised of a point or a chord of any pile of workings over a cut is true to every surface that follows the patch.
pub fn surface_accuracy<K: Kind>()
    ensures { SurfaceAccuracy K.width }
{}

// The statements on surfaces are not empty: a patch follows itself, and lazy answers are refuted by them alone. With the worked cut of the rules.
pub fn surface_refutations()
    ensures { SurfaceRefutations }
{}
