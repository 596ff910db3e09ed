ghost use Rattle.std.specs.Prelude.{◌≡◌, Decides};
ghost use Rattle.samepath.specs.Same.{SameWorking, Pairwise, SamePath, Equivalence, SameSaid, SayBoth};

use crate::numbers::same_working;
use pathfiles::opened::Opened;
use pathreading::filed::Filed;
use points::kind::{Kind, same};

// Points and workings are two calls of `all`: one function for both would take counts, items and comparison as closures, and be no shorter.
fn same_points<K: Filed>(a: &Opened<K>, b: &Opened<K>) -> bool
    ensures { SayBoth K.kind a.now b.now (λ f g. Decides result (Pairwise (λ x y. x ≡ y) f.points g.points)) }
{
    let n = a.point_count();
    n == b.point_count()
        && (0..n).all(|i| match (a.point(i), b.point(i)) {
            (Some(p), Some(q)) => same(&p, &q),
            _ => false,
        })
}

fn same_workings<K: Filed>(a: &Opened<K>, b: &Opened<K>) -> bool
    ensures { SayBoth K.kind a.now b.now (λ f g. Decides result (Pairwise SameWorking f.workings g.workings)) }
{
    let n = a.working_count();
    n == b.working_count()
        && (0..n).all(|i| match (a.working(i), b.working(i)) {
            (Some(v), Some(w)) => same_working(v, w),
            _ => false,
        })
}

// Whether two files, opened as one kind, are the same path: points and workings agree, parameters compared as numbers, whatever their names and allowances.
pub fn same_path<K: Filed>(a: &Opened<K>, b: &Opened<K>) -> bool
    ensures decides { Decides result (SameSaid K.kind a.now b.now) }
    ensures equivalence { Equivalence SamePath }
{
    let Ok(()) = a.check() else {
        return false;
    };
    let Ok(()) = b.check() else {
        return false;
    };
    same_points(a, b) && same_workings(a, b)
}
