use crate::tried::Tried;
use anyhow::anyhow;
use patches::patch::Patch;
use points::kind::{Kind, same};
use points::parameter::Parameter;
use sources::source::Source;
use sources::worked::Worked;
use std::io;
use surfaces::isoparametric::{isoparametric_flatten, isoparametric_point};
use tables::listing::{Axes, Storeyed};
use tables::made::{Made, first, points};
use workings::working::Working;

// The most points of a patch, and one more for a patch of too many; values of more are left out.
const PATCH: usize = 290;

// The most places of a buffer.
const PLACES: usize = 40;

// The places that flattening needs for any cut.
pub const WORKING: usize = 221;

// The most vertices that a flattening can have.
pub const MOST: usize = 4097;

// How many of the places from one on hold the mark.
fn marked<K: Kind>(places: &[K], from: usize, mark: &K) -> usize {
    places.iter().skip(from).filter(|p| same(*p, mark)).count()
}

// The points of a polygon, a line each.
fn list_polygon<K: Kind>(rt: &impl Print, buffer: &[K], size: usize) -> io::Result<()> {
    for p in buffer.iter().take(size) {
        println!(rt; "{}", Axes(p))?;
    }
    Ok(())
}

// What a source tells, what it draws on a buffer full of marks, and how many places past the reach, or of all when it refuses, still hold the mark.
fn list_source<S: Source>(
    rt: &HostRuntime,
    source: &S,
    places: usize,
    mark: S::K,
) -> anyhow::Result<()> {
    let mut buffer = vec![in rt.alloc(); mark; places]?;
    match source.survey() {
        Ok(s) => {
            println!(rt;
                "degree {} allowance {} reach {}",
                s.degree, s.allowance, s.reach
            )?
        }
        Err(f) => println!(rt; "{}", Storeyed(f))?,
    }
    let kept = match source.draw(buffer.as_mut_slice()) {
        Ok(s) => {
            list_polygon(rt, buffer.as_slice(), s.degree.saturating_add(1))?;
            marked(buffer.as_slice(), s.reach, &mark)
        }
        Err(f) => {
            println!(rt; "{}", Storeyed(f))?;
            marked(buffer.as_slice(), 0, &mark)
        }
    };
    println!(rt; "kept {kept}")?;
    Ok(())
}

// The point at t of the isoparametric curve at s, with its allowance.
fn list_isoparametric_point<K: Made>(
    rt: &HostRuntime,
    patch: &Patch<K>,
    tried: Tried,
) -> anyhow::Result<()> {
    let mut buffer = vec![in rt.alloc(); K::made(&[]); tried.places]?;
    match isoparametric_point(patch, tried.s, tried.t, buffer.as_mut_slice()) {
        Ok((p, allowance)) => println!(rt; "point allowance {allowance}:{}", Axes(&p))?,
        Err(f) => println!(rt; "{}", Storeyed(f))?,
    }
    Ok(())
}

// A vertex after its parameter times 4,096.
fn list_vertex<K: Kind>(rt: &impl Print, t: u16, p: &K) -> io::Result<()> {
    println!(rt; "{t}:{}", Axes(p))
}

// The vertices of the isoparametric curve at s, each after its parameter times 4,096. A trial of another call lists its own: one function for both would
// take the call, what stands between parameter and point, and how a refusal is printed.
fn list_chords<K: Kind>(
    rt: &HostRuntime,
    patch: &Patch<K>,
    tried: Tried,
    working: &mut [K],
    vertices: &mut [K],
) -> anyhow::Result<()> {
    let mut parameters = vec![in rt.alloc(); 0u16; MOST]?;
    match isoparametric_flatten(
        patch,
        tried.s,
        tried.tolerance,
        working,
        vertices,
        parameters.as_mut_slice(),
    ) {
        Ok(count) => {
            println!(rt; "{count} vertices")?;
            for (p, t) in vertices.iter().take(count).zip(parameters.iter()) {
                list_vertex(rt, *t, p)?;
            }
        }
        Err(f) => println!(rt; "{}", Storeyed(f))?,
    }
    Ok(())
}

// All that a line asks of the patch whose points the values are.
pub fn list_patch<K: Made>(
    rt: &HostRuntime,
    tried: Tried,
    values: &[i32],
    working: &mut [K],
    vertices: &mut [K],
) -> anyhow::Result<()> {
    if tried.places > PLACES {
        return Err(anyhow!("more points or places than the program has"));
    }
    let points: Vec<K> = points(rt.alloc(), first::<K>(values, PATCH))?;
    let patch = Patch {
        points: points.as_slice(),
        m: tried.m,
        n: tried.n,
        allowance: tried.allowance,
    };
    let mark = K::made(&[77, 77, 77]);
    list_source(rt, &patch.cut(tried.s), tried.places, mark)?;
    let half = Parameter { a: 1, k: 1 };
    let pile = Worked {
        below: Worked {
            below: patch.cut(tried.s),
            working: Working::Left(half),
        },
        working: Working::Raise,
    };
    list_source(rt, &pile, tried.places, mark)?;
    list_isoparametric_point(rt, &patch, tried)?;
    list_chords(rt, &patch, tried, working, vertices)
}
