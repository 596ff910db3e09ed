use points::fault::Fault;
use points::kind::Kind;
use points::parameter::Parameter;
use polygons::elevation::raise;
use polygons::flatness::{Off, flat_test};
use polygons::level::level;
use polygons::reversal::turn;
use polygons::subdivision::{left, right};
use std::io;
use tables::listing::{Listed, Placed};
use tables::made::{Made, first, points};

// The most points of a line, one more than a polygon has; values of more are left out.
const MOST: usize = 18;

// What a call left on a buffer, or its refusal.
fn list_result<K: Kind>(
    rt: &impl Print,
    label: &str,
    r: Result<(), Fault>,
    buffer: &[K],
) -> io::Result<()> {
    match r {
        Ok(()) => println!(rt; "{label}{}", Listed(buffer)),
        Err(f) => println!(rt; "{label} {}", Placed(f)),
    }
}

// What a construction in place makes of the points that the values are.
fn list_worked<K: Made, F: FnOnce(&mut [K]) -> Result<(), Fault>>(
    rt: &HostRuntime,
    label: &str,
    values: &[i32],
    work: F,
) -> anyhow::Result<()>
    requires { F.IsAlwaysCallable work }
{
    let mut polygon: Vec<K> = points(rt.alloc(), values)?;
    let r = work(polygon.as_mut_slice());
    list_result(rt, label, r, polygon.as_slice())?;
    Ok(())
}

fn list_flatness(rt: &impl Print, r: Result<Option<Off>, Fault>) -> io::Result<()> {
    match r {
        Ok(None) => println!(rt; "flat"),
        Ok(Some(off)) => println!(rt; "off at point {} axis {}", off.point, off.axis),
        Err(f) => println!(rt; "flatness {}", Placed(f)),
    }
}

// Every construction on the polygon that the values are.
pub fn list_polygon<K: Made>(
    rt: &HostRuntime,
    values: &[i32],
    t: Parameter,
    tolerance: u16,
) -> anyhow::Result<()> {
    let values = first::<K>(values, MOST);
    list_worked(rt, "level", values, |p: &mut [K]| level(p, t))?;
    list_worked(rt, "left", values, |p: &mut [K]| left(p, t))?;
    list_worked(rt, "right", values, |p: &mut [K]| right(p, t))?;
    list_worked(rt, "turn", values, |p: &mut [K]| turn(p))?;
    let mut buffer: Vec<K> = points(rt.alloc(), values)?;
    list_flatness(rt, flat_test(buffer.as_slice(), tolerance))?;
    let n = buffer.len();
    buffer.resize(n.saturating_add(2), K::made(&[]))?;
    let r = raise(buffer.as_mut_slice(), n);
    buffer.truncate(n.saturating_add(1));
    list_result(rt, "raise", r, buffer.as_slice())?;
    Ok(())
}
