use flattening::chords::flatten;
use sources::memory::InMemory;
use tables::listing::{Axes, Placed};
use tables::made::{Made, first, points};

// The most points of a line, one more than a polygon has; values of more are left out.
const POINTS: usize = 18;

// The most vertices that a flattening can have.
pub const MOST: usize = 4097;

// The places that its working buffer needs for a polygon in memory.
pub const WORKING: usize = 221;

// The chords of the polygon that the values are, or the refusal. A trial of another call lists its own: one function for both would take the call, what
// stands between parameter and point, and how a refusal is printed.
pub fn list_chords<K: Made>(
    rt: &HostRuntime,
    values: &[i32],
    tolerance: u16,
    working: &mut [K],
    vertices: &mut [K],
) -> anyhow::Result<()> {
    let polygon: Vec<K> = points(rt.alloc(), first::<K>(values, POINTS))?;
    let source = InMemory {
        points: polygon.as_slice(),
        allowance: 0,
    };
    let mut parameters = vec![in rt.alloc(); 0u16; MOST]?;
    match flatten(
        &source,
        tolerance,
        working,
        vertices,
        parameters.as_mut_slice(),
    ) {
        Ok(count) => {
            println!(rt; "{count} vertices")?;
            for (p, t) in vertices.iter().take(count).zip(parameters.iter()) {
                println!(rt; "{t}{}", Axes(p))?;
            }
        }
        Err(f) => println!(rt; "{}", Placed(f))?,
    }
    Ok(())
}
