use points::kind::Kind;
use points::parameter::Parameter;
use points::planar::Planar;
use std::process::Abort;
use std::test::Fail;
use tables::made::points;

pub const HALF: Parameter = Parameter { a: 1, k: 1 };

// The buffer starts with the points that the values are.
pub fn starts<K: Kind>(rt: &impl Abort, buffer: &[K], values: &[i32]) -> Result<(), Fail> {
    for (p, axes) in buffer.iter().zip(values.chunks(K::axes())) {
        for (a, v) in axes.iter().enumerate() {
            assert_eq!(rt; p.axis(a), *v);
        }
    }
    assert!(rt; values.chunks(K::axes()).count() <= buffer.len());
    Ok(())
}

// Values that are too few for a point more are left out.
#[test]
fn points_of_a_table(rt: HostRuntime) -> Result<(), Fail> {
    let made: Vec<Planar> = points(rt.alloc(), &[1, 2, 3, 4, 5])?;
    let wanted = [Planar { x: 1, y: 2 }, Planar { x: 3, y: 4 }];
    assert_eq!(rt; made.as_slice(), wanted.as_slice());
    Ok(())
}
