use points::height::Height;
use points::kind::Kind;
use points::sample::Sample;
use points::weight::Weight;
use std::test::Fail;

fn mixed(p: i32, q: i32, num: u16, den: u16) -> Result<Height, Fail> {
    Ok(Height::mix(Height { z: p }, Height { z: q }, Weight::new(num, den)?))
}

// Halves round up, and nothing rounds towards zero.
#[test]
fn mixed_by_a_half(rt: HostRuntime) -> Result<(), Fail> {
    assert_eq!(rt; mixed(0, 1, 1, 2)?, Height { z: 1 });
    assert_eq!(rt; mixed(0, -1, 1, 2)?, Height { z: 0 });
    assert_eq!(rt; mixed(0, -2, 1, 2)?, Height { z: -1 });
    assert_eq!(rt; mixed(-2147483648, 2147483647, 1, 2)?, Height { z: 0 });
    assert_eq!(rt; mixed(2147483647, -2147483648, 1, 2)?, Height { z: 0 });
    Ok(())
}

#[test]
fn mixed_by_other_weights(rt: HostRuntime) -> Result<(), Fail> {
    assert_eq!(rt; mixed(-7, 5, 0, 3)?, Height { z: -7 });
    assert_eq!(rt; mixed(-7, 5, 3, 3)?, Height { z: 5 });
    assert_eq!(rt; mixed(0, -10, 1, 3)?, Height { z: -3 });
    assert_eq!(rt; mixed(0, -10, 2, 3)?, Height { z: -7 });
    assert_eq!(rt;
        mixed(2147483647, -2147483648, 1, 32768)?,
        Height { z: 2147352575 }
    );
    Ok(())
}

// A stored press over 4,095 is compared, and mixed, as 4,095.
#[test]
fn press_counts_up_to_its_limit(rt: HostRuntime) -> Result<(), Fail> {
    let hard = Sample {
        x: 1,
        y: 2,
        press: 65535,
    };
    let limit = Sample {
        x: 1,
        y: 2,
        press: 4095,
    };
    assert_eq!(rt; hard, limit);
    assert_ne!(rt;
        limit,
        Sample {
            x: 1,
            y: 2,
            press: 4094,
        }
    );
    let w = Weight::new(1, 2)?;
    assert_eq!(rt;
        Sample::mix(
            hard,
            Sample {
                x: 1,
                y: 2,
                press: 0,
            },
            w,
        ),
        Sample {
            x: 1,
            y: 2,
            press: 2048,
        }
    );
    assert_eq!(rt; hard.axis(2), 4095);
    assert_eq!(rt; hard.axis(3), 0);
    Ok(())
}
