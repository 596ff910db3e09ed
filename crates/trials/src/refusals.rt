use crate::table::HALF;
use points::fault::{Fault, Refusal};
use points::height::Height;
use points::parameter::Parameter;
use points::sample::Sample;
use points::weight::Weight;
use polygons::elevation::raise;
use polygons::flatness::flat_test;
use polygons::level::level;
use polygons::reversal::turn;
use polygons::subdivision::{left, right};
use std::process::Abort;
use std::test::Fail;

const NINE: Height = Height { z: 9 };

// A refusal with its number, its storey and its place. The tests have the numbers of the rules.
pub fn refused_at<T: Drop>(
    rt: &impl Abort,
    r: Result<T, Fault>,
    number: u8,
    storey: u8,
    place: usize,
) -> Result<(), Fail> {
    let Err(f) = r else {
        return Err(Fail::new("not refused"));
    };
    assert_eq!(rt;
        (u8::from(f.refusal), f.storey, f.place),
        (number, storey, place)
    );
    Ok(())
}

// A refusal of a call itself, on storey 0.
pub fn refused<T: Drop>(
    rt: &impl Abort,
    r: Result<T, Fault>,
    number: u8,
    place: usize,
) -> Result<(), Fail> {
    refused_at(rt, r, number, 0, place)
}

#[test]
fn parts_are_refused(rt: HostRuntime) -> Result<(), Fail> {
    let mut polygon = [NINE; 18];
    refused(&rt, left(&mut polygon[0..1], HALF), 3, 1)?;
    refused(
        &rt,
        left(&mut polygon[0..1], Parameter { a: 0, k: 16 }),
        1,
        0,
    )?;
    refused(&rt, level(&mut polygon, Parameter { a: 0, k: 0 }), 3, 18)?;
    refused(
        &rt,
        right(&mut polygon[0..3], Parameter { a: 3, k: 1 }),
        1,
        0,
    )?;
    refused(&rt, right(&mut polygon[0..0], HALF), 3, 0)?;
    refused(&rt, turn(&mut polygon), 3, 18)?;
    refused(&rt, flat_test(&polygon[0..1], 0), 3, 1)?;
    assert_eq!(rt; polygon, [NINE; 18]);
    Ok(())
}

#[test]
fn raises_are_refused(rt: HostRuntime) -> Result<(), Fail> {
    let mut buffer = [NINE; 18];
    refused(&rt, raise(&mut buffer, 17), 3, 17)?;
    refused(&rt, raise(&mut buffer, 1), 3, 1)?;
    refused(&rt, raise(&mut buffer[0..3], 3), 2, 4)?;
    refused(&rt, raise(&mut buffer[0..17], 17), 3, 17)?;
    refused(&rt, raise(&mut buffer[0..2], 5), 2, 6)?;
    assert_eq!(rt; buffer, [NINE; 18]);
    Ok(())
}

#[test]
fn numbers_are_refused(rt: HostRuntime) -> Result<(), Fail> {
    refused(&rt, Weight::new(1, 0), 1, 0)?;
    refused(&rt, Weight::new(2, 1), 1, 0)?;
    refused(&rt, Weight::new(32769, 32769), 1, 0)?;
    refused(&rt, Sample::new(0, 0, 4096), 8, 4096)?;
    refused(&rt, Sample::new(0, 0, 65535), 8, 65535)?;
    assert!(rt; Weight::new(32768, 32768).is_ok());
    assert!(rt; Sample::new(0, 0, 4095).is_ok());
    Ok(())
}
