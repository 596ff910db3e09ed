use crate::refusals::refused_at;
use crate::table::{HALF, starts};
use points::fault::{Fault, Refusal};
use points::height::Height;
use points::parameter::Parameter;
use points::planar::Planar;
use sources::climbing::climb;
use sources::evaluation::{coordinate, point};
use sources::memory::InMemory;
use sources::source::Source;
use sources::worked::Worked;
use std::test::Fail;
use tables::made::fill;
use workings::survey::Survey;
use workings::working::Working;

const ORIGIN: Planar = Planar { x: 0, y: 0 };

const BOW: [Planar; 3] = [ORIGIN, Planar { x: 4, y: 8 }, Planar { x: 8, y: 0 }];

const HILL: [Height; 3] = [Height { z: 0 }, Height { z: 5 }, Height { z: 7 }];

fn over<S>(below: S, working: Working) -> Worked<S> {
    Worked { below, working }
}

#[test]
fn points_of_the_bow(rt: HostRuntime) -> Result<(), Fail> {
    let bow = InMemory {
        points: &BOW,
        allowance: 0,
    };
    let mut buffer = [ORIGIN; 3];
    assert_eq!(rt;
        point(&bow, Parameter { a: 0, k: 0 }, &mut buffer)?,
        (ORIGIN, 2)
    );
    assert_eq!(rt; point(&bow, HALF, &mut buffer)?, (Planar { x: 4, y: 4 }, 2));
    assert_eq!(rt;
        point(&bow, Parameter { a: 1, k: 2 }, &mut buffer)?,
        (Planar { x: 2, y: 3 }, 2)
    );
    assert_eq!(rt;
        point(&bow, Parameter { a: 1, k: 0 }, &mut buffer)?,
        (Planar { x: 8, y: 0 }, 2)
    );
    assert_eq!(rt; coordinate(&bow, HALF, 1, &mut buffer)?, (4, 2));
    starts(&rt, &buffer, &[4, 4, 6, 4, 8, 0])?;
    refused_at(
        &rt,
        point(&bow, Parameter { a: 3, k: 1 }, &mut buffer[0..0]),
        1,
        0,
        0,
    )?;
    refused_at(&rt, point(&bow, HALF, &mut buffer[0..2]), 2, 0, 3)
}

#[test]
fn worn_at_the_last_unit(rt: HostRuntime) -> Result<(), Fail> {
    let taken = over(
        InMemory {
            points: &HILL,
            allowance: 65533,
        },
        Working::Left(HALF),
    );
    assert_eq!(rt;
        taken.survey()?,
        Survey {
            degree: 2,
            allowance: 65535,
            reach: 3,
        }
    );
    let mut buffer = [Height { z: 9 }; 4];
    taken.draw(&mut buffer)?;
    starts(&rt, &buffer, &[0, 3, 5, 9])?;
    assert_eq!(rt; point(&taken, HALF, &mut buffer)?, (Height { z: 3 }, 65537));
    let worn = over(
        InMemory {
            points: &HILL,
            allowance: 65534,
        },
        Working::Left(HALF),
    );
    refused_at(&rt, worn.survey(), 4, 0, 2)?;
    refused_at(&rt, over(worn, Working::Turn).survey(), 4, 1, 2)
}

#[test]
fn a_pile_over_a_quarter_circle(rt: HostRuntime) -> Result<(), Fail> {
    let mut points = [ORIGIN; 4];
    fill(&mut points, &[2560, 0, 2560, 1414, 1414, 2560, 0, 2560]);
    let trimmed = over(
        InMemory {
            points: &points,
            allowance: 1,
        },
        Working::Left(Parameter { a: 3, k: 2 }),
    );
    let raised = over(trimmed, Working::Raise);
    let pile = over(
        over(raised, Working::Right(Parameter { a: 1, k: 2 })),
        Working::Turn,
    );
    assert_eq!(rt;
        pile.survey()?,
        Survey {
            degree: 4,
            allowance: 9,
            reach: 5,
        }
    );
    let mut buffer = [ORIGIN; 5];
    pile.draw(&mut buffer)?;
    starts(
        &rt,
        &buffer,
        &[997, 2360, 1514, 2141, 1954, 1776, 2277, 1304, 2445, 762],
    )?;
    assert_eq!(rt;
        point(&pile, HALF, &mut buffer)?,
        (Planar { x: 1896, y: 1724 }, 13)
    );
    assert_eq!(rt;
        point(&pile, Parameter { a: 5, k: 3 }, &mut buffer)?,
        (Planar { x: 2070, y: 1509 }, 13)
    );
    refused_at(&rt, pile.draw(&mut buffer[0..4]), 2, 0, 5)
}

#[test]
fn faults_climb(rt: HostRuntime) -> Result<(), Fail> {
    let few = InMemory {
        points: &HILL[0..1],
        allowance: 0,
    };
    let three = over(
        over(over(few, Working::Turn), Working::Raise),
        Working::Left(HALF),
    );
    refused_at(&rt, three.survey(), 3, 3, 1)?;
    let bad = Working::Left(Parameter { a: 3, k: 1 });
    let low = over(
        over(
            over(
                InMemory {
                    points: &HILL,
                    allowance: 0,
                },
                bad,
            ),
            Working::Raise,
        ),
        Working::Turn,
    );
    refused_at(&rt, low.survey(), 1, 2, 0)?;
    let mut buffer = [Height { z: 9 }; 2];
    refused_at(&rt, low.draw(&mut buffer), 1, 2, 0)?;
    assert_eq!(rt; buffer, [Height { z: 9 }; 2]);
    Ok(())
}

// Storeys stop at 255.
#[test]
fn storeys_stop(rt: HostRuntime) -> Result<(), Fail> {
    let first: Result<u8, Fault> = Err(Fault::new(Refusal::Degree, 1));
    let fault = (0..300u16).fold(first, |fault, _| climb(fault));
    refused_at(&rt, fault, 3, 255, 1)?;
    assert_eq!(rt; climb(Ok(7))?, 7);
    Ok(())
}

#[test]
fn raised_to_the_highest_degree(rt: HostRuntime) -> Result<(), Fail> {
    let mut points = [Height { z: 0 }; 16];
    fill(
        &mut points,
        &[
            0, 67, 133, 200, 267, 333, 400, 467, 533, 600, 667, 733, 800, 867, 933, 1000,
        ],
    );
    let once = over(
        InMemory {
            points: &points,
            allowance: 0,
        },
        Working::Raise,
    );
    assert_eq!(rt;
        once.survey()?,
        Survey {
            degree: 16,
            allowance: 1,
            reach: 17,
        }
    );
    let twice = over(once, Working::Raise);
    refused_at(&rt, twice.survey(), 3, 0, 17)
}
