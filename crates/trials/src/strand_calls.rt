use crate::refusals::refused_at;
use crate::table::{HALF, starts};
use jobs::job::run;
use points::height::Height;
use points::parameter::Parameter;
use points::planar::Planar;
use points::sample::Sample;
use sources::memory::InMemory;
use std::process::Abort;
use std::test::Fail;
use strands::strand::Strand;
use tables::made::fill;
use workings::working::Working;

// The strand's two numbers.
fn is(rt: &impl Abort, strand: &Strand, degree: usize, allowance: u16) {
    assert_eq!(rt; strand.degree(), degree);
    assert_eq!(rt; strand.allowance(), allowance);
}

#[test]
fn the_bow_on_four_places(rt: HostRuntime) -> Result<(), Fail> {
    let mut points = [Planar { x: 0, y: 0 }; 3];
    fill(&mut points, &[0, 0, 4, 8, 8, 0]);
    let mut buffer = [Planar { x: 99, y: 99 }; 4];
    let mut strand = Strand::load(
        &InMemory {
            points: &points,
            allowance: 0,
        },
        &mut buffer,
    )?;
    starts(&rt, &buffer, &[0, 0, 4, 8, 8, 0, 99, 99])?;
    strand.left(HALF, &mut buffer)?;
    is(&rt, &strand, 2, 2);
    starts(&rt, &buffer, &[0, 0, 2, 4, 4, 4, 99, 99])?;
    strand.raise(&mut buffer)?;
    starts(&rt, &buffer, &[0, 0, 1, 3, 3, 4, 4, 4])?;
    refused_at(&rt, strand.raise(&mut buffer), 2, 0, 5)?;
    refused_at(
        &rt,
        strand.right(Parameter { a: 3, k: 1 }, &mut buffer),
        1,
        0,
        0,
    )?;
    is(&rt, &strand, 3, 3);
    starts(&rt, &buffer, &[0, 0, 1, 3, 3, 4, 4, 4])?;
    strand.turn(&mut buffer)?;
    starts(&rt, &buffer, &[4, 4, 3, 4, 1, 3, 0, 0])
}

#[test]
fn points_of_a_strand(rt: HostRuntime) -> Result<(), Fail> {
    let mut buffer = [Planar { x: 0, y: 0 }; 4];
    fill(&mut buffer, &[4, 4, 3, 4, 1, 3, 0, 0]);
    let points = buffer;
    let strand = Strand::load(
        &InMemory {
            points: &points,
            allowance: 3,
        },
        &mut buffer,
    )?;
    let mut short = [Planar { x: 77, y: 77 }; 3];
    refused_at(
        &rt,
        strand.point(Parameter { a: 1, k: 16 }, &buffer, &mut short),
        1,
        0,
        0,
    )?;
    refused_at(
        &rt,
        strand.point(Parameter { a: 1, k: 0 }, &buffer, &mut short),
        2,
        0,
        4,
    )?;
    assert_eq!(rt; short, [Planar { x: 77, y: 77 }; 3]);
    let mut second = [Planar { x: 77, y: 77 }; 6];
    refused_at(&rt, strand.point(HALF, &short, &mut second), 2, 0, 4)?;
    assert_eq!(rt;
        strand.point(Parameter { a: 1, k: 2 }, &buffer, &mut second)?,
        (Planar { x: 4, y: 4 }, 6)
    );
    starts(&rt, &second, &[4, 4, 3, 4, 1, 2, 0, 0, 77, 77, 77, 77])?;
    starts(&rt, &buffer, &[4, 4, 3, 4, 1, 3, 0, 0])
}

#[test]
fn a_worn_strand(rt: HostRuntime) -> Result<(), Fail> {
    let mut points = [Height { z: 0 }; 3];
    fill(&mut points, &[0, 5, 7]);
    let mut buffer = [Height { z: 99 }; 5];
    let mut strand = Strand::load(
        &InMemory {
            points: &points,
            allowance: 65533,
        },
        &mut buffer,
    )?;
    strand.right(HALF, &mut buffer)?;
    is(&rt, &strand, 2, 65535);
    refused_at(&rt, strand.right(HALF, &mut buffer), 4, 0, 2)?;
    refused_at(&rt, strand.raise(&mut buffer), 4, 0, 1)?;
    starts(&rt, &buffer, &[5, 6, 7, 99, 99])?;
    strand.turn(&mut buffer)?;
    let mut second = [Height { z: 0 }; 3];
    assert_eq!(rt;
        strand.point(HALF, &buffer, &mut second)?,
        (Height { z: 7 }, 65537)
    );
    starts(&rt, &second, &[7, 6, 5])
}

// A second working does more than the first.
#[test]
fn two_lefts(rt: HostRuntime) -> Result<(), Fail> {
    let mut points = [Height { z: 0 }; 3];
    fill(&mut points, &[0, 0, 100]);
    let mut buffer = [Height { z: 0 }; 3];
    let lefts = [Working::Left(HALF), Working::Left(HALF)];
    let job = run(
        &InMemory {
            points: &points,
            allowance: 0,
        },
        &lefts,
        &mut buffer,
    )?;
    assert_eq!(rt; job.done, 2);
    assert!(rt; job.fault.is_none());
    is(&rt, &job.strand, 2, 4);
    starts(&rt, &buffer, &[0, 0, 7])
}

#[test]
fn a_strand_of_samples(rt: HostRuntime) -> Result<(), Fail> {
    let mut points = [Sample {
        x: 0,
        y: 0,
        press: 0,
    }; 3];
    fill(&mut points, &[0, 0, 9000, 100, 50, 1, 201, -7, 4095]);
    let mut buffer = [Sample {
        x: 99,
        y: 99,
        press: 99,
    }; 4];
    let mut strand = Strand::load(
        &InMemory {
            points: &points,
            allowance: 0,
        },
        &mut buffer,
    )?;
    strand.raise(&mut buffer)?;
    strand.right(Parameter { a: 3, k: 2 }, &mut buffer)?;
    starts(
        &rt,
        &buffer,
        &[150, 15, 2560, 167, 10, 2901, 184, 3, 3413, 201, -7, 4095],
    )?;
    strand.turn(&mut buffer)?;
    let mut second = [Sample {
        x: 0,
        y: 0,
        press: 0,
    }; 4];
    let (p, allowance) = strand.point(HALF, &buffer, &mut second)?;
    assert_eq!(rt;
        p,
        Sample {
            x: 177,
            y: 7,
            press: 3200,
        }
    );
    assert_eq!(rt; allowance, 7);
    Ok(())
}
