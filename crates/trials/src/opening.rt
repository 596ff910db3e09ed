use crate::refusals::refused;
use pathfiles::opened::Opened;
use pathfiles::opening::open;
use points::fault::Fault;
use points::height::Height;
use points::parameter::Parameter;
use points::planar::Planar;
use points::sample::Sample;
use std::alloc::AllocError;
use std::process::Abort;
use std::test::Fail;
use workings::working::Working;

// Three planar points (0,0), (4,8), (8,0), the name bow, allowance 0, and the left part at 1/2.
const BOW: &[u8; 42] =
    b"\0\x03\x02\0\0\0\x03bow\0\x03\0\0\0\0\0\0\0\0\0\0\0\x04\0\0\0\x08\0\0\0\x08\0\0\0\0\0\x01L\x01\0\x01";

// Where a bow that is cut to so many bytes is refused: at the field that is not whole.
const CUT_AT: [usize; 42] = [
    0, 0, 2, 3, 3, 5, 5, 7, 7, 7, 10, 10, 12, 12, 12, 12, 16, 16, 16, 16, 20, 20, 20, 20, 24, 24,
    24, 24, 28, 28, 28, 28, 32, 32, 32, 32, 36, 36, 38, 39, 40, 40,
];

// A change of one or two bytes of the bow: where it is, its first byte and its second, if two are changed, then the number and the place of the
// refusal that it gives, if it does not open still.
#[derive(Clone, Copy)]
struct Change(usize, u8, Option<u8>, Option<(u8, usize)>);

#[test]
fn bow_opens(rt: HostRuntime) -> Result<(), Fail> {
    let path: Opened<Planar> = open(BOW)?;
    assert_eq!(rt; path.name(), b"bow".as_slice());
    assert_eq!(rt; path.allowance(), 0);
    let mut points = [Planar { x: 9, y: 9 }; 4];
    assert_eq!(rt; path.points(&mut points)?, 3);
    assert_eq!(rt;
        points,
        [
            Planar { x: 0, y: 0 },
            Planar { x: 4, y: 8 },
            Planar { x: 8, y: 0 },
            Planar { x: 9, y: 9 },
        ]
    );
    let mut workings = [Working::Turn; 2];
    assert_eq!(rt; path.workings(&mut workings)?, 1);
    assert_eq!(rt;
        workings,
        [Working::Left(Parameter { a: 1, k: 1 }), Working::Turn]
    );
    refused(&rt, path.points(&mut points[0..2]), 2, 3)?;
    refused(&rt, path.workings(&mut workings[0..0]), 2, 1)
}

// Code for any kind that copies keeps an opened file without knowing how its points read.
fn kept<'a, K: Copy>(path: &Opened<'a, K>) -> Result<Opened<'a, K>, AllocError> {
    path.clone()
}

#[test]
fn opened_files_of_any_kind_are_kept(rt: HostRuntime) -> Result<(), Fail> {
    let path: Opened<Planar> = open(BOW)?;
    let copy = kept(&path)?;
    assert_eq!(rt; copy.name(), b"bow".as_slice());
    assert_eq!(rt; copy.point(1), Some(Planar { x: 4, y: 8 }));
    assert_eq!(rt; copy.point(3), None);
    Ok(())
}

#[test]
fn cut_files_are_refused(rt: HostRuntime) -> Result<(), Fail> {
    let bow: &[u8] = BOW;
    for (n, place) in CUT_AT.iter().enumerate() {
        let r: Result<Opened<Planar>, Fault> = open(&bow[0..n]);
        refused(&rt, r, 6, *place)?;
    }
    Ok(())
}

fn try_change(rt: &impl Abort, change: &Change) -> Result<(), Fail> {
    let Change(at, first, second, refusal) = *change;
    let mut file = *BOW;
    if at > 40 {
        return Err(Fail::new("a change past the file"));
    }
    file[at] = first;
    if let Some(b) = second {
        file[at + 1] = b;
    }
    let r: Result<Opened<Planar>, Fault> = open(&file);
    let Some((number, place)) = refusal else {
        assert!(rt; r.is_ok());
        return Ok(());
    };
    refused(rt, r, number, place)
}

#[test]
fn counts_are_tested(rt: HostRuntime) -> Result<(), Fail> {
    let changes = [
        Change(0, 0, Some(2), Some((5, 0))),
        Change(0, 0, Some(4), Some((5, 0))),
        Change(0, 1, Some(3), Some((5, 0))),
        Change(2, 0, None, Some((5, 2))),
        Change(2, 4, None, Some((5, 2))),
        Change(3, 255, Some(255), None),
        Change(5, 0, Some(64), Some((6, 7))),
        Change(5, 0, Some(65), Some((12, 5))),
        Change(5, 0, Some(35), Some((6, 42))),
        Change(5, 0, Some(0), Some((3, 7))),
        Change(10, 0, Some(0), Some((3, 10))),
        Change(10, 0, Some(1), Some((3, 10))),
        Change(10, 0, Some(2), Some((7, 30))),
        Change(10, 0, Some(17), Some((6, 40))),
        Change(10, 0, Some(18), Some((3, 10))),
        Change(36, 0, Some(0), Some((7, 38))),
        Change(36, 0, Some(2), Some((6, 42))),
        Change(36, 1, Some(0), Some((6, 42))),
        Change(36, 1, Some(1), Some((12, 36))),
    ];
    for c in &changes {
        try_change(&rt, c)?;
    }
    Ok(())
}

#[test]
fn workings_are_tested(rt: HostRuntime) -> Result<(), Fail> {
    let changes = [
        Change(38, 108, None, Some((11, 38))),
        Change(38, 85, None, Some((7, 39))),
        Change(38, 84, None, Some((7, 39))),
        Change(38, 82, None, None),
        Change(38, 255, None, Some((11, 38))),
        Change(39, 0, None, None),
        Change(39, 15, None, None),
        Change(39, 16, None, Some((1, 39))),
        Change(39, 255, None, Some((1, 39))),
        Change(40, 0, Some(2), None),
        Change(40, 0, Some(3), Some((1, 39))),
    ];
    for c in &changes {
        try_change(&rt, c)?;
    }
    Ok(())
}

#[test]
fn other_kinds_are_foreign(rt: HostRuntime) -> Result<(), Fail> {
    let heights: Result<Opened<Height>, Fault> = open(BOW);
    refused(&rt, heights, 5, 2)?;
    let samples: Result<Opened<Sample>, Fault> = open(BOW);
    refused(&rt, samples, 5, 2)
}

// Longer than any file may be, and as long as it may be with bytes left over.
#[test]
fn long_files_are_refused(rt: HostRuntime) -> Result<(), Fail> {
    let mut file = BOW.to_vec(rt.alloc())?;
    file.resize(65535, 0)?;
    let most: Result<Opened<Planar>, Fault> = open(file.as_slice());
    refused(&rt, most, 7, 42)?;
    file.push(0)?;
    let more: Result<Opened<Planar>, Fault> = open(file.as_slice());
    refused(&rt, more, 12, 0)
}

// A sample's press is two bytes of its point, at most 4,095.
#[test]
fn press_is_tested(rt: HostRuntime) -> Result<(), Fail> {
    let mut file = [
        0, 3, 3, 0, 0, 0, 0, 0, 2, 0, 0, 0, 1, 0, 0, 0, 2, 15, 255, 255, 255, 255, 255, 255, 255,
        255, 254, 0, 0, 0, 0,
    ];
    let path: Opened<Sample> = open(&file)?;
    let mut points = [Sample {
        x: 0,
        y: 0,
        press: 0,
    }; 2];
    assert_eq!(rt; path.points(&mut points)?, 2);
    assert_eq!(rt;
        points,
        [
            Sample {
                x: 1,
                y: 2,
                press: 4095,
            },
            Sample {
                x: -1,
                y: -2,
                press: 0,
            },
        ]
    );
    file[17] = 16;
    let r: Result<Opened<Sample>, Fault> = open(&file);
    refused(&rt, r, 8, 17)
}
