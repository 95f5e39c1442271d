//! What each copy of a table is, whether or not it decides.

use super::images::Row::{Erased, First, Forgotten, Free, Member, Newer, Second};
use super::images::{Row, Volumes, has_volumes, image, larger};
use std::alloc::Global;
use std::test::Fail;
use ubi_media::{Geometry, RecFault};
use ubi_probe::pebs::small;
use ubi_probe::records::{A, ALIGNMENT_0, B, C, EMPTY, FLIPPED, GROWING, KIND_3, OVERFULL, ROOT};
use ubi_scan::{Blocks, scan};
use ubi_table::{CopyRead, read_copy};

/// What a copy is to be.
#[derive(Clone, Copy)]
enum Want {
    Absent,
    Corrupt,
    Faulty(u32, RecFault),
    Twice(u32, u32),
    Good(Volumes),
}

/// Whether a copy is what it is to be.
fn is(found: &CopyRead, want: &Want) -> Result<bool, Fail> {
    match (found, want) {
        (CopyRead::Absent, Want::Absent) | (CopyRead::Corrupt, Want::Corrupt) => Ok(true),
        (CopyRead::Faulty(slot, fault), Want::Faulty(at, rule)) => {
            Ok((*slot, *fault) == (*at, *rule))
        }
        (CopyRead::Twice(first, next), Want::Twice(one, other)) => {
            Ok((*first, *next) == (*one, *other))
        }
        (CopyRead::Good(table), Want::Good(volumes)) => has_volumes(table, volumes),
        _ => Ok(false),
    }
}

/// Whether the copies of the table of some eraseblocks are what they are to be.
fn are(
    alloc: Global,
    geometry: &Geometry,
    pebs: &[Row],
    first: &Want,
    second: &Want,
) -> Result<bool, Fail> {
    let bytes = image(alloc, geometry, pebs)?;
    let blocks = Blocks::new(geometry, bytes.as_slice())?;
    let found = scan(alloc, &blocks)?;
    let copy_0 = read_copy(alloc, &blocks, &found, 0)?;
    let copy_1 = read_copy(alloc, &blocks, &found, 1)?;
    Ok(is(&copy_0, first)? && is(&copy_1, second)?)
}

/// Some eraseblocks, and what copy 0 and copy 1 are there.
static SMALL: [(&[Row], Want, Want); 10] = [
    (&[Erased, Free], Want::Absent, Want::Absent),
    (
        &[Newer(0, &[GROWING]), First(&[ROOT]), Forgotten(1, &[ROOT])],
        Want::Good(&[(0, GROWING)]),
        Want::Absent,
    ),
    (
        &[Member(0), Second(&[EMPTY, GROWING])],
        Want::Absent,
        Want::Good(&[(1, GROWING)]),
    ),
    // Each is read for itself, wherever it lies.
    (
        &[Second(&[GROWING, ROOT]), First(&[ROOT])],
        Want::Good(&[(0, ROOT)]),
        Want::Good(&[(0, GROWING), (1, ROOT)]),
    ),
    (
        &[
            First(&[FLIPPED, ALIGNMENT_0]),
            Second(&[ALIGNMENT_0, FLIPPED]),
        ],
        Want::Corrupt,
        Want::Faulty(0, RecFault::Alignment),
    ),
    (
        &[First(&[ROOT, KIND_3]), Second(&[ROOT, FLIPPED])],
        Want::Faulty(1, RecFault::Kind),
        Want::Corrupt,
    ),
    (
        &[First(&[ROOT, ROOT]), Second(&[KIND_3, ROOT])],
        Want::Twice(0, 1),
        Want::Faulty(0, RecFault::Kind),
    ),
    (
        &[First(&[]), Second(&[GROWING, GROWING])],
        Want::Good(&[]),
        Want::Twice(0, 1),
    ),
    // More than the device has is good too.
    (
        &[First(&[OVERFULL]), Second(&[EMPTY, OVERFULL])],
        Want::Good(&[(0, OVERFULL)]),
        Want::Good(&[(1, OVERFULL)]),
    ),
    (
        &[First(&[ROOT]), Second(&[ROOT]), Newer(1, &[FLIPPED])],
        Want::Good(&[(0, ROOT)]),
        Want::Corrupt,
    ),
];

/// The same with four slots.
static LARGER: [(&[Row], Want, Want); 2] = [
    (
        &[First(&[EMPTY, A, EMPTY, C]), Second(&[C, A, B, A])],
        Want::Good(&[(1, A), (3, C)]),
        Want::Twice(1, 3),
    ),
    // A fault comes before a name that comes again.
    (
        &[First(&[A, A, B, KIND_3]), Second(&[A, B, C, ROOT])],
        Want::Faulty(3, RecFault::Kind),
        Want::Good(&[(0, A), (1, B), (2, C), (3, ROOT)]),
    ),
];

#[test]
fn reads_each_copy(rt: HostRuntime) -> Result<(), Fail> {
    for (index, (pebs, first, second)) in SMALL.iter().enumerate() {
        assert!(rt;
            are(rt.alloc(), &small()?, pebs, first, second)?,
            "case {index}"
        );
    }
    for (index, (pebs, first, second)) in LARGER.iter().enumerate() {
        assert!(rt;
            are(rt.alloc(), &larger()?, pebs, first, second)?,
            "larger {index}"
        );
    }
    Ok(())
}
