//! Meanings that are made of volumes.

use std::alloc::{AllocError, Global};
use std::test::Fail;
use ubi_media::{RecFault, VolKind, VolName, VolumeRecord};
use ubi_probe::pebs::small;
use ubi_volume::{Bytes, Content, Lebs, Meaning, MeaningCause, MeaningError, Volume};

/// What a volume that is handed in holds.
#[derive(Clone, Copy)]
enum Held {
    /// Logical eraseblocks: of each its number, a byte, and how often it stands there.
    Lebs(&'static [(u32, u8, usize)]),
    /// So many bytes 0x41.
    Text(usize),
    /// It is said to be updated, or damaged.
    Updating,
    Damaged,
}

/// A volume that is handed in.
#[derive(Clone, Copy)]
struct Given {
    id: u32,
    name: &'static [u8],
    reserved: u32,
    alignment: u32,
    kind: VolKind,
    marker: bool,
    held: Held,
}

/// A dynamic volume of 20 eraseblocks, in which nothing is written, and a static one of two.
const ROOT: Given = Given {
    id: 0,
    name: b"root",
    reserved: 20,
    alignment: 1,
    kind: VolKind::Dynamic,
    marker: false,
    held: Held::Lebs(&[]),
};

const BOOT: Given = Given {
    id: 1,
    name: b"boot",
    reserved: 2,
    kind: VolKind::Static,
    held: Held::Text(768),
    ..ROOT
};

/// The first with a logical eraseblock of one byte too few, and with one of as many as it has.
const SHORT: Given = Given {
    held: Held::Lebs(&[(0, 0x41, 383)]),
    ..ROOT
};

const WHOLE: Given = Given {
    held: Held::Lebs(&[(3, 0x41, 384)]),
    ..ROOT
};

/// A byte, so many times.
fn bytes(alloc: Global, byte: u8, count: usize) -> Result<Bytes, AllocError> {
    Ok(Bytes::new(Vec::from_elem(alloc, byte, count)?))
}

/// Some logical eraseblocks.
fn lebs(alloc: Global, held: &[(u32, u8, usize)]) -> Result<Lebs, AllocError> {
    let mut lebs = Lebs::new(alloc);
    for (lnum, byte, count) in held {
        lebs.insert(*lnum, bytes(alloc, *byte, *count)?)?;
    }
    Ok(lebs)
}

/// What a volume holds.
fn content(alloc: Global, held: &Held) -> Result<Content, AllocError> {
    Ok(match held {
        Held::Lebs(held) => Content::Dynamic(lebs(alloc, held)?),
        Held::Text(count) => Content::Static(bytes(alloc, 0x41, *count)?),
        Held::Updating => Content::Updating,
        Held::Damaged => Content::Damaged,
    })
}

/// Some volumes, each with its number.
fn volumes(alloc: Global, given: &[Given]) -> Result<Vec<(u32, Volume)>, Fail> {
    let mut volumes = Vec::new(alloc);
    for volume in given {
        let entry = VolumeRecord {
            reserved: volume.reserved,
            alignment: volume.alignment,
            kind: volume.kind,
            marker: volume.marker,
            name: VolName::new(volume.name).ok_or("a name")?,
            flags: 0,
        };
        let content = content(alloc, &volume.held)?;
        volumes.push((volume.id, Volume { entry, content }))?;
    }
    Ok(volumes)
}

/// The meaning of some volumes, or why they have none together.
fn made(alloc: Global, given: &[Given]) -> Result<Result<Meaning, MeaningError>, Fail> {
    let volumes = volumes(alloc, given)?;
    Ok(Meaning::new(&small()?, 0x1234_5678, volumes))
}

/// Some volumes, and why they have no meaning together. They are handed back unchanged.
static REFUSED: [(&[Given], MeaningCause); 17] = [
    // Numbers and records.
    (&[Given { id: 2, ..ROOT }], MeaningCause::IdRange(0)),
    (&[ROOT, EMPTY_BOOT], MeaningCause::SameId(1)),
    (
        &[Given {
            reserved: 0,
            ..ROOT
        }],
        MeaningCause::Record(0, RecFault::NotEmpty),
    ),
    (
        &[Given {
            alignment: 65,
            ..ROOT
        }],
        MeaningCause::Record(0, RecFault::AlignmentPage),
    ),
    // Volumes that don't go together.
    (
        &[
            ROOT,
            Given {
                id: 1,
                reserved: 2,
                ..ROOT
            },
        ],
        MeaningCause::SameName(1, 0),
    ),
    (
        &[Given {
            reserved: 31,
            ..ROOT
        }],
        MeaningCause::NoSpace,
    ),
    (
        &[
            ROOT,
            Given {
                id: 1,
                reserved: 11,
                ..EMPTY_BOOT
            },
        ],
        MeaningCause::NoSpace,
    ),
    // Contents.
    (&[SHORT], MeaningCause::ContentRange(0)),
    (
        &[Given {
            held: Held::Lebs(&[(20, 0x41, 384)]),
            ..ROOT
        }],
        MeaningCause::ContentRange(0),
    ),
    (
        &[Given {
            id: 0,
            held: Held::Text(769),
            ..BOOT
        }],
        MeaningCause::ContentRange(0),
    ),
    (
        &[Given {
            marker: true,
            ..ROOT
        }],
        MeaningCause::ContentRange(0),
    ),
    (
        &[Given {
            held: Held::Updating,
            ..ROOT
        }],
        MeaningCause::ContentRange(0),
    ),
    (
        &[Given {
            held: Held::Damaged,
            ..ROOT
        }],
        MeaningCause::ContentRange(0),
    ),
    // A cause of a later item that is tried first.
    (
        &[ROOT, EMPTY_BOOT, Given { id: 2, ..ROOT }],
        MeaningCause::IdRange(2),
    ),
    (
        &[SHORT, Given { id: 1, ..ROOT }],
        MeaningCause::SameName(1, 0),
    ),
    (
        &[
            SHORT,
            Given {
                id: 1,
                reserved: 20,
                ..EMPTY_BOOT
            },
        ],
        MeaningCause::NoSpace,
    ),
    // Items whose numbers don't rise.
    (
        &[Given { id: 1, ..SHORT }, Given { id: 0, ..BOOT }],
        MeaningCause::ContentRange(0),
    ),
];

/// A dynamic volume `boot` with the number of the first.
const EMPTY_BOOT: Given = Given {
    name: b"boot",
    reserved: 2,
    ..ROOT
};

#[test]
fn names_the_first_cause_and_hands_the_volumes_back(rt: HostRuntime) -> Result<(), Fail> {
    for (index, (given, cause)) in REFUSED.iter().enumerate() {
        let want = volumes(rt.alloc(), given)?;
        match made(rt.alloc(), given)? {
            Ok(_) => assert!(rt; false, "case {index} has a meaning"),
            Err(error) => {
                assert!(rt; error.cause == *cause, "case {index}");
                assert!(rt; error.volumes == want, "case {index}");
            }
        }
    }
    Ok(())
}

/// Some volumes, and those of their meaning: they are sorted, and what is blank is dropped.
static UNSORTED: [Given; 2] = [
    Given {
        id: 1,
        held: Held::Lebs(&[(3, 0xFF, 384), (5, 0x42, 384)]),
        ..ROOT
    },
    Given { id: 0, ..BOOT },
];

static SORTED: [Given; 2] = [
    Given { id: 0, ..BOOT },
    Given {
        id: 1,
        held: Held::Lebs(&[(5, 0x42, 384)]),
        ..ROOT
    },
];

/// Volumes, and whether their meaning is that of a dynamic volume with logical eraseblock 3 and a full static one.
static COMPARED: [(&[Given], bool); 5] = [
    (&[WHOLE, BOOT], true),
    (&[BOOT, WHOLE], true),
    (
        &[
            WHOLE,
            Given {
                held: Held::Text(767),
                ..BOOT
            },
        ],
        false,
    ),
    (
        &[
            Given {
                held: Held::Lebs(&[(4, 0x41, 384)]),
                ..ROOT
            },
            BOOT,
        ],
        false,
    ),
    (&[ROOT, BOOT], false),
];

#[test]
fn sorts_drops_what_is_blank_and_compares(rt: HostRuntime) -> Result<(), Fail> {
    let alloc = rt.alloc();
    let meaning = made(alloc, &UNSORTED)?;
    let want = volumes(alloc, &SORTED)?;
    assert!(rt; matches!(&meaning, Ok(meaning) if meaning.volumes() == want.as_slice()));
    let one = made(alloc, &[WHOLE, BOOT])?;
    for (index, (given, is_equal)) in COMPARED.iter().enumerate() {
        let other = made(alloc, given)?;
        let is = matches!((&one, &other), (Ok(one), Ok(other)) if (one == other) == *is_equal);
        assert!(rt; is, "case {index}");
    }
    Ok(())
}

/// Logical eraseblocks in no order, and their numbers in ascending order. Each has as many bytes.
static LEBS: [(u32, u8, usize); 3] = [(7, 0x41, 7), (2, 0x41, 2), (5, 0x41, 5)];

static NUMBERS: [u32; 3] = [2, 5, 7];

#[test]
fn goes_over_logical_eraseblocks(rt: HostRuntime) -> Result<(), Fail> {
    let lebs = lebs(rt.alloc(), &LEBS)?;
    let mut want = NUMBERS.iter();
    for (lnum, bytes) in lebs.iter() {
        assert!(rt; want.next() == Some(lnum));
        assert!(rt; bytes.as_slice().len() == *lnum as usize);
    }
    assert!(rt; want.next().is_none());
    Ok(())
}
