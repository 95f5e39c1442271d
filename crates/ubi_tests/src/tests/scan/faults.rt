//! The first fault of an image.

use std::alloc::Global;
use std::test::Fail;
use ubi_media::{AttachError, EcFault, Refusal, VidFault, VidHeader, VolKind};
use ubi_probe::header_bytes::VERSION_2;
use ubi_probe::headers::TABLE_0;
use ubi_probe::pebs::{ERASED, Ec, FREE, NAMED, NEW, NO_DATA, Peb, Vid, small, small_image};
use ubi_scan::{Blocks, scan};

/// Some eraseblocks, and for what cause they are refused, if they are.
type Case = (&'static str, &'static [Peb], Option<Refusal>);

/// Whether some eraseblocks are refused for a cause, or taken where there is none.
fn is_refused(alloc: Global, pebs: &[Peb], cause: Option<Refusal>) -> Result<bool, Fail> {
    let bytes = small_image(alloc, pebs)?;
    let blocks = Blocks::new(&small()?, bytes.as_slice())?;
    let refused = match scan(alloc, &blocks) {
        Ok(_) => None,
        Err(AttachError::Refused(refused)) => Some(refused),
        Err(AttachError::Memory) => return Ok(false),
    };
    Ok(refused == cause)
}

/// The header of logical eraseblock 0 of volume 0 with sequence number 1 and copy flag 2, whose CRC another program
/// worked out.
const COPY_FLAG_2: [u8; 64] =
    *b"UBI!\x01\x01\x02\0\0\0\0\0\0\0\0\0\0\0\0\0\0\0\0\0\0\0\0\0\0\0\0\0\0\
    \0\0\0\0\0\0\0\0\0\0\0\0\0\0\x01\0\0\0\0\0\0\0\0\0\0\0\0\xad\x6c\x21\xbe";

/// Members with sequence numbers 5 and 7, and those of a volume that no image has.
const FIVE: Peb = Peb(NEW, Vid::Leb(0, 0, 5), NO_DATA);

const SEVEN: Peb = Peb(NEW, Vid::Leb(0, 0, 7), NO_DATA);

const ORPHAN: Peb = Peb(NEW, Vid::Leb(9, 900, 0), NO_DATA);

const NEXT_ORPHAN: Peb = Peb(NEW, Vid::Leb(9, 901, 0), NO_DATA);

/// An erase-counter header of version 2, a volume-identifier header with copy flag 2, and both.
const VERSIONED: Peb = Peb(Ec::Bytes(&VERSION_2), Vid::Blank, NO_DATA);

const FLAGGED: Peb = Peb(NAMED, Vid::Bytes(&COPY_FLAG_2), NO_DATA);

const BOTH: Peb = Peb(Ec::Bytes(&VERSION_2), Vid::Bytes(&COPY_FLAG_2), NO_DATA);

/// An erased eraseblock with copy flag 2, and one whose header is corrupt, so that it has no number.
const ERASED_FLAGGED: Peb = Peb(Ec::Blank, Vid::Bytes(&COPY_FLAG_2), NO_DATA);

const TORN_ERASED: Peb = Peb(Ec::Corrupt, Vid::Blank, NO_DATA);

/// An eraseblock of another image.
const OTHER_IMAGE: Peb = Peb(Ec::Of(0, 8), Vid::Blank, NO_DATA);

/// Eraseblocks of an internal volume, by their compatibility.
const INTERNAL_1: Peb = Peb(NEW, Vid::Internal(1, 0), NO_DATA);

const INTERNAL_2: Peb = Peb(NEW, Vid::Internal(2, 0), NO_DATA);

const INTERNAL_4: Peb = Peb(NEW, Vid::Internal(4, 0), NO_DATA);

const INTERNAL_5: Peb = Peb(NEW, Vid::Internal(5, 0), NO_DATA);

/// Copies of the table: a plain one, a third one, and those with another compatibility, with a padding and of a static volume.
const TABLE: Peb = Peb(NEW, Vid::Table(0, 0), NO_DATA);

const THIRD_TABLE: Peb = Peb(NEW, Vid::Table(2, 0), NO_DATA);

const TABLE_COMPAT_1: Peb = Peb(
    NEW,
    Vid::Of(VidHeader {
        compat: 1,
        ..TABLE_0
    }),
    NO_DATA,
);

const PADDED_TABLE: Peb = Peb(
    NEW,
    Vid::Of(VidHeader {
        data_pad: 64,
        ..TABLE_0
    }),
    NO_DATA,
);

const STATIC_TABLE: Peb = Peb(
    NEW,
    Vid::Of(VidHeader {
        kind: VolKind::Static,
        data_size: 384,
        used_ebs: 2,
        ..TABLE_0
    }),
    NO_DATA,
);

static CASES: [Case; 18] = [
    (
        "a sequence number that comes again",
        &[ERASED, ERASED, FIVE, SEVEN, FIVE],
        Some(Refusal::SameSqnum(4, 2)),
    ),
    (
        "one of a volume that can't be accepted later, too, and not of another logical eraseblock",
        &[ORPHAN, NEXT_ORPHAN, ORPHAN],
        Some(Refusal::SameSqnum(2, 0)),
    ),
    ("two sequence numbers", &[FIVE, SEVEN], None),
    (
        "version 2 twice",
        &[FREE, VERSIONED, VERSIONED],
        Some(Refusal::Ec(1, EcFault::Version)),
    ),
    (
        "version 2 before copy flag 2",
        &[FREE, BOTH, FREE],
        Some(Refusal::Ec(1, EcFault::Version)),
    ),
    (
        "copy flag 2 in front of version 2",
        &[FREE, FREE, FLAGGED, VERSIONED],
        Some(Refusal::Vid(2, VidFault::CopyFlag)),
    ),
    (
        "another image",
        &[FREE, FREE, FREE, OTHER_IMAGE, FREE],
        Some(Refusal::ImageSeq(3)),
    ),
    (
        "another image in front of copy flag 2",
        &[ERASED, OTHER_IMAGE, FREE, OTHER_IMAGE, FLAGGED],
        Some(Refusal::ImageSeq(2)),
    ),
    (
        "an erased eraseblock, whatever else it holds, and a corrupt header",
        &[ERASED_FLAGGED, TORN_ERASED, FREE, FREE],
        None,
    ),
    (
        "an internal volume that may be dropped",
        &[ERASED, INTERNAL_1, INTERNAL_1],
        None,
    ),
    (
        "one of compatibility 2",
        &[ERASED, INTERNAL_2, INTERNAL_2],
        Some(Refusal::Incompatible(1, 2_147_479_552)),
    ),
    (
        "one of compatibility 4",
        &[ERASED, INTERNAL_4, INTERNAL_4],
        Some(Refusal::Incompatible(1, 2_147_479_552)),
    ),
    (
        "one of compatibility 5",
        &[ERASED, INTERNAL_5, INTERNAL_5],
        Some(Refusal::Incompatible(1, 2_147_479_552)),
    ),
    ("the layout volume", &[ERASED, TABLE], None),
    (
        "the layout volume with another compatibility",
        &[ERASED, TABLE_COMPAT_1],
        None,
    ),
    (
        "a third copy of the table",
        &[ERASED, THIRD_TABLE],
        Some(Refusal::Layout(1)),
    ),
    (
        "a copy of the table with a padding",
        &[ERASED, PADDED_TABLE],
        Some(Refusal::Layout(1)),
    ),
    (
        "a copy of the table in a static volume",
        &[ERASED, STATIC_TABLE],
        Some(Refusal::Layout(1)),
    ),
];

#[test]
fn names_the_first_fault(rt: HostRuntime) -> Result<(), Fail> {
    for (what, pebs, cause) in &CASES {
        assert!(rt; is_refused(rt.alloc(), pebs, *cause)?, "{what}");
    }
    Ok(())
}
