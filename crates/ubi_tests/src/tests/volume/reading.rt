//! What dynamic volumes read.

use super::images::{
    BAD_GOOD_OLD, BAD_OLD_GOOD, BASE, Case, GOOD_BAD_OLD, GOOD_OLD_BAD, Kept, Leb, OLD_BAD_GOOD,
    OLD_GOOD_BAD, PAD, STATIC_BEYOND, Text, assert_meanings, attached,
};
use std::test::Fail;
use ubi_media::{LAYOUT_VOLUME, VidHeader, VolKind};
use ubi_probe::headers::{STATIC_0, WRONG_CHECK_OF_39};
use ubi_probe::pebs::{
    A, ALIGNED_A, ALIGNED_ZEROED, B, C, Data, ERASED, Ec, FIRST, FIRST_ALIGNED, FIRST_FLIPPED,
    FIRST_MARKED, NAMED, NO_DATA, Peb, SECOND, SECOND_ALIGNED, SECOND_MARKED, Vid,
};
use ubi_volume::{Attached, Meaning, ReadError};

/// Whether what is attached has the numbers of the image.
fn has_numbers(attached: &Attached) -> bool {
    attached.image_seq() == 0x1234_5678
        && attached.carriers() == 5
        && attached.mean_ec() == 0
        && attached.winner(LAYOUT_VOLUME, 1) == Some(1)
        && attached.winner(0, 2) == Some(4)
        && attached.winner(0, 3).is_none()
}

/// Whether its meaning has the image's number, its geometry, and volume 0 alone.
fn has_volume(meaning: &Meaning) -> bool {
    let is = match meaning.get(0) {
        Some(volume) => volume.entry.reserved == 20 && volume.entry.kind == VolKind::Dynamic,
        None => false,
    };
    is && meaning.image_seq() == 305_419_896
        && meaning.geometry().leb_size() == 384
        && meaning.get(1).is_none()
}

/// Copies that aren't whole: an older one, and a newer one of another byte.
const OLDER_BAD: Peb = Peb(
    NAMED,
    Vid::Copy(0, 64, WRONG_CHECK_OF_39, 4),
    Data::Fill(b'9', 64),
);

const NEWER_BAD: Peb = Peb(
    NAMED,
    Vid::Copy(0, 64, WRONG_CHECK_OF_39, 6),
    Data::Fill(b'8', 64),
);

/// What `B` holds, after an erase-counter header that is corrupt, and after a blank one; a newer eraseblock of it; and one of
/// bytes 0xFF in its place.
const CORRUPT_B: Peb = Peb(Ec::Corrupt, Vid::Leb(0, 1, 0), Data::Fill(b'B', 384));

const FORGOTTEN_B: Peb = Peb(Ec::Blank, Vid::Leb(0, 1, 0), Data::Fill(b'B', 384));

const NEWER_B: Peb = Peb(NAMED, Vid::Leb(0, 1, 1), Data::Fill(b'B', 384));

const BLANK_B: Peb = Peb(NAMED, Vid::Leb(0, 1, 0), NO_DATA);

/// A logical eraseblock of a volume that has no record.
const UNRECORDED: Peb = Peb(
    NAMED,
    Vid::Of(VidHeader {
        vol_id: 1,
        used_ebs: 1,
        ..STATIC_0
    }),
    Data::Fill(b'a', 384),
);

/// A logical eraseblock that is blank.
const BLANK: Leb = Leb::Reads(0xFF, 384, 384);

/// What `A` and `B` read, and a logical eraseblock that isn't written.
const A_AND_B: [(u32, u32, Leb); 3] = [
    (0, 0, Leb::Reads(0x41, 384, 384)),
    (0, 1, Leb::Reads(0x42, 384, 384)),
    (0, 19, Leb::Reads(0xFF, 384, 384)),
];

/// The volume `root`, which isn't looked at.
const ROOT: Case = Case {
    images: &[],
    top: 0,
    name: Some(b"root"),
    lebs: &[],
    texts: &[],
    kept: Kept::Any,
};

/// A volume that reads three logical eraseblocks and 17 blank ones, and volumes that are not there; and others.
static CASES: [Case; 13] = [
    Case {
        images: &[("a volume", &BASE)],
        lebs: &[
            (0, 0, Leb::Reads(0x41, 384, 384)),
            (0, 1, Leb::Reads(0x42, 384, 384)),
            (0, 2, Leb::Reads(0x43, 384, 384)),
            (0, 3, BLANK),
            (0, 4, BLANK),
            (0, 5, BLANK),
            (0, 6, BLANK),
            (0, 7, BLANK),
            (0, 8, BLANK),
            (0, 9, BLANK),
            (0, 10, BLANK),
            (0, 11, BLANK),
            (0, 12, BLANK),
            (0, 13, BLANK),
            (0, 14, BLANK),
            (0, 15, BLANK),
            (0, 16, BLANK),
            (0, 17, BLANK),
            (0, 18, BLANK),
            (0, 19, BLANK),
            (0, 20, Leb::Not(ReadError::OutOfRange)),
            (0, u32::MAX, Leb::Not(ReadError::OutOfRange)),
            (1, 0, Leb::Not(ReadError::NoVolume)),
            (2, 0, Leb::Not(ReadError::NoVolume)),
            (200, 0, Leb::Not(ReadError::NoVolume)),
            (LAYOUT_VOLUME, 0, Leb::Not(ReadError::NoVolume)),
        ],
        texts: &[
            (
                0,
                Text::Reads(&[(b"A", 384), (b"B", 384), (b"C", 384), (b"\xFF", 6528)]),
            ),
            (1, Text::Not(ReadError::NoVolume)),
            (2, Text::Not(ReadError::NoVolume)),
            (200, Text::Not(ReadError::NoVolume)),
            (LAYOUT_VOLUME, Text::Not(ReadError::NoVolume)),
        ],
        ..ROOT
    },
    Case {
        images: &[
            (
                "a copy of the table that is corrupt",
                &[FIRST_FLIPPED, SECOND, A, B, C],
            ),
            (
                "a corrupt erase-counter header",
                &[FIRST, SECOND, A, CORRUPT_B, C],
            ),
        ],
        lebs: &[(0, 1, Leb::Reads(0x42, 384, 384))],
        ..ROOT
    },
    Case {
        images: &[(
            "a volume that is updated",
            &[FIRST_MARKED, SECOND_MARKED, A, B, C],
        )],
        lebs: &[
            (0, 0, Leb::Not(ReadError::Updating)),
            (0, 20, Leb::Not(ReadError::Updating)),
        ],
        texts: &[(0, Text::Not(ReadError::Updating))],
        ..ROOT
    },
    Case {
        images: &[("an erased image", &[ERASED, ERASED])],
        name: None,
        lebs: &[(0, 0, Leb::Not(ReadError::NoVolume))],
        ..ROOT
    },
    // A member, a newer copy that is whole and one that is newer still and isn't, in any order.
    Case {
        images: &[
            ("old, good, bad", &OLD_GOOD_BAD),
            ("old, bad, good", &OLD_BAD_GOOD),
            ("good, old, bad", &GOOD_OLD_BAD),
            ("good, bad, old", &GOOD_BAD_OLD),
            ("bad, old, good", &BAD_OLD_GOOD),
            ("bad, good, old", &BAD_GOOD_OLD),
        ],
        top: 9,
        lebs: &[(0, 0, Leb::Reads(0x37, 64, 384))],
        ..ROOT
    },
    // Copies that are not whole, alone.
    Case {
        images: &[
            ("older, newer", &[FIRST, SECOND, OLDER_BAD, NEWER_BAD]),
            ("newer, older", &[FIRST, SECOND, NEWER_BAD, OLDER_BAD]),
        ],
        top: 6,
        lebs: &[(0, 0, Leb::Reads(0x39, 64, 384))],
        ..ROOT
    },
    Case {
        images: &[("one alone", &[FIRST, SECOND, NEWER_BAD])],
        top: 6,
        lebs: &[(0, 0, Leb::Reads(0x38, 64, 384))],
        ..ROOT
    },
    // An alignment that leaves bytes free.
    Case {
        images: &[
            (
                "zeros behind what is read",
                &[FIRST_ALIGNED, SECOND_ALIGNED, ALIGNED_ZEROED],
            ),
            (
                "0xFF behind what is read",
                &[FIRST_ALIGNED, SECOND_ALIGNED, ALIGNED_A],
            ),
        ],
        lebs: &[
            (0, 0, Leb::Reads(0x41, 256, 256)),
            (0, 19, Leb::Reads(0xFF, 256, 256)),
        ],
        texts: &[(0, Text::Reads(&[(b"A", 256), (b"\xFF", 4864)]))],
        ..ROOT
    },
    Case {
        images: &[(
            "a blank erase-counter header",
            &[FIRST, SECOND, A, FORGOTTEN_B, C],
        )],
        lebs: &[(0, 1, BLANK)],
        ..ROOT
    },
    // It isn't kept.
    Case {
        images: &[(
            "a logical eraseblock of 0xFF",
            &[FIRST, SECOND, A, BLANK_B, C],
        )],
        lebs: &[(0, 1, BLANK)],
        kept: Kept::Lebs([true, false, true, false]),
        ..ROOT
    },
    // Eraseblocks that don't count.
    Case {
        images: &[
            (
                "an eraseblock beyond what is reserved",
                &[FIRST, SECOND, A, B, C, STATIC_BEYOND],
            ),
            (
                "one of a volume without a record",
                &[FIRST, SECOND, A, B, C, UNRECORDED],
            ),
        ],
        lebs: &A_AND_B,
        ..ROOT
    },
    Case {
        images: &[("one that is beaten", &[FIRST, SECOND, A, PAD, C, NEWER_B])],
        top: 1,
        lebs: &A_AND_B,
        ..ROOT
    },
    // A volume of a table alone.
    Case {
        images: &[(
            "a volume that is updated, without eraseblocks",
            &[FIRST_MARKED, SECOND_MARKED],
        )],
        texts: &[(0, Text::Not(ReadError::Updating))],
        ..ROOT
    },
];

#[test]
fn attaches_and_reads_dynamic_volumes(rt: HostRuntime) -> Result<(), Fail> {
    let attached = attached(rt.alloc(), &BASE)?;
    assert!(rt; has_numbers(&attached) && has_volume(attached.meaning()));
    assert_meanings(&rt, rt.alloc(), &CASES)
}
