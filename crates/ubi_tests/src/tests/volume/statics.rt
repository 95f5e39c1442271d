//! What static volumes read.

use super::images::{Case, Kept, Leb, Text, assert_meanings};
use std::test::Fail;
use ubi_probe::headers::CHECK_OF_61;
use ubi_probe::pebs::{
    Data, FIRST_BOOT, FIRST_UPDATING, NAMED, NO_DATA, Peb, SECOND_BOOT, SECOND_UPDATING, TEXT_0,
    TEXT_1, Vid,
};
use ubi_probe::records::BOOT_OF_2;
use ubi_volume::ReadError;

/// The CRC of 384 bytes 0x62.
const CHECK_OF_62: u32 = 0x3627_FAFB;

/// The CRC of 384 bytes 0xFF.
const CHECK_OF_FF: u32 = 0x6CE6_CFE8;

/// A static volume of two logical eraseblocks, both of them full.
const FULL_TEXT: [Peb; 4] = [
    Peb(NAMED, Vid::Table(0, 0), Data::Table(&[BOOT_OF_2])),
    Peb(NAMED, Vid::Table(1, 0), Data::Table(&[BOOT_OF_2])),
    TEXT_0,
    Peb(
        NAMED,
        Vid::Static(1, 2, 384, CHECK_OF_62),
        Data::Fill(b'b', 384),
    ),
];

/// The second of three pieces, full; the second of two, with another byte than the one that its CRC is of; the last of four; and
/// the first of four.
const TEXT_OF_3: Peb = Peb(
    NAMED,
    Vid::Static(1, 3, 384, CHECK_OF_62),
    Data::Fill(b'b', 384),
);

const TEXT_UNLIKE: Peb = Peb(
    NAMED,
    Vid::Static(1, 2, 1, CHECK_OF_B),
    Data::Fill(b'c', 384),
);

const TEXT_BEYOND: Peb = Peb(
    NAMED,
    Vid::Static(3, 4, 1, CHECK_OF_B),
    Data::Fill(b'b', 384),
);

const TEXT_OF_4: Peb = Peb(
    NAMED,
    Vid::Static(0, 4, 384, CHECK_OF_61),
    Data::Fill(b'a', 384),
);

/// The CRC of one byte 0x62.
const CHECK_OF_B: u32 = 0x8E41_1006;

/// A static volume while it is updated, whose logical eraseblocks don't agree on how many they are.
const UPDATING: [Peb; 7] = [
    FIRST_UPDATING,
    SECOND_UPDATING,
    Peb(NAMED, Vid::Static(0, 5, 384, CHECK_OF_FF), NO_DATA),
    Peb(NAMED, Vid::Static(1, 6, 384, CHECK_OF_FF), NO_DATA),
    Peb(NAMED, Vid::Static(2, 5, 384, CHECK_OF_FF), NO_DATA),
    Peb(NAMED, Vid::Static(3, 7, 384, CHECK_OF_FF), NO_DATA),
    Peb(NAMED, Vid::Static(4, 5, 384, CHECK_OF_FF), NO_DATA),
];

/// The volume `boot`, which isn't looked at.
const BOOT: Case = Case {
    images: &[],
    top: 0,
    name: Some(b"boot"),
    lebs: &[],
    texts: &[],
    kept: Kept::Any,
};

/// Texts that are read, a volume that is damaged, and one that is updated, which isn't read either.
static CASES: [Case; 5] = [
    Case {
        images: &[
            (
                "a text whose last piece is short",
                &[FIRST_BOOT, SECOND_BOOT, TEXT_0, TEXT_1],
            ),
            (
                "the same in the other order",
                &[FIRST_BOOT, SECOND_BOOT, TEXT_1, TEXT_0],
            ),
        ],
        lebs: &[
            (0, 0, Leb::Reads(0x61, 384, 384)),
            (0, 1, Leb::Reads(0x62, 1, 1)),
            (0, 2, Leb::Not(ReadError::OutOfRange)),
            (0, 3, Leb::Not(ReadError::OutOfRange)),
            (0, u32::MAX, Leb::Not(ReadError::OutOfRange)),
        ],
        texts: &[(0, Text::Reads(&[(b"a", 384), (b"b", 1)]))],
        ..BOOT
    },
    Case {
        images: &[("a text that fills its volume", &FULL_TEXT)],
        lebs: &[
            (0, 0, Leb::Reads(0x61, 384, 384)),
            (0, 1, Leb::Reads(0x62, 384, 384)),
            (0, 2, Leb::Not(ReadError::OutOfRange)),
        ],
        texts: &[(0, Text::Reads(&[(b"a", 384), (b"b", 384)]))],
        ..BOOT
    },
    Case {
        images: &[("an empty text", &[FIRST_BOOT, SECOND_BOOT])],
        lebs: &[
            (0, 0, Leb::Not(ReadError::OutOfRange)),
            (0, 1, Leb::Not(ReadError::OutOfRange)),
        ],
        texts: &[(0, Text::Reads(&[]))],
        ..BOOT
    },
    Case {
        images: &[
            ("no last piece", &[FIRST_BOOT, SECOND_BOOT, TEXT_0]),
            ("no first piece", &[FIRST_BOOT, SECOND_BOOT, TEXT_1]),
            (
                "pieces of two and of three",
                &[FIRST_BOOT, SECOND_BOOT, TEXT_0, TEXT_OF_3],
            ),
            (
                "a piece with a wrong check",
                &[FIRST_BOOT, SECOND_BOOT, TEXT_0, TEXT_UNLIKE],
            ),
            (
                "a piece behind the last",
                &[FIRST_BOOT, SECOND_BOOT, TEXT_0, TEXT_1, TEXT_BEYOND],
            ),
            (
                "a piece beyond the volume",
                &[FIRST_BOOT, SECOND_BOOT, TEXT_BEYOND],
            ),
            (
                "more pieces than the volume",
                &[FIRST_BOOT, SECOND_BOOT, TEXT_OF_4],
            ),
        ],
        lebs: &[
            (0, 0, Leb::Not(ReadError::Damaged)),
            (0, 1, Leb::Not(ReadError::Damaged)),
            (0, 3, Leb::Not(ReadError::Damaged)),
        ],
        texts: &[(0, Text::Not(ReadError::Damaged))],
        kept: Kept::Damaged,
        ..BOOT
    },
    Case {
        images: &[(
            "pieces of five, six and seven while they are updated",
            &UPDATING,
        )],
        lebs: &[(0, 0, Leb::Not(ReadError::Updating))],
        texts: &[(0, Text::Not(ReadError::Updating))],
        ..BOOT
    },
];

#[test]
fn reads_static_volumes(rt: HostRuntime) -> Result<(), Fail> {
    assert_meanings(&rt, rt.alloc(), &CASES)
}
