//! The command `normalise`: how much is read for it.

use super::contents::put_over;
use std::alloc::Global;
use std::test::Fail;
use ubi_compose::normalise_to;
use ubi_media::{Refusal, VidHeader};
use ubi_probe::header_bytes::{COPY_FLAG_2, VERSION_2};
use ubi_probe::headers::{CHECK_OF_41, TABLE_1, WRONG_CHECK_OF_39};
use ubi_probe::pebs::{
    A, ALIGNED_A, ALIGNED_ZEROED, B, BEYOND, BOOT_0, BOOT_1, C, DROPPED, Data, EMPTY_D, ERASED, Ec,
    FIRST, FIRST_ALIGNED, FIRST_ALIGNMENT_0, FIRST_BOOT, FIRST_OF_5, FIRST_OVERFULL,
    FIRST_UPDATING, FREE, GARBAGE, NAMED, NEWER_BOOT_0, NEWER_BOOT_1, NO_DATA, NORMAL_FIRST,
    NORMAL_SECOND, OLD, Peb, RIGHT, SECOND, SECOND_ALIGNED, SECOND_BOOT, SECOND_OF_6,
    SECOND_UPDATING, STATIC_A, STATIC_BEYOND, TORN, Vid, WORN_A, WORN_B, WORN_C, WORN_FIRST,
    WORN_SECOND, WRONG_6, WRONG_9, small, small_image,
};
use ubi_probe::records::ROOT;
use ubi_probe::{Failure, ProbeSource, ProbeWriter};
use ubi_scan::StreamError;
use ubi_volume::attach_places;

/// Members of logical eraseblock 0: no copy, and a copy whose CRC is wrong.
const OLDER: Peb = Peb(NAMED, Vid::Leb(0, 0, 6), Data::Fill(b'6', 384));

const WRONG_4: Peb = Peb(
    NAMED,
    Vid::Copy(0, 64, WRONG_CHECK_OF_39, 4),
    Data::Fill(b'4', 64),
);

/// A logical eraseblock whose erase-counter header is blank.
const UNREAD: Peb = Peb(Ec::Blank, Vid::Leb(0, 1, 0), Data::Fill(b'B', 384));

/// Pieces of a static volume, by how many they say that there are.
const THIRD_OF_5: Peb = Peb(
    NAMED,
    Vid::Static(2, 5, 384, CHECK_OF_41),
    Data::Fill(b'A', 384),
);

const FOURTH_OF_7: Peb = Peb(
    NAMED,
    Vid::Static(3, 7, 384, CHECK_OF_41),
    Data::Fill(b'A', 384),
);

const FIFTH_OF_5: Peb = Peb(
    NAMED,
    Vid::Static(4, 5, 384, CHECK_OF_41),
    Data::Fill(b'A', 384),
);

/// An eraseblock of another image; copies of the table with compatibility 0, and with number 2; logical eraseblock 0 with
/// sequence number 7; and eraseblocks of another internal volume, by their compatibility.
const OTHER_B: Peb = Peb(Ec::Of(0, 8), Vid::Leb(0, 1, 0), Data::Fill(b'B', 384));

const COMPAT_0: Peb = Peb(NAMED, Vid::Of(UNTYPED_TABLE), Data::Table(&[ROOT]));

const THIRD: Peb = Peb(NAMED, Vid::Table(2, 0), Data::Table(&[ROOT]));

const SEVEN: Peb = Peb(NAMED, Vid::Leb(0, 0, 7), Data::Fill(b'A', 384));

const COMPAT_2: Peb = Peb(NAMED, Vid::Internal(2, 0), NO_DATA);

const COMPAT_4: Peb = Peb(NAMED, Vid::Internal(4, 0), NO_DATA);

const COMPAT_5: Peb = Peb(NAMED, Vid::Internal(5, 0), NO_DATA);

/// The header of copy 1 of the table with compatibility 0.
const UNTYPED_TABLE: VidHeader = VidHeader {
    compat: 0,
    ..TABLE_1
};

/// An image by its eraseblocks and the bytes that stand over theirs, each with their place; and its eraseblocks, each with how
/// often its data are read while it is attached.
type Image = (
    &'static [Peb],
    &'static [(usize, &'static [u8])],
    &'static [(u32, u64)],
);

/// Images without volumes, and tables of which one copy is broken.
static TABLES: [Image; 10] = [
    (&[ERASED, ERASED, ERASED], &[], &[]),
    (&[ERASED; 32], &[], &[]),
    (
        &[FIRST, SECOND, A, B, C],
        &[(144, b"s")],
        &[(0, 1), (1, 1), (2, 0), (3, 0), (4, 0)],
    ),
    (&[NORMAL_FIRST], &[], &[]),
    (&[NORMAL_FIRST, NORMAL_SECOND], &[(24, &[0x55])], &[]),
    (&[NORMAL_FIRST, NORMAL_SECOND], &[(100, &[0x55])], &[]),
    (&[NORMAL_FIRST, NORMAL_SECOND], &[(300, &[0x55])], &[]),
    (&[NORMAL_FIRST, NORMAL_SECOND], &[(471, &[0x55])], &[]),
    (&[NORMAL_FIRST, NORMAL_SECOND], &[(472, &[0x55])], &[]),
    (&[NORMAL_FIRST, NORMAL_SECOND], &[(511, &[0x55])], &[]),
];

/// Members of one logical eraseblock: the CRC of each copy is looked at, if there are several.
static MEMBERS: [Image; 10] = [
    (
        &[FIRST, SECOND, OLD, RIGHT, WRONG_9],
        &[],
        &[(0, 1), (1, 0), (2, 0), (3, 1), (4, 1)],
    ),
    (
        &[FIRST, SECOND, OLD, WRONG_9, RIGHT],
        &[],
        &[(0, 1), (1, 0), (2, 0), (3, 1), (4, 1)],
    ),
    (
        &[FIRST, SECOND, RIGHT, OLD, WRONG_9],
        &[],
        &[(0, 1), (1, 0), (2, 1), (3, 0), (4, 1)],
    ),
    (
        &[FIRST, SECOND, RIGHT, WRONG_9, OLD],
        &[],
        &[(0, 1), (1, 0), (2, 1), (3, 1), (4, 0)],
    ),
    (
        &[FIRST, SECOND, WRONG_9, OLD, RIGHT],
        &[],
        &[(0, 1), (1, 0), (2, 1), (3, 0), (4, 1)],
    ),
    (
        &[FIRST, SECOND, WRONG_9, RIGHT, OLD],
        &[],
        &[(0, 1), (1, 0), (2, 1), (3, 1), (4, 0)],
    ),
    (
        &[FIRST, SECOND, OLD, RIGHT, WRONG_9, OLDER],
        &[],
        &[(0, 1), (1, 0), (2, 0), (3, 1), (4, 1), (5, 0)],
    ),
    (
        &[FIRST, SECOND, WRONG_4, WRONG_6],
        &[],
        &[(0, 1), (1, 0), (2, 1), (3, 1)],
    ),
    (
        &[FIRST, SECOND, WRONG_6, WRONG_4],
        &[],
        &[(0, 1), (1, 0), (2, 1), (3, 1)],
    ),
    (&[FIRST, SECOND, WRONG_4], &[], &[(0, 1), (1, 0), (2, 0)]),
];

/// Volumes of every sort.
static VOLUMES: [Image; 13] = [
    (
        &[FIRST, SECOND, A, B, C],
        &[],
        &[(0, 1), (1, 0), (2, 0), (3, 0), (4, 0)],
    ),
    (
        &[WORN_C, WORN_B, WORN_A, WORN_SECOND, WORN_FIRST, EMPTY_D],
        &[],
        &[],
    ),
    (&[FIRST_BOOT, SECOND_BOOT, BOOT_0, BOOT_1], &[], &[]),
    (
        &[
            FIRST_BOOT,
            SECOND_BOOT,
            NEWER_BOOT_0,
            BOOT_0,
            BOOT_1,
            NEWER_BOOT_1,
        ],
        &[],
        &[],
    ),
    (&[FIRST_BOOT, SECOND_BOOT, BOOT_0], &[], &[]),
    (&[FIRST_BOOT, SECOND_BOOT], &[], &[]),
    (&[FIRST_ALIGNED, SECOND_ALIGNED, ALIGNED_A], &[], &[]),
    (&[FIRST_ALIGNED, SECOND_ALIGNED, ALIGNED_ZEROED], &[], &[]),
    (
        &[
            FIRST_UPDATING,
            SECOND_UPDATING,
            FIRST_OF_5,
            SECOND_OF_6,
            THIRD_OF_5,
            FOURTH_OF_7,
            FIFTH_OF_5,
        ],
        &[],
        &[],
    ),
    (
        &[FIRST, SECOND, A, B, C],
        &[(1536, b"V")],
        &[(0, 1), (1, 0), (2, 0), (3, 0), (4, 0)],
    ),
    (
        &[FIRST, SECOND, A, B, C],
        &[(1536, &[0xFF; 64])],
        &[(0, 1), (1, 0), (2, 0), (3, 0), (4, 0)],
    ),
    (&[FIRST, SECOND, A, B, C, DROPPED], &[], &[]),
    (
        &[
            FIRST,
            SECOND,
            OLD,
            WRONG_9,
            BEYOND,
            STATIC_BEYOND,
            UNREAD,
            DROPPED,
            FREE,
            GARBAGE,
            TORN,
        ],
        &[],
        &[],
    ),
];

/// Images that are refused, for each cause.
static REFUSED: [Image; 17] = [
    (&[FIRST, SECOND, A, B, C], &[(1536, &VERSION_2)], &[]),
    (
        &[FIRST, SECOND, A, B, C],
        &[(2048, &VERSION_2), (512, &VERSION_2)],
        &[],
    ),
    (
        &[FIRST, SECOND, A, B, C],
        &[(1600, &COPY_FLAG_2), (1536, &VERSION_2)],
        &[],
    ),
    (&[FIRST, SECOND, A, B, C], &[(1600, &COPY_FLAG_2)], &[]),
    (&[FIRST, SECOND, A, OTHER_B, C], &[], &[]),
    (&[FIRST, COMPAT_0, A, B, C], &[], &[]),
    (&[FIRST, SECOND, A, B, C, COMPAT_4], &[], &[]),
    (&[FIRST, SECOND, A, B, C, COMPAT_2], &[], &[]),
    (&[FIRST, SECOND, A, B, C, COMPAT_5], &[], &[]),
    (&[FIRST, SECOND, THIRD, B, C], &[], &[]),
    (&[FIRST, SECOND, OLD, SEVEN, OLD], &[], &[]),
    (&[FREE], &[], &[]),
    (&[FIRST, SECOND, A, B, C], &[(144, b"s"), (656, b"s")], &[]),
    (&[FIRST_ALIGNMENT_0, SECOND, A, B, C], &[], &[]),
    (
        &[FIRST, SECOND, A, B, C],
        &[
            (300, b"\0\0\0\x14\0\0\0\x01\0\0\0\0\x01\0\0\x04root"),
            (468, &[0x71, 0xDF, 0xB1, 0x1D]),
        ],
        &[],
    ),
    (&[FIRST_OVERFULL, SECOND, A, B, C], &[], &[]),
    (&[FIRST, SECOND, STATIC_A, B, C], &[], &[]),
];

/// Whether an image is normalised, or refused, by reads of which each begins and ends in one eraseblock, and there are 7 of
/// each at most.
fn is_read_little(alloc: Global, image: &[u8], is_refused: bool) -> Result<bool, Fail> {
    let mut source = ProbeSource::new(alloc, &small()?, image, 0)?;
    let mut writer = ProbeWriter::new(alloc, 4096, 100, Failure::Nothing)?;
    let mut is_little = match normalise_to(alloc, &small()?, &mut source, &mut writer) {
        Ok(_) => !is_refused,
        Err(StreamError::Refused(_)) => is_refused,
        Err(_) => false,
    };
    is_little = is_little && source.crossing() == 0;
    for p in 0..32 {
        is_little = is_little && source.reads(p) <= 7;
    }
    Ok(is_little)
}

/// Whether data are read as often as is said while an image is attached.
fn is_checked(alloc: Global, image: &[u8], counts: &[(u32, u64)]) -> Result<bool, Fail> {
    let mut source = ProbeSource::new(alloc, &small()?, image, 0)?;
    let answer = attach_places(alloc, &small()?, &mut source);
    let mut is_checked = answer.is_ok() || counts.is_empty();
    for (p, count) in counts {
        is_checked = is_checked && source.data_reads(*p) == *count;
    }
    Ok(is_checked)
}

#[test]
fn reads_no_more_than_it_needs(rt: HostRuntime) -> Result<(), Fail> {
    let alloc = rt.alloc();
    for (images, is_refused) in [
        (TABLES.as_slice(), false),
        (MEMBERS.as_slice(), false),
        (VOLUMES.as_slice(), false),
        (REFUSED.as_slice(), true),
    ] {
        for (index, (pebs, over, counts)) in images.iter().enumerate() {
            let mut image = small_image(alloc, pebs)?;
            put_over(image.as_mut_slice(), over);
            let image = image.as_slice();
            let is = is_read_little(alloc, image, is_refused)? && is_checked(alloc, image, counts)?;
            assert!(rt; is, "image {index}, refused: {is_refused}");
        }
    }
    Ok(())
}

/// How many bytes there are, and the cause for which they are no image.
static SIZES: [(usize, Refusal); 5] = [
    (0, Refusal::Length),
    (511, Refusal::Length),
    (513, Refusal::Length),
    (32 * 512 + 1, Refusal::TooMany),
    (33 * 512, Refusal::TooMany),
];

/// Whether so many bytes are refused for a cause, and none of them is read. The first read would fail.
fn is_unread(alloc: Global, bytes: &[u8], cause: Refusal) -> Result<bool, Fail> {
    let mut source = ProbeSource::new(alloc, &small()?, bytes, 1)?;
    let mut writer = ProbeWriter::new(alloc, 4096, 4096, Failure::Nothing)?;
    let answer = normalise_to(alloc, &small()?, &mut source, &mut writer);
    let is_refused = answer == Err(StreamError::Refused(cause)) && writer.taken().is_empty();
    Ok(is_refused && source.reads(0) == 0)
}

#[test]
fn reads_nothing_of_what_is_no_image(rt: HostRuntime) -> Result<(), Fail> {
    let alloc = rt.alloc();
    let bytes = [0xFF; 33 * 512];
    for (len, cause) in &SIZES {
        let bytes = bytes.get(..*len).ok_or("short")?;
        assert!(rt; is_unread(alloc, bytes, *cause)?, "{len} bytes");
    }
    Ok(())
}
