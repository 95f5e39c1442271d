//! Bytes and readings of volume-identifier headers.

use std::test::Fail;
use ubi_media::{VidFault, VidHeader, VidRead, VolKind, read_vid, write_vid};
use ubi_probe::headers::PLAIN;
use ubi_probe::pebs::small;
use ubi_probe::sealed::SealedVid;

/// The last logical eraseblock of a static volume of two, one byte short of full.
const LAST: VidHeader = VidHeader {
    kind: VolKind::Static,
    used_ebs: 2,
    data_size: 383,
    lnum: 1,
    ..PLAIN
};

/// Headers and their bytes. Another program worked out the CRCs of these headers.
static WRITTEN: [(&str, VidHeader, [u8; 64]); 3] = [
    (
        "a header of the table",
        VidHeader {
            compat: 5,
            vol_id: 0x7FFF_EFFF,
            lnum: 1,
            ..PLAIN
        },
        *b"UBI!\x01\x01\0\x05\
        \x7f\xff\xef\xff\0\0\0\x01\0\0\0\0\0\0\0\0\0\0\0\0\0\0\0\0\0\0\0\0\0\0\0\0\
        \0\0\0\0\0\0\0\0\0\0\0\0\0\0\0\0\0\0\0\0\x1b\xb3\x4c\xe4",
    ),
    (
        "a header of a copy",
        VidHeader {
            copy_flag: true,
            lnum: 2,
            data_size: 128,
            data_crc: 0x1122_3344,
            sqnum: 0x0102_0304_0506_0708,
            ..PLAIN
        },
        *b"UBI!\x01\x01\x01\0\
        \0\0\0\0\0\0\0\x02\0\0\0\0\0\0\0\x80\0\0\0\0\0\0\0\0\x11\x22\x33\x44\0\0\0\0\
        \x01\x02\x03\x04\x05\x06\x07\x08\0\0\0\0\0\0\0\0\0\0\0\0\x4a\x22\x91\xd7",
    ),
    (
        "a header of a static volume",
        VidHeader {
            kind: VolKind::Static,
            vol_id: 3,
            lnum: 1,
            data_size: 1,
            used_ebs: 2,
            data_pad: 128,
            data_crc: 0x00FF_FFFF,
            sqnum: 7,
            ..PLAIN
        },
        *b"UBI!\x01\x02\0\0\
        \0\0\0\x03\0\0\0\x01\0\0\0\0\0\0\0\x01\0\0\0\x02\0\0\0\x80\0\xff\xff\xff\0\0\0\0\
        \0\0\0\0\0\0\0\x07\0\0\0\0\0\0\0\0\0\0\0\0\x6d\xf6\x44\x4d",
    ),
];

/// Headers, with a byte that stands over one of theirs, by its place, and what they are read as. Another program worked out
/// the CRCs.
static READ: [(&str, SealedVid, Option<(usize, u8)>, VidRead); 19] = [
    (
        "a sound header",
        SealedVid(PLAIN, 0x73B1_AB57),
        None,
        VidRead::Valid(PLAIN),
    ),
    (
        "another version",
        SealedVid(PLAIN, 0x9F19_35EF),
        Some((4, 9)),
        VidRead::Valid(PLAIN),
    ),
    (
        "a padding below half",
        SealedVid(
            VidHeader {
                data_pad: 191,
                ..PLAIN
            },
            0x9241_8BA8,
        ),
        None,
        VidRead::Valid(VidHeader {
            data_pad: 191,
            ..PLAIN
        }),
    ),
    (
        "copy flag 2 in an unknown volume",
        SealedVid(
            VidHeader {
                vol_id: 200,
                ..PLAIN
            },
            0xC0A9_187C,
        ),
        Some((6, 2)),
        VidRead::Fault(VidFault::CopyFlag),
    ),
    (
        "a negative logical eraseblock",
        SealedVid(
            VidHeader {
                lnum: 0x8000_0000,
                ..PLAIN
            },
            0xAAB5_ADC5,
        ),
        None,
        VidRead::Fault(VidFault::Negative),
    ),
    (
        "a volume above the users",
        SealedVid(
            VidHeader {
                vol_id: 128,
                ..PLAIN
            },
            0x6D69_5D39,
        ),
        None,
        VidRead::Fault(VidFault::VolumeId),
    ),
    (
        "a volume below the layout volume",
        SealedVid(
            VidHeader {
                vol_id: 0x7FFF_EFFE,
                ..PLAIN
            },
            0x69B6_3CBF,
        ),
        None,
        VidRead::Fault(VidFault::VolumeId),
    ),
    (
        "a compatibility in a user's volume",
        SealedVid(VidHeader { compat: 1, ..PLAIN }, 0x0D69_1B16),
        None,
        VidRead::Fault(VidFault::Compat),
    ),
    (
        "no compatibility in an internal volume",
        SealedVid(
            VidHeader {
                vol_id: 0x7FFF_EFFF,
                ..PLAIN
            },
            0xE6EE_13AC,
        ),
        None,
        VidRead::Fault(VidFault::Compat),
    ),
    (
        "type 3",
        SealedVid(PLAIN, 0x37B6_CD77),
        Some((5, 3)),
        VidRead::Fault(VidFault::Kind),
    ),
    (
        "a padding of half",
        SealedVid(
            VidHeader {
                data_pad: 192,
                ..PLAIN
            },
            0xE862_E82E,
        ),
        None,
        VidRead::Fault(VidFault::Pad),
    ),
    (
        "a copy larger than a logical eraseblock",
        SealedVid(
            VidHeader {
                copy_flag: true,
                data_size: 385,
                ..PLAIN
            },
            0xD86C_0176,
        ),
        None,
        VidRead::Fault(VidFault::Size),
    ),
    (
        "static data that end before the last",
        SealedVid(VidHeader { lnum: 0, ..LAST }, 0xE888_F7B0),
        None,
        VidRead::Fault(VidFault::Size),
    ),
    (
        "static data that end in the last",
        SealedVid(LAST, 0x4B1E_DFFC),
        None,
        VidRead::Valid(LAST),
    ),
    (
        "static data behind the last",
        SealedVid(VidHeader { lnum: 2, ..LAST }, 0x74D5_A169),
        None,
        VidRead::Fault(VidFault::Lnum),
    ),
    (
        "static data in no eraseblock",
        SealedVid(
            VidHeader {
                kind: VolKind::Static,
                data_size: 1,
                ..PLAIN
            },
            0x9545_6978,
        ),
        None,
        VidRead::Fault(VidFault::UsedEbs),
    ),
    (
        "used eraseblocks of a dynamic volume",
        SealedVid(
            VidHeader {
                used_ebs: 1,
                ..PLAIN
            },
            0x4543_3BA4,
        ),
        None,
        VidRead::Fault(VidFault::UsedEbs),
    ),
    (
        "a check of data that are no copy",
        SealedVid(
            VidHeader {
                data_crc: 1,
                ..PLAIN
            },
            0xD63A_3B59,
        ),
        None,
        VidRead::Fault(VidFault::CopyFields),
    ),
    (
        "a copy of no data",
        SealedVid(
            VidHeader {
                copy_flag: true,
                ..PLAIN
            },
            0x7214_02E1,
        ),
        None,
        VidRead::Fault(VidFault::CopyFields),
    ),
];

#[test]
fn writes_and_reads_headers(rt: HostRuntime) -> Result<(), Fail> {
    let geometry = small()?;
    for (what, header, bytes) in &WRITTEN {
        assert!(rt; write_vid(header) == *bytes, "{what}");
    }
    for (what, header, over, read) in &READ {
        let mut bytes = header.bytes();
        if let Some((place, byte)) = over {
            bytes[*place % 64] = *byte;
        }
        assert!(rt; read_vid(&geometry, &bytes) == *read, "{what}");
    }
    assert!(rt; read_vid(&geometry, &[0xFF; 64]) == VidRead::Blank);
    assert!(rt; read_vid(&geometry, &[0; 64]) == VidRead::Corrupt);
    Ok(())
}
