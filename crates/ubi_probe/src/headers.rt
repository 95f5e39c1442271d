//! Headers that images of several layers are made of.

use ubi_media::{LAYOUT_VOLUME, VidHeader, VolKind};

/// The CRC of 384 bytes 0x41. Another program worked this and the next ones out.
pub const CHECK_OF_41: u32 = 0xD6FB_3026;

/// The CRC of 384 bytes 0x61.
pub const CHECK_OF_61: u32 = 0x74A2_CBC2;

/// The CRC of 64 bytes 0x37.
pub const CHECK_OF_37: u32 = 0x6BFF_21BA;

/// The CRC of 64 bytes 0x39, with its lowest bit flipped.
pub const WRONG_CHECK_OF_39: u32 = 0xF1EC_52E6;

/// The header of logical eraseblock 0 of volume 0 with sequence number 0, neither copied nor static.
pub const PLAIN: VidHeader = VidHeader {
    kind: VolKind::Dynamic,
    copy_flag: false,
    compat: 0,
    vol_id: 0,
    lnum: 0,
    data_size: 0,
    used_ebs: 0,
    data_pad: 0,
    data_crc: 0,
    sqnum: 0,
};

/// The header of logical eraseblock 1.
pub const LEB_1: VidHeader = VidHeader { lnum: 1, ..PLAIN };

/// The header of logical eraseblock 2.
pub const LEB_2: VidHeader = VidHeader { lnum: 2, ..PLAIN };

/// The header of logical eraseblock 0 of a volume that leaves 128 bytes of each free.
pub const PADDED: VidHeader = VidHeader {
    data_pad: 128,
    ..PLAIN
};

/// The header of logical eraseblock 0 as a copy of 64 bytes 0x37, with sequence number 7.
pub const COPY: VidHeader = VidHeader {
    copy_flag: true,
    data_size: 64,
    data_crc: CHECK_OF_37,
    sqnum: 7,
    ..PLAIN
};

/// The header of the first copy of the volume table.
pub const TABLE_0: VidHeader = VidHeader {
    compat: 5,
    vol_id: LAYOUT_VOLUME,
    ..PLAIN
};

/// The header of the second.
pub const TABLE_1: VidHeader = VidHeader { lnum: 1, ..TABLE_0 };

/// The header of an internal volume that may be dropped.
pub const INTERNAL: VidHeader = VidHeader {
    compat: 1,
    vol_id: 0x7FFF_F000,
    ..PLAIN
};

/// The header of the first of two logical eraseblocks of static volume 0, with 384 bytes 0x61.
pub const STATIC_0: VidHeader = VidHeader {
    kind: VolKind::Static,
    used_ebs: 2,
    data_size: 384,
    data_crc: CHECK_OF_61,
    ..PLAIN
};

/// The header of the second, with one byte 0x62.
pub const STATIC_1: VidHeader = VidHeader {
    lnum: 1,
    data_size: 1,
    data_crc: 0x8E41_1006,
    ..STATIC_0
};

/// The header of the first of two logical eraseblocks of a static volume 0 that reads 384 bytes 0x41 and a byte 0xFF.
pub const PIECE_0: VidHeader = VidHeader {
    data_crc: CHECK_OF_41,
    ..STATIC_0
};

/// The header of the second.
pub const PIECE_1: VidHeader = VidHeader {
    lnum: 1,
    data_size: 1,
    data_crc: 0x00FF_FFFF,
    ..PIECE_0
};

/// The header of the one eraseblock of a damaged volume in a normal image: one byte, whose CRC isn't 0.
pub const DAMAGED: VidHeader = VidHeader {
    used_ebs: 1,
    data_size: 1,
    data_crc: 0,
    ..STATIC_0
};
