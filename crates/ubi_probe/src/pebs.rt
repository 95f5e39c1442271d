//! Eraseblocks, and the images that are made of them.
//!
//! They are constants: a proof takes those as they stand, but pays for each loop and each call of a test.

use crate::header_bytes::{EC, NAMED_EC};
use crate::headers;
use crate::headers::{
    CHECK_OF_37, CHECK_OF_41, DAMAGED, INTERNAL, PADDED, PIECE_0, PIECE_1, PLAIN, STATIC_0,
    STATIC_1, TABLE_0, TABLE_1, WRONG_CHECK_OF_39,
};
use crate::records::{
    ALIGNMENT_0, ALIGNMENT_256, BOOT, DATA, EMPTY, FLIPPED, MARKED, MARKED_BOOT, OVERFULL, ROOT,
    Slot,
};
use crate::sealed::SealedVid;
use crate::texts::put_runs;
use std::alloc::{AllocError, Global};
use std::test::Fail;
use ubi_media::{EcHeader, Geometry, GeometryError, VidHeader, crc, write_ec, write_vid};

/// The image sequence number of the image whose eraseblocks they are.
pub const IMAGE: u32 = 0x1234_5678;

/// What stands in place of an erase-counter header.
#[derive(Clone, Copy)]
pub enum Ec {
    /// 0xFF throughout.
    Blank,
    /// Zeros, of which nothing can be read.
    Corrupt,
    /// A header: its counter, and its image sequence number, 0 for no image.
    Of(u32, u32),
    /// The same with padding that isn't zero, and with the right CRC.
    Padded(u32, u32),
    /// That of normal images of the image 0x12345678, as the format writes it for small eraseblocks.
    Normal,
    /// That of normal images of no image.
    Unnamed,
    /// These bytes.
    Bytes(&'static [u8; 64]),
}

/// What stands in place of a volume-identifier header.
#[derive(Clone, Copy)]
pub enum Vid {
    /// 0xFF throughout.
    Blank,
    /// Zeros, of which nothing can be read.
    Corrupt,
    /// The header of a logical eraseblock of a dynamic volume: the volume, the number, and the sequence number.
    Leb(u32, u32, u64),
    /// That of a copy in dynamic volume 0: the number, how many bytes there are and their CRC, and the sequence number.
    Copy(u32, u32, u32, u64),
    /// That of a piece of static volume 0: the number, how many pieces there are, how many bytes it has, and their CRC.
    Static(u32, u32, u32, u32),
    /// That of a copy of the volume table: its number and its sequence number.
    Table(u32, u64),
    /// That of another internal volume: its compatibility and its sequence number.
    Internal(u8, u64),
    /// Any header.
    Of(VidHeader),
    /// A header with its CRC, which another program worked out.
    Sealed(VidHeader, u32),
    /// These bytes.
    Bytes(&'static [u8; 64]),
}

/// The data of an eraseblock, with 0xFF after them.
#[derive(Clone, Copy)]
pub enum Data {
    /// A volume table: records in its first slots, and none in the others.
    Table(&'static [Slot]),
    /// A byte, this many times.
    Fill(u8, usize),
    /// Bytes, each of which stands this many times.
    Runs(&'static [(&'static [u8], usize)]),
}

/// An eraseblock: its two headers and its data.
#[derive(Clone, Copy)]
pub struct Peb(pub Ec, pub Vid, pub Data);

impl Ec {
    /// Its bytes.
    pub fn bytes(&self, geometry: &Geometry) -> [u8; 64] {
        let (counter, image_seq) = match *self {
            Ec::Blank => return [0xFF; 64],
            Ec::Corrupt => return [0; 64],
            Ec::Normal => return NAMED_EC,
            Ec::Unnamed => return EC,
            Ec::Bytes(bytes) => return *bytes,
            Ec::Of(counter, image_seq) | Ec::Padded(counter, image_seq) => (counter, image_seq),
        };
        let mut bytes = write_ec(geometry, &EcHeader { counter, image_seq });
        if let Ec::Padded(..) = self {
            bytes[40] = 0xA5;
            let check = crc(&bytes[..60]).to_be_bytes();
            bytes[60..64].copy_from_slice(&check);
        }
        bytes
    }

    /// The same without the name of an image.
    fn unnumbered(self) -> Ec {
        match self {
            Ec::Of(counter, _) => Ec::Of(counter, 0),
            Ec::Normal => Ec::Unnamed,
            other => other,
        }
    }
}

impl Vid {
    /// The header, if it is one that was built.
    pub fn header(&self) -> Option<VidHeader> {
        Some(match *self {
            Vid::Blank | Vid::Corrupt | Vid::Bytes(_) => return None,
            Vid::Of(header) | Vid::Sealed(header, _) => header,
            Vid::Leb(vol_id, lnum, sqnum) => VidHeader {
                vol_id,
                lnum,
                sqnum,
                ..PLAIN
            },
            Vid::Copy(lnum, data_size, data_crc, sqnum) => VidHeader {
                copy_flag: true,
                lnum,
                data_size,
                data_crc,
                sqnum,
                ..PLAIN
            },
            Vid::Static(lnum, used_ebs, data_size, data_crc) => VidHeader {
                lnum,
                used_ebs,
                data_size,
                data_crc,
                ..STATIC_0
            },
            Vid::Table(lnum, sqnum) => VidHeader {
                lnum,
                sqnum,
                ..TABLE_0
            },
            Vid::Internal(compat, sqnum) => VidHeader {
                compat,
                sqnum,
                ..INTERNAL
            },
        })
    }

    /// Its bytes.
    pub fn bytes(&self) -> [u8; 64] {
        match self {
            Vid::Sealed(header, check) => SealedVid(*header, *check).bytes(),
            Vid::Bytes(bytes) => **bytes,
            Vid::Corrupt => [0; 64],
            _ => match self.header() {
                Some(header) => write_vid(&header),
                None => [0xFF; 64],
            },
        }
    }
}

/// Adds a volume table that begins with some records.
fn put_table(geometry: &Geometry, slots: &[Slot], bytes: &mut Vec<u8>) -> Result<(), AllocError> {
    for slot in slots {
        bytes.extend_from_slice(&slot.bytes())?;
    }
    for _ in slots.len()..geometry.slots() as usize {
        bytes.extend_from_slice(&EMPTY.bytes())?;
    }
    Ok(())
}

impl Data {
    /// Adds its bytes.
    fn put(&self, geometry: &Geometry, bytes: &mut Vec<u8>) -> Result<(), AllocError> {
        match *self {
            Data::Table(slots) => put_table(geometry, slots, bytes),
            Data::Fill(byte, count) => bytes.resize(bytes.len().saturating_add(count), byte),
            Data::Runs(runs) => put_runs(bytes, runs),
        }
    }
}

impl Peb {
    /// Adds its bytes.
    fn put(&self, geometry: &Geometry, bytes: &mut Vec<u8>) -> Result<(), AllocError> {
        let Peb(ec, vid, data) = self;
        let start = bytes.len();
        bytes.extend_from_slice(&ec.bytes(geometry))?;
        bytes.resize(start.saturating_add(geometry.vid_offset() as usize), 0xFF)?;
        bytes.extend_from_slice(&vid.bytes())?;
        bytes.resize(start.saturating_add(geometry.data_offset() as usize), 0xFF)?;
        data.put(geometry, bytes)?;
        bytes.resize(start.saturating_add(geometry.peb_size() as usize), 0xFF)
    }
}

/// The geometry of small eraseblocks: 32 of 512 bytes in pages of 64, with their volume-identifier header at byte 64 and 384
/// bytes of data from byte 128 on. A volume table has two slots.
pub fn small() -> Result<Geometry, GeometryError> {
    Geometry::new(512, 64, 64, 128, 32)
}

/// The bytes of some eraseblocks.
///
/// # Errors
///
/// Memory ran out.
pub fn image_of(alloc: Global, geometry: &Geometry, pebs: &[Peb]) -> Result<Vec<u8>, AllocError> {
    let mut bytes = Vec::new(alloc);
    for peb in pebs {
        peb.put(geometry, &mut bytes)?;
    }
    Ok(bytes)
}

/// The bytes of some small eraseblocks.
///
/// # Errors
///
/// Memory ran out.
pub fn small_image(alloc: Global, pebs: &[Peb]) -> Result<Vec<u8>, Fail> {
    Ok(image_of(alloc, &small()?, pebs)?)
}

/// The bytes of eraseblocks without the name of an image.
///
/// # Errors
///
/// Memory ran out.
pub fn unnumbered_of(
    alloc: Global,
    geometry: &Geometry,
    pebs: &[Peb],
) -> Result<Vec<u8>, AllocError> {
    let mut bytes = Vec::new(alloc);
    for Peb(ec, vid, data) in pebs {
        Peb(ec.unnumbered(), *vid, *data).put(geometry, &mut bytes)?;
    }
    Ok(bytes)
}

/// Headers of eraseblocks below.
const PIECE_BEYOND: VidHeader = VidHeader {
    lnum: 20,
    used_ebs: 21,
    sqnum: 7,
    ..PIECE_0
};

const COPIED_PIECE_0: VidHeader = VidHeader {
    copy_flag: true,
    sqnum: 1,
    ..PIECE_0
};

const COPIED_PIECE_1: VidHeader = VidHeader {
    copy_flag: true,
    sqnum: 2,
    ..PIECE_1
};

/// Counter 0 in the image.
pub const NAMED: Ec = Ec::Of(0, IMAGE);
/// Counter 0 in no image.
pub const NEW: Ec = Ec::Of(0, 0);
/// No data.
pub const NO_DATA: Data = Data::Fill(0xFF, 0);
/// An eraseblock that is blank throughout.
pub const ERASED: Peb = Peb(Ec::Blank, Vid::Blank, NO_DATA);
/// One with an erase-counter header and nothing else.
pub const FREE: Peb = Peb(NAMED, Vid::Blank, NO_DATA);
/// The same in no image.
pub const NEW_FREE: Peb = Peb(NEW, Vid::Blank, NO_DATA);
/// One whose headers can't be read.
pub const TORN: Peb = Peb(Ec::Corrupt, Vid::Corrupt, NO_DATA);
/// One whose volume-identifier header can't be read.
pub const GARBAGE: Peb = Peb(NAMED, Vid::Corrupt, NO_DATA);
/// One of another internal volume, which may be dropped.
pub const DROPPED: Peb = Peb(NAMED, Vid::Internal(1, 12), NO_DATA);
/// Copy 0 of a table with the volume `root` of 20 eraseblocks.
pub const FIRST: Peb = Peb(NAMED, Vid::Table(0, 0), Data::Table(&[ROOT]));
/// Copy 1 of it.
pub const SECOND: Peb = Peb(NAMED, Vid::Table(1, 0), Data::Table(&[ROOT]));
/// Logical eraseblock 0 of that volume.
pub const A: Peb = Peb(NAMED, Vid::Leb(0, 0, 0), Data::Fill(b'A', 384));
/// Logical eraseblock 1.
pub const B: Peb = Peb(NAMED, Vid::Leb(0, 1, 0), Data::Fill(b'B', 384));
/// Logical eraseblock 2.
pub const C: Peb = Peb(NAMED, Vid::Leb(0, 2, 0), Data::Fill(b'C', 384));
/// Logical eraseblock 3, blank.
pub const EMPTY_D: Peb = Peb(NAMED, Vid::Leb(0, 3, 0), NO_DATA);
/// Copy 0 with one bit of the record flipped.
pub const FIRST_FLIPPED: Peb = Peb(NAMED, Vid::Table(0, 0), Data::Table(&[FLIPPED]));
/// Copy 0 with the volume being updated.
pub const FIRST_MARKED: Peb = Peb(NAMED, Vid::Table(0, 0), Data::Table(&[MARKED]));
/// Copy 1 with it being updated.
pub const SECOND_MARKED: Peb = Peb(NAMED, Vid::Table(1, 0), Data::Table(&[MARKED]));
/// Copy 0 with a volume of alignment 0.
pub const FIRST_ALIGNMENT_0: Peb = Peb(NAMED, Vid::Table(0, 0), Data::Table(&[ALIGNMENT_0]));
/// Copy 0 with a volume of one eraseblock more than there are.
pub const FIRST_OVERFULL: Peb = Peb(NAMED, Vid::Table(0, 0), Data::Table(&[OVERFULL]));
/// Copy 0 of a table with `root` and a volume `data` of one eraseblock.
pub const FIRST_DATA: Peb = Peb(NAMED, Vid::Table(0, 0), Data::Table(&[ROOT, DATA]));
/// Copy 1 of it.
pub const SECOND_DATA: Peb = Peb(NAMED, Vid::Table(1, 0), Data::Table(&[ROOT, DATA]));
/// Copy 0 with a volume of alignment 256, which leaves 128 bytes of each logical eraseblock free.
pub const FIRST_ALIGNED: Peb = Peb(NAMED, Vid::Table(0, 0), Data::Table(&[ALIGNMENT_256]));
/// Copy 1 of that.
pub const SECOND_ALIGNED: Peb = Peb(NAMED, Vid::Table(1, 0), Data::Table(&[ALIGNMENT_256]));
/// Logical eraseblock 0 of that volume, with 0xFF in what is left.
pub const ALIGNED_A: Peb = Peb(NAMED, Vid::Of(PADDED), Data::Fill(b'A', 256));
/// The same with zeros in what is left.
pub const ALIGNED_ZEROED: Peb = Peb(
    NAMED,
    Vid::Of(PADDED),
    Data::Runs(&[(b"A", 256), (b"\0", 128)]),
);
/// Logical eraseblock 0 of `root` with sequence number 5.
pub const OLD: Peb = Peb(NAMED, Vid::Leb(0, 0, 5), Data::Fill(b'5', 384));
/// A copy with sequence number 7 whose CRC is right.
pub const RIGHT: Peb = Peb(
    NAMED,
    Vid::Copy(0, 64, CHECK_OF_37, 7),
    Data::Fill(b'7', 64),
);
/// A copy with sequence number 9 whose CRC is wrong.
pub const WRONG_9: Peb = Peb(
    NAMED,
    Vid::Copy(0, 64, WRONG_CHECK_OF_39, 9),
    Data::Fill(b'9', 64),
);
/// One with sequence number 6.
pub const WRONG_6: Peb = Peb(
    NAMED,
    Vid::Copy(0, 64, WRONG_CHECK_OF_39, 6),
    Data::Fill(b'9', 64),
);
/// What a dynamic volume can't have: a piece of a static one.
pub const STATIC_A: Peb = Peb(
    NAMED,
    Vid::Static(0, 1, 384, CHECK_OF_41),
    Data::Fill(b'A', 384),
);
/// Copy 0 of a table with the static volume `boot` of 3 eraseblocks.
pub const FIRST_BOOT: Peb = Peb(NAMED, Vid::Table(0, 0), Data::Table(&[BOOT]));
/// Copy 1 of it.
pub const SECOND_BOOT: Peb = Peb(NAMED, Vid::Table(1, 0), Data::Table(&[BOOT]));
/// The first piece of contents of that volume: 384 bytes 0x41.
pub const BOOT_0: Peb = Peb(NAMED, Vid::Of(PIECE_0), Data::Fill(b'A', 384));
/// The second: a byte 0xFF.
pub const BOOT_1: Peb = Peb(NAMED, Vid::Of(PIECE_1), NO_DATA);
/// The first piece of other contents: 384 bytes 0x61.
pub const TEXT_0: Peb = Peb(NAMED, Vid::Of(STATIC_0), Data::Fill(b'a', 384));
/// The second: a byte 0x62, and more of these after it.
pub const TEXT_1: Peb = Peb(NAMED, Vid::Of(STATIC_1), Data::Fill(b'b', 384));
/// Copy 0 of a table with the static volume `boot` of 8 eraseblocks while it is updated.
pub const FIRST_UPDATING: Peb = Peb(NAMED, Vid::Table(0, 0), Data::Table(&[MARKED_BOOT]));
/// Copy 1 of it.
pub const SECOND_UPDATING: Peb = Peb(NAMED, Vid::Table(1, 0), Data::Table(&[MARKED_BOOT]));

/// Logical eraseblock 2 of `root` with erase counter 10.
pub const WORN_C: Peb = Peb(Ec::Of(10, IMAGE), Vid::Leb(0, 2, 0), Data::Fill(b'C', 384));
/// Logical eraseblock 1 with erase counter 11.
pub const WORN_B: Peb = Peb(Ec::Of(11, IMAGE), Vid::Leb(0, 1, 0), Data::Fill(b'B', 384));
/// Logical eraseblock 0 with erase counter 12.
pub const WORN_A: Peb = Peb(Ec::Of(12, IMAGE), Vid::Leb(0, 0, 0), Data::Fill(b'A', 384));
/// Copy 1 of its table with erase counter 13.
pub const WORN_SECOND: Peb = Peb(Ec::Of(13, IMAGE), Vid::Table(1, 0), Data::Table(&[ROOT]));
/// Copy 0 with erase counter 14.
pub const WORN_FIRST: Peb = Peb(Ec::Of(14, IMAGE), Vid::Table(0, 0), Data::Table(&[ROOT]));
/// Logical eraseblock 20 of volume 0, which `root` doesn't reserve, with sequence number 8.
pub const BEYOND: Peb = Peb(NAMED, Vid::Leb(0, 20, 8), NO_DATA);
/// The same as a static volume has it, with sequence number 7.
pub const STATIC_BEYOND: Peb = Peb(NAMED, Vid::Of(PIECE_BEYOND), Data::Fill(b'A', 384));
/// A copy of the first piece of `boot` with sequence number 1.
pub const NEWER_BOOT_0: Peb = Peb(NAMED, Vid::Of(COPIED_PIECE_0), Data::Fill(b'A', 384));
/// A copy of the second with sequence number 2.
pub const NEWER_BOOT_1: Peb = Peb(NAMED, Vid::Of(COPIED_PIECE_1), NO_DATA);
/// The first of five pieces of it.
pub const FIRST_OF_5: Peb = Peb(
    NAMED,
    Vid::Static(0, 5, 384, CHECK_OF_41),
    Data::Fill(b'A', 384),
);
/// The second of six.
pub const SECOND_OF_6: Peb = Peb(
    NAMED,
    Vid::Static(1, 6, 384, CHECK_OF_41),
    Data::Fill(b'A', 384),
);

/// The header of copy 0 of the table in a normal image, by the format's bytes.
pub const COPY_0: Vid = Vid::Sealed(TABLE_0, 0xB825_64A8);
/// That of copy 1.
pub const COPY_1: Vid = Vid::Sealed(TABLE_1, 0x1BB3_4CE4);
/// That of logical eraseblock 0 of volume 0.
pub const LEB_0: Vid = Vid::Sealed(PLAIN, 0x73B1_AB57);
/// That of logical eraseblock 1.
pub const LEB_1: Vid = Vid::Sealed(headers::LEB_1, 0xD027_831B);
/// That of logical eraseblock 2.
pub const LEB_2: Vid = Vid::Sealed(headers::LEB_2, 0xEFEC_FD8E);
/// Copy 0 of a table without volumes in a normal image.
pub const NORMAL_FIRST: Peb = Peb(Ec::Unnamed, COPY_0, Data::Table(&[]));
/// Copy 1 of it.
pub const NORMAL_SECOND: Peb = Peb(Ec::Unnamed, COPY_1, Data::Table(&[]));
/// Copy 0 of a table with the volume `root`.
pub const ROOT_FIRST: Peb = Peb(Ec::Normal, COPY_0, Data::Table(&[ROOT]));
/// Copy 1 of it.
pub const ROOT_SECOND: Peb = Peb(Ec::Normal, COPY_1, Data::Table(&[ROOT]));
/// Logical eraseblock 0 of that volume.
pub const NORMAL_A: Peb = Peb(Ec::Normal, LEB_0, Data::Fill(b'A', 384));
/// Logical eraseblock 1.
pub const NORMAL_B: Peb = Peb(Ec::Normal, LEB_1, Data::Fill(b'B', 384));
/// Logical eraseblock 2.
pub const NORMAL_C: Peb = Peb(Ec::Normal, LEB_2, Data::Fill(b'C', 384));
/// Copy 0 of a table with the static volume `boot`.
pub const BOOT_FIRST: Peb = Peb(Ec::Normal, COPY_0, Data::Table(&[BOOT]));
/// Copy 1 of it.
pub const BOOT_SECOND: Peb = Peb(Ec::Normal, COPY_1, Data::Table(&[BOOT]));
/// The first piece of its contents, 384 bytes 0x41.
pub const NORMAL_BOOT_0: Peb = Peb(
    Ec::Normal,
    Vid::Sealed(PIECE_0, 0xAAD6_692C),
    Data::Fill(b'A', 384),
);
/// The second, a byte 0xFF.
pub const NORMAL_BOOT_1: Peb = Peb(Ec::Normal, Vid::Sealed(PIECE_1, 0xB77E_48CF), NO_DATA);
/// Its one piece when it is damaged: a byte whose CRC isn't 0.
pub const NORMAL_DAMAGED: Peb = Peb(Ec::Normal, Vid::Sealed(DAMAGED, 0xA3B7_F98B), NO_DATA);
/// A free eraseblock with the erase-counter header of normal images of no image.
pub const UNNAMED_FREE: Peb = Peb(Ec::Unnamed, Vid::Blank, NO_DATA);
