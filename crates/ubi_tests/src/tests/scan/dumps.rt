//! Files of which nothing is known, as tests describe them.

use std::alloc::Global;
use std::test::Fail;
use ubi_media::{EcHeader, Geometry, GeometryError, VidHeader, VolKind, write_ec, write_vid};

/// What is put at a place of a file.
#[derive(Clone, Copy)]
pub enum What {
    /// An erase-counter header that names offsets, and the image sequence number 9.
    Header(u32, u32),
    /// One that names offsets and another number.
    Numbered(u32, u32, u32),
    /// One that names offsets, and at each place of its row another number: 10, 11 and so on.
    Counted(u32, u32),
    /// What a volume-identifier header of the volume 0 begins with.
    Vid,
    /// A whole volume-identifier header of the volume 0.
    Member,
    /// What one of the volume table begins with, of the copy with this number.
    Table(u8),
    /// Both copies of the volume table, one at each place of its row: where an eraseblock has its identifier and its data, and
    /// how many zeros these are.
    Copies(usize, usize, usize),
    /// As many bytes of one value.
    Fill(u8, usize),
}

/// What is put into a file at some places: the first place, the step from one to the next, and how many there are.
pub type Row = (usize, usize, usize, What);

/// The bytes of a header that names offsets and a number.
fn numbered(vid_offset: u32, data_offset: u32, image_seq: u32) -> Result<[u8; 64], GeometryError> {
    let geometry = Geometry::new(0x0100_0000, 64, vid_offset, data_offset, 2)?;
    let header = EcHeader {
        counter: 7,
        image_seq,
    };
    Ok(write_ec(&geometry, &header))
}

/// The bytes of a header that names offsets, and the number 9.
pub fn header(vid_offset: u32, data_offset: u32) -> Result<[u8; 64], GeometryError> {
    numbered(vid_offset, data_offset, 9)
}

/// The first 16 bytes of the volume-identifier header of the volume 0: magic, version, type and flags, volume, logical eraseblock.
static VID: [u8; 16] = [b'U', b'B', b'I', b'!', 1, 1, 0, 0, 0, 0, 0, 0, 0, 0, 0, 0];

/// The bytes of a volume-identifier header of LEB 0 of the volume 0.
fn member_vid() -> [u8; 64] {
    write_vid(&VidHeader {
        kind: VolKind::Dynamic,
        copy_flag: false,
        compat: 0,
        vol_id: 0,
        lnum: 0,
        data_size: 0,
        used_ebs: 0,
        data_pad: 0,
        data_crc: 0,
        sqnum: 0,
    })
}

/// Those of the volume table, of the copy with this number.
pub fn table_vid(copy: u8) -> [u8; 16] {
    [
        b'U', b'B', b'I', b'!', 1, 1, 0, 5, 0x7F, 0xFF, 0xEF, 0xFF, 0, 0, 0, copy,
    ]
}

/// Puts bytes at a place, as far as there is room.
pub fn put(bytes: &mut [u8], at: usize, new: &[u8]) {
    for (index, byte) in new.iter().enumerate() {
        if let Some(old) = bytes.get_mut(at.saturating_add(index)) {
            *old = *byte;
        }
    }
}

/// Puts bytes of one value at a place, as far as there is room.
fn fill(bytes: &mut [u8], at: usize, value: u8, count: usize) {
    for index in 0..count {
        put(bytes, at.saturating_add(index), &[value]);
    }
}

/// The number of the header at a place of its row.
fn counted(index: usize) -> u32 {
    u32::try_from(index).unwrap_or(0).saturating_add(10)
}

/// Puts something at a place, the next of its row.
fn put_what(bytes: &mut [u8], at: usize, what: What, index: usize) -> Result<(), GeometryError> {
    match what {
        What::Header(vid, data) => put(bytes, at, &header(vid, data)?),
        What::Numbered(vid, data, seq) => put(bytes, at, &numbered(vid, data, seq)?),
        What::Counted(vid, data) => put(bytes, at, &numbered(vid, data, counted(index))?),
        What::Vid => put(bytes, at, &VID),
        What::Member => put(bytes, at, &member_vid()),
        What::Table(copy) => put(bytes, at, &table_vid(copy)),
        What::Copies(vid, data, count) => {
            put(
                bytes,
                at.saturating_add(vid),
                &table_vid(u8::from(index > 0)),
            );
            fill(bytes, at.saturating_add(data), 0, count);
        }
        What::Fill(value, count) => fill(bytes, at, value, count),
    }
    Ok(())
}

/// The bytes of a file of so many bytes 0xFF, with rows put into it.
pub fn bytes_of(alloc: Global, len: usize, rows: &[Row]) -> Result<Vec<u8>, Fail> {
    let mut bytes = Vec::from_elem(alloc, 0xFF, len)?;
    for (from, step, count, what) in rows {
        for index in 0..*count {
            let at = from.saturating_add(step.saturating_mul(index));
            put_what(bytes.as_mut_slice(), at, *what, index)?;
        }
    }
    Ok(bytes)
}
