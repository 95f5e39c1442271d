//! Records of the volume table that images of several layers are made of.

use ubi_media::{VolKind, VolName, VolumeRecord};

/// The fields of a record, as they stand, the first byte of its padding, and its CRC. Another program worked the CRCs out.
#[derive(Clone, Copy)]
pub struct Slot {
    pub reserved: u32,
    pub alignment: u32,
    pub data_pad: u32,
    pub kind: u8,
    pub marker: u8,
    pub name_len: u16,
    pub name: &'static [u8],
    pub flags: u8,
    pub padding: u8,
    pub check: u32,
}

/// No volume.
pub const EMPTY: Slot = Slot {
    reserved: 0,
    alignment: 0,
    data_pad: 0,
    kind: 0,
    marker: 0,
    name_len: 0,
    name: b"",
    flags: 0,
    padding: 0,
    check: 0xF116_C36B,
};

/// A dynamic volume of 20 eraseblocks.
pub const ROOT: Slot = Slot {
    reserved: 20,
    alignment: 1,
    data_pad: 0,
    kind: 1,
    marker: 0,
    name_len: 4,
    name: b"root",
    flags: 0,
    padding: 0,
    check: 0x71DF_B11D,
};

/// The same with one bit of its name flipped.
pub const FLIPPED: Slot = Slot {
    name: b"soot",
    ..ROOT
};

/// The same with alignment 0.
pub const ALIGNMENT_0: Slot = Slot {
    alignment: 0,
    check: 0xD136_075E,
    ..ROOT
};

/// The same with alignment 256: it leaves 128 of 384 bytes free.
pub const ALIGNMENT_256: Slot = Slot {
    alignment: 256,
    data_pad: 128,
    check: 0x30ED_19E0,
    ..ROOT
};

/// The same while it is updated.
pub const MARKED: Slot = Slot {
    marker: 1,
    check: 0x9B01_910D,
    ..ROOT
};

/// A dynamic volume of all eraseblocks that a device of 32 has left.
pub const FULL: Slot = Slot {
    reserved: 30,
    check: 0xDB2A_7C85,
    ..ROOT
};

/// A dynamic volume of one more.
pub const OVERFULL: Slot = Slot {
    reserved: 31,
    check: 0xCA32_E2B9,
    ..ROOT
};

/// A dynamic volume of 3.
pub const SMALL_ROOT: Slot = Slot {
    reserved: 3,
    check: 0xCC6C_8E28,
    ..ROOT
};

/// One of 20 with type 3.
pub const KIND_3: Slot = Slot {
    kind: 3,
    check: 0x4B64_2D95,
    ..ROOT
};

/// One with a byte after the zero of its name.
pub const BEHIND: Slot = Slot {
    name: b"root\0\x01",
    check: 0xA4DC_AEDB,
    ..ROOT
};

/// A dynamic volume `data` of one eraseblock.
pub const DATA: Slot = Slot {
    reserved: 1,
    name: b"data",
    check: 0x7C57_61B3,
    ..ROOT
};

/// A static volume of 3 eraseblocks.
pub const BOOT: Slot = Slot {
    reserved: 3,
    kind: 2,
    name: b"boot",
    check: 0x5FAB_ACF8,
    ..ROOT
};

/// The same of 2 eraseblocks.
pub const BOOT_OF_2: Slot = Slot {
    reserved: 2,
    check: 0x4EB3_32C4,
    ..BOOT
};

/// The same of 8 eraseblocks, while it is updated.
pub const MARKED_BOOT: Slot = Slot {
    reserved: 8,
    marker: 1,
    check: 0x0E98_DF4C,
    ..BOOT
};

/// The same of 3 eraseblocks, while it is updated and grows.
pub const GROWING: Slot = Slot {
    marker: 1,
    flags: 0x41,
    check: 0x128C_137A,
    ..BOOT
};

/// A dynamic volume `a` of one eraseblock.
pub const A: Slot = Slot {
    reserved: 1,
    name_len: 1,
    name: b"a",
    check: 0x7F4F_79E4,
    ..ROOT
};

/// One named `b`.
pub const B: Slot = Slot {
    name: b"b",
    check: 0x1455_0176,
    ..A
};

/// One named `c`.
pub const C: Slot = Slot {
    name: b"c",
    check: 0x8473_D4C7,
    ..A
};

/// The first of these with the most eraseblocks that a record can name.
pub const MOST_A: Slot = Slot {
    reserved: 0x7FFF_FFFF,
    check: 0xAD63_4FE1,
    ..A
};

/// The second. Both and the table's own eraseblocks are 2^32.
pub const MOST_B: Slot = Slot {
    reserved: 0x7FFF_FFFF,
    check: 0xC679_3773,
    ..B
};

impl Slot {
    /// The bytes of the record.
    pub fn bytes(&self) -> [u8; 172] {
        let mut bytes = [0u8; 172];
        bytes[..4].copy_from_slice(&self.reserved.to_be_bytes());
        bytes[4..8].copy_from_slice(&self.alignment.to_be_bytes());
        bytes[8..12].copy_from_slice(&self.data_pad.to_be_bytes());
        bytes[12] = self.kind;
        bytes[13] = self.marker;
        bytes[14..16].copy_from_slice(&self.name_len.to_be_bytes());
        for (place, byte) in bytes[16..144].iter_mut().zip(self.name) {
            *place = *byte;
        }
        bytes[144] = self.flags;
        bytes[145] = self.padding;
        bytes[168..172].copy_from_slice(&self.check.to_be_bytes());
        bytes
    }

    /// The volume that the fields describe. `None` if its name isn't a name.
    pub fn volume(&self) -> Option<VolumeRecord> {
        let kind = if self.kind == 2 {
            VolKind::Static
        } else {
            VolKind::Dynamic
        };
        let name = VolName::new(self.name)?;
        Some(VolumeRecord {
            reserved: self.reserved,
            alignment: self.alignment,
            kind,
            marker: self.marker == 1,
            name,
            flags: self.flags,
        })
    }
}
