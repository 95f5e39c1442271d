//! Headers as they stand, each with its CRC. Another program worked out the CRCs of what tests make of them.

use ubi_media::{VidHeader, VolKind};

/// A volume-identifier header as it stands, with its CRC.
#[derive(Clone, Copy)]
pub struct SealedVid(pub VidHeader, pub u32);

impl SealedVid {
    /// The bytes of the header.
    pub fn bytes(&self) -> [u8; 64] {
        let SealedVid(header, check) = self;
        let mut bytes = [0u8; 64];
        bytes[..4].copy_from_slice(b"UBI!");
        bytes[4] = 1;
        bytes[5] = match header.kind {
            VolKind::Dynamic => 1,
            VolKind::Static => 2,
        };
        bytes[6] = u8::from(header.copy_flag);
        bytes[7] = header.compat;
        bytes[8..12].copy_from_slice(&header.vol_id.to_be_bytes());
        bytes[12..16].copy_from_slice(&header.lnum.to_be_bytes());
        bytes[20..24].copy_from_slice(&header.data_size.to_be_bytes());
        bytes[24..28].copy_from_slice(&header.used_ebs.to_be_bytes());
        bytes[28..32].copy_from_slice(&header.data_pad.to_be_bytes());
        bytes[32..36].copy_from_slice(&header.data_crc.to_be_bytes());
        bytes[40..48].copy_from_slice(&header.sqnum.to_be_bytes());
        bytes[60..64].copy_from_slice(&check.to_be_bytes());
        bytes
    }
}
