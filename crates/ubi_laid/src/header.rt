//! The volume-identifier headers of the eraseblocks of static volumes.

ghost use Rattle.std.specs.Prelude.{◌≡◌, ◌<◌, ◌^◌, length};
ghost use Rattle.ubi_media.specs.Vid.{plain};
ghost use Rattle.ubi_media.specs.declared.vid.VolKind.TheVariants as kind;
ghost use Rattle.ubi_laid.specs.Laid.{damaged_block, piece_header, static_block};

use ubi_media::{VidHeader, VolKind, crc};

/// The header of a logical eraseblock of a static volume of `used_ebs` of them, by the size of its data and their CRC.
pub fn piece_header(
    data_pad: u32,
    vol_id: u32,
    used_ebs: u32,
    lnum: u32,
    data_size: u32,
    data_crc: u32,
) -> VidHeader
    ensures { result ≡ piece_header (plain kind.Static 0 data_pad vol_id lnum) used_ebs data_size data_crc }
{
    VidHeader {
        data_size,
        used_ebs,
        data_crc,
        ..VidHeader::plain(VolKind::Static, 0, data_pad, vol_id, lnum)
    }
}

/// The header of a logical eraseblock of a static volume of `used_ebs` of them, which holds the bytes `text`.
pub fn static_header(data_pad: u32, vol_id: u32, used_ebs: u32, lnum: u32, text: &[u8]) -> VidHeader
    requires { length text.now < 2 ^ 32 }
    ensures { result ≡ (static_block data_pad vol_id used_ebs lnum text.now).header }
{
    let size = text.len() as u32;
    piece_header(data_pad, vol_id, used_ebs, lnum, size, crc(text))
}

/// The header of the one eraseblock of a damaged volume: the CRC isn't that of its one byte.
pub fn damaged_header(data_pad: u32, vol_id: u32) -> VidHeader
    ensures { result ≡ (damaged_block data_pad vol_id).header }
{
    VidHeader {
        data_size: 1,
        used_ebs: 1,
        ..VidHeader::plain(VolKind::Static, 0, data_pad, vol_id, 0)
    }
}
