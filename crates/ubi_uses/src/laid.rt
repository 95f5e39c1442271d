//! A caller of `ubi_laid`.

ghost use Rattle.std.specs.Prelude.{◌≡◌, ◌<◌, ◌^◌, length};
ghost use Rattle.ubi_laid.specs.Laid.{static_block};
ghost use Rattle.ubi_media.specs.Vid.{vid_bytes};

use ubi_laid::static_header;
use ubi_media::write_vid;

/// The bytes of the header of a static volume's only logical eraseblock, which holds `text`.
pub fn lone_header(vol_id: u32, text: &[u8]) -> [u8; 64]
    requires { length text.now < 2 ^ 32 }
    ensures { result ≡ vid_bytes (static_block 0 vol_id 1 0 text.now).header }
{
    write_vid(&static_header(0, vol_id, 1, 0, text))
}
