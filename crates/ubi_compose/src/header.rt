//! The volume-identifier header of a copy of the volume table.

ghost use Rattle.std.specs.Prelude.{◌≡◌};
ghost use Rattle.ubi_media.specs.Vid.{plain};
ghost use Rattle.ubi_media.specs.declared.vid.VolKind.TheVariants as kind;
ghost use Rattle.ubi_scan.specs.Members.{layout};

use ubi_media::{LAYOUT_VOLUME, REJECT, VidHeader, VolKind};

/// The header of a copy of the volume table, 0 or 1.
pub fn copy_header(copy: u32) -> VidHeader
    ensures { result ≡ plain kind.Dynamic 5 0 layout copy }
{
    VidHeader::plain(VolKind::Dynamic, REJECT, 0, LAYOUT_VOLUME, copy)
}
