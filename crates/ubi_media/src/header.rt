//! What the two headers of an eraseblock have in common: 64 bytes, of which the first four are a magic number and the
//! last four the CRC of those before.

ghost use Rattle.std.specs.Prelude.{◌≡◌};
ghost use Rattle.ubi_media.specs.Fields.{form_of};

use crate::bytes::is_blank;
use crate::check::is_sealed;
use byteorder::{BigEndian, ByteOrder};

/// The offset of the CRC in a header.
pub const CHECK: usize = 60;

/// What 64 bytes are before the rules of their header are tried.
#[derive(Clone, Copy)]
pub enum Form {
    /// Without the magic, and 0xFF throughout.
    Blank,
    /// Not blank; without the magic, or with it and a wrong CRC.
    Corrupt,
    /// With the magic and the right CRC.
    Sealed,
}

/// The form of the bytes of a header with a magic.
#[tactic(auto, unfolding(crate::specs::Fields::form_of))]
pub fn form_of(magic: u32, bytes: &[u8; 64]) -> Form
    ensures { result ≡ form_of magic bytes.now }
{
    if BigEndian::read_u32(&bytes[0..4]) != magic {
        return if is_blank(bytes) {
            Form::Blank
        } else {
            Form::Corrupt
        };
    }
    if is_sealed(bytes, CHECK) {
        Form::Sealed
    } else {
        Form::Corrupt
    }
}
