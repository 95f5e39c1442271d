//! The name of a volume.

ghost use Rattle.std.specs.Prelude.{◌≡◌, ◌≤◌, true, false, length, MatchOption};
ghost use Rattle.ubi_media.specs.Fields.{padded};
ghost use Rattle.ubi_media.specs.Name.{is_name};

use crate::bytes::put;
use std::marker::Model;

/// The length of the longest name in bytes (`UBI_VOL_NAME_MAX`).
pub const LONGEST_NAME: usize = 127;

/// The bytes that a record has for a name and at least one zero after it.
const ROOM: usize = 128;

/// The name of a volume: 1 to 127 bytes, none of them zero. Its model is the list of its bytes.
#[derive(Clone, Copy, Debug, PartialEq, Eq)]
pub struct VolName {
    /// The name, and zeros after it.
    bytes: [u8; ROOM],
    len: u8,
}

impl Model for VolName {
    ghost use Rattle.std.specs.Prelude.{List, ℕ, take, length};
    ghost use Rattle.ubi_media.specs.Fields.{padded};
    ghost use Rattle.ubi_media.specs.Name.{IsPadded};

    ghost Value = { List ℕ };

    ghost view = { λ n. take n.len n.bytes };

    ghost invariant = { λ n. IsPadded n.bytes n.len };

    ghost inverse = { λ name. record { bytes = padded name; len = length name } };

    ghost inverse_ok = { λ n h. λ i. record { bytes = h.rest i; len = h.len_is i } };
}

impl VolName {
    /// The name of these bytes. `None` if there are none or more than 127, or if one of them is zero.
    pub fn new(name: &[u8]) -> Option<VolName>
        ensures { MatchOption result (is_name name.now ≡ false) (λ n. (is_name name.now ≡ true) × (n ≡ name.now)) }
    {
        if name.is_empty() || name.len() > LONGEST_NAME || name.contains(&0) {
            return None;
        }
        Some(VolName {
            bytes: padded(name),
            len: name.len() as u8,
        })
    }

    /// The bytes of the name.
    pub fn as_bytes(&self) -> &[u8]
        ensures value { result.now ≡ self.now }
        ensures limits { is_name self.now ≡ true }
    {
        &self.bytes[..self.len as usize]
    }
}

/// The bytes of a name as a record holds them, with zeros after it.
pub fn padded(name: &[u8]) -> [u8; ROOM]
    requires { length name.now ≤ 128 }
    ensures { result ≡ padded name.now }
{
    let mut bytes = [0u8; ROOM];
    put(&mut bytes, 0, name);
    bytes
}
