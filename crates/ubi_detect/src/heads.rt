//! The erase-counter headers of a file of which nothing else is known.

ghost use Rattle.std.specs.Prelude.{◌≡◌, ◌+◌, ◌≤◌, ◌==◌, ◌||◌, MatchOption, length, not, slice_range};
ghost use Rattle.ubi_detect.specs.inner.Joined.{IsJoined, NoneOwns};
ghost use Rattle.ubi_detect.specs.Heads.{is_of, key_in, same_key, same_offsets};

use byteorder::{BigEndian, ByteOrder};
use ubi_media::{EC_MAGIC, EcOffsets, EcStart, read_start};

/// Headers are looked for at multiples of this many bytes.
pub const STEP: u64 = 64;

/// What the headers of one image name in common.
#[derive(Clone, Copy)]
pub struct Key {
    /// The offsets of the volume-identifier header and of the data in an eraseblock.
    pub offsets: EcOffsets,
    /// The image sequence number; 0 means none.
    pub image_seq: u32,
}

impl Key {
    /// Whether another header names the same offsets.
    pub fn has_offsets_of(&self, other: &Key) -> bool
        ensures { result ≡ same_offsets self.now other.now }
    {
        self.offsets.vid_offset == other.offsets.vid_offset
            && self.offsets.data_offset == other.offsets.data_offset
    }

    /// Whether another header names the same offsets and the same number.
    pub fn is_same(&self, other: &Key) -> bool
        ensures { result ≡ same_key self.now other.now }
    {
        self.has_offsets_of(other) && self.image_seq == other.image_seq
    }

    /// Whether another header belongs to the group of this key: it names the same offsets, and the same number or none.
    pub fn owns(&self, other: &Key) -> bool
        ensures { result ≡ is_of self.now other.now }
    {
        self.has_offsets_of(other) && (other.image_seq == self.image_seq || other.image_seq == 0)
    }

    /// The key of the group that has both a header of this key and one of another, if there is one.
    pub fn joined(&self, other: &Key) -> Option<Key>
        ensures { MatchOption result (NoneOwns self.now other.now) (IsJoined self.now other.now) }
    {
        if self.owns(other) {
            Some(*self)
        } else if other.owns(self) {
            Some(*other)
        } else {
            None
        }
    }

    /// Whether another header gives no number to the offsets of this one: it names other offsets, or no number.
    pub fn is_unnumbered_by(&self, other: &Key) -> bool
        ensures { result ≡ not (same_offsets self.now other.now) || (other.now.image_seq == 0) }
    {
        !self.has_offsets_of(other) || other.image_seq == 0
    }
}

/// A header of a file.
#[derive(Clone, Copy)]
pub struct Head {
    /// Where it begins.
    pub place: u64,
    /// What it names.
    pub key: Key,
}

/// What 64 bytes name, if they are a header.
#[tactic(auto, unfolding(ubi_media::specs::Ec::ec_fields))]
pub fn key_in(bytes: &[u8; 64]) -> Option<Key>
    ensures { result ≡ key_in bytes.now }
{
    match read_start(bytes) {
        EcStart::Header(offsets) => Some(Key {
            offsets,
            image_seq: BigEndian::read_u32(&bytes[24..28]),
        }),
        EcStart::Blank | EcStart::Other => None,
    }
}

/// What the 64 bytes from a place of others on name, if they are a header. Most begin with another magic, and aren't looked at further.
pub fn key_within(bytes: &[u8], at: usize) -> Option<Key>
    requires { at + 64 ≤ length bytes.now }
    ensures { result ≡ key_in (slice_range bytes.now at (at + 64)) }
{
    if BigEndian::read_u32(&bytes[at..at + 4]) != EC_MAGIC {
        return None;
    }
    let mut front = [0u8; 64];
    front.copy_from_slice(&bytes[at..at + 64]);
    key_in(&front)
}
