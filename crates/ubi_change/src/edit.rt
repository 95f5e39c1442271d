//! Edits of the volumes of an image.

ghost use Rattle.std.specs.Prelude.{◌≡◌};
ghost use Rattle.ubi_change.specs.EditsAsked.{new_of, part_in};

use ubi_laid::Part;
use ubi_media::VolumeRecord;
use ubi_volume::Bytes;

/// A volume that is written whole: its record, and where its bytes lie in the source of contents.
///
/// A static volume holds these bytes. A dynamic one holds them from its first logical eraseblock on, and 0xFF after them.
#[derive(Clone, Copy, Debug)]
pub struct NewVolume {
    /// The record. No update is begun in the volume, whatever the marker says.
    pub entry: VolumeRecord,
    /// The place in the source of contents at which the bytes begin.
    pub start: u64,
    /// How many bytes these are.
    pub len: u64,
}

impl NewVolume {
    /// The volume in a slot.
    pub(crate) fn part(&self, id: u32) -> Part
        ensures { result ≡ part_in self.now id }
    {
        Part {
            id,
            entry: VolumeRecord {
                marker: false,
                ..self.entry
            },
            start: self.start,
            len: self.len,
        }
    }
}

/// One edit. It applies to what the edits before it leave.
#[derive(Drop)]
pub enum Edit {
    /// A volume gets another name: its number, and the name.
    Rename(u32, Bytes),
    /// A volume reserves another number of eraseblocks: its number, and how many these are.
    Resize(u32, u32),
    /// A volume is removed.
    Remove(u32),
    /// A volume is written in the place of one that is removed, and gets another number.
    Replace(u32, NewVolume),
    /// A volume is written beside the others.
    Create(NewVolume),
}

impl Edit {
    /// The volume that the edit writes.
    pub(crate) fn new_volume(&self) -> Option<NewVolume>
        ensures { result ≡ new_of self.now }
    {
        match self {
            Edit::Rename(_, _) | Edit::Resize(_, _) | Edit::Remove(_) => None,
            Edit::Replace(_, volume) | Edit::Create(volume) => Some(*volume),
        }
    }
}
