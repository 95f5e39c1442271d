//! A difference between what two images mean.

use ubi_media::{VolKind, VolName};

/// A side of a comparison.
#[derive(Clone, Copy, Debug, PartialEq, Eq)]
pub enum Side {
    /// The first image.
    Left,
    /// The second image.
    Right,
}

/// Whether a volume can be read.
#[derive(Clone, Copy, Debug, PartialEq, Eq)]
pub enum Condition {
    /// An update of the volume began and didn't end: it can't be read.
    Updating,
    /// A static volume that isn't whole: it can't be read.
    Damaged,
    /// It can be read.
    Whole,
}

/// A difference between what two images mean, `left` and `right`. If it is one of a volume, it has the volume's number.
#[derive(Clone, Copy, Debug, PartialEq, Eq)]
pub enum Difference {
    /// The image sequence numbers differ.
    ImageSeq {
        left: u32,
        right: u32,
    },
    /// Only one side has the volume.
    Only {
        id: u32,
        side: Side,
    },
    /// The kinds of the volume differ.
    Kind {
        id: u32,
        left: VolKind,
        right: VolKind,
    },
    /// The numbers of reserved eraseblocks differ.
    Reserved {
        id: u32,
        left: u32,
        right: u32,
    },
    /// The alignments differ.
    Alignment {
        id: u32,
        left: u32,
        right: u32,
    },
    /// The flags differ.
    Flags {
        id: u32,
        left: u8,
        right: u8,
    },
    /// The names differ.
    Name {
        id: u32,
        left: VolName,
        right: VolName,
    },
    /// One side can be read, and the other can't; or neither can, for two causes.
    Condition {
        id: u32,
        left: Condition,
        right: Condition,
    },
    /// The lengths of a static volume differ, in bytes.
    Bytes {
        id: u32,
        left: u64,
        right: u64,
    },
    /// The logical eraseblocks from `first` to `last` can be read on both sides, and read differently.
    Lebs {
        id: u32,
        first: u32,
        last: u32,
    },
}
