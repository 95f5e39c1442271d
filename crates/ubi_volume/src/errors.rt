//! Why a volume isn't read, and why volumes have no meaning together.

ghost use Rattle.std.specs.Prelude.{Some, ◌≡◌};
ghost use Rattle.ubi_volume.specs.ErrorTexts.{read_error_text, meaning_cause_text};
ghost use Rattle.ubi_volume.specs.declared.errors.ReadError.{ReadError};

use crate::content::Volume;
use std::alloc::AllocError;
use std::error::Error;
use std::fmt;
use ubi_media::RecFault;

/// Why a volume, or one of its logical eraseblocks, isn't read.
#[derive(Clone, Copy, Debug, PartialEq, Eq)]
pub enum ReadError {
    /// No volume has the number.
    NoVolume,
    /// An update of the volume began and didn't end.
    Updating,
    /// The volume is static, and isn't whole.
    Damaged,
    /// The volume has no such logical eraseblock.
    OutOfRange,
    /// A write failed, after this many bytes were written.
    Write(u64),
    /// Memory ran out.
    Memory,
}

impl fmt::Display for ReadError {
    ghost output = { λ error. Some (read_error_text error) };

    fn fmt<W: fmt::Write>(&self, f: &mut fmt::Formatter<W>) -> fmt::Result {
        match self {
            ReadError::NoVolume => f.write_str("L1 NoVolume"),
            ReadError::Updating => f.write_str("L2 Updating"),
            ReadError::Damaged => f.write_str("L3 Damaged"),
            ReadError::OutOfRange => f.write_str("L4 OutOfRange"),
            ReadError::Write(written) => write!(f, "a write failed written={written}"),
            ReadError::Memory => f.write_str("out of memory"),
        }
    }
}

impl Error for ReadError {}

impl From<AllocError> for ReadError {
    ghost from_gives = { λ _ e. e ≡ ReadError.Memory };

    fn from(_: AllocError) -> ReadError {
        ReadError::Memory
    }
}

/// Why volumes have no meaning together. If several causes apply, it is the first in this order, with the least of its
/// items; items are counted from 0.
#[derive(Clone, Copy, Debug, PartialEq, Eq)]
pub enum MeaningCause {
    /// The number of the item isn't below the slots of the volume table.
    IdRange(usize),
    /// The number of the item is also that of an earlier item.
    SameId(usize),
    /// The record of the item breaks a rule: the item, and the first rule that it breaks.
    Record(usize, RecFault),
    /// The name of the item is also that of an earlier item: both items.
    SameName(usize, usize),
    /// The volumes and the two copies of the volume table need more eraseblocks than the device has.
    NoSpace,
    /// The content of the item isn't one that its record allows: it is of the other kind, or is `Updating` without the
    /// update marker, or isn't with it; a logical eraseblock isn't below those that are reserved, or hasn't as many bytes
    /// as the volume uses; or the contents of a static volume have more bytes than its eraseblocks hold.
    ContentRange(usize),
}

impl fmt::Display for MeaningCause {
    ghost output = { λ cause. Some (meaning_cause_text cause) };

    fn fmt<W: fmt::Write>(&self, f: &mut fmt::Formatter<W>) -> fmt::Result {
        match self {
            MeaningCause::IdRange(item) => write!(f, "M1 IdRange item={item}"),
            MeaningCause::SameId(item) => write!(f, "M2 SameId item={item}"),
            MeaningCause::Record(item, fault) => write!(f, "M3 Record item={item} {fault}"),
            MeaningCause::SameName(item, earlier) => write!(
                f,
                "M4 SameName item={item} earlier={earlier}"
            ),
            MeaningCause::NoSpace => f.write_str("M5 NoSpace"),
            MeaningCause::ContentRange(item) => write!(f, "M6 ContentRange item={item}"),
        }
    }
}

impl Error for MeaningCause {}

/// Volumes that have no meaning together, and why.
#[derive(Drop)]
pub struct MeaningError {
    /// The first cause.
    pub cause: MeaningCause,
    /// The volumes, as they were handed in.
    pub volumes: Vec<(u32, Volume)>,
}

impl fmt::Display for MeaningError {
    ghost output = { λ error. Some (meaning_cause_text error.cause) };

    fn fmt<W: fmt::Write>(&self, f: &mut fmt::Formatter<W>) -> fmt::Result {
        write!(f, "{}", self.cause)
    }
}
