//! Why an image is refused.

ghost use Rattle.std.specs.Prelude.{Some, ◌≡◌};
ghost use Rattle.ubi_media.specs.ErrorTexts.{refusal_text, attach_error_text};
ghost use Rattle.ubi_media.specs.declared.refusal.AttachError.{AttachError};

use crate::ec::EcFault;
use crate::record::RecFault;
use crate::vid::VidFault;
use std::alloc::AllocError;
use std::error::Error;
use std::fmt;

/// The cause for which an image is refused, with the eraseblocks, slots and volumes that it names.
///
/// The size comes first: `TooMany`, and else `Length`. Then the lowest eraseblock with a fault decides, with the first of
/// its faults from `Ec` to `SameSqnum`; then the table, with the first of `NoTable` to `NoSpace`; and last the lowest
/// eraseblock with a `Mismatch`.
#[derive(Clone, Copy, Debug, PartialEq, Eq)]
pub enum Refusal {
    /// The image is empty, or its bytes aren't whole eraseblocks.
    Length,
    /// The image has more bytes than the device.
    TooMany,
    /// The erase-counter header of an eraseblock is at fault.
    Ec(u32, EcFault),
    /// An eraseblock has another image sequence number than one before it.
    ImageSeq(u32),
    /// The volume-identifier header of an eraseblock is at fault.
    Vid(u32, VidFault),
    /// An eraseblock belongs to an internal volume that may not be dropped: the eraseblock and the volume.
    Incompatible(u32, u32),
    /// An eraseblock says that it is one of the layout volume's, but can't be one.
    Layout(u32),
    /// An eraseblock has the logical eraseblock and the sequence number of an earlier one: both eraseblocks.
    SameSqnum(u32, u32),
    /// No eraseblock holds a volume table, but some are in use.
    NoTable,
    /// Neither copy of the volume table can be read.
    BothCorrupt,
    /// A record of the volume table is at fault: its eraseblock, its slot and its fault.
    Record(u32, u32, RecFault),
    /// Two records of the volume table have one name: their eraseblock and their slots.
    SameName(u32, u32, u32),
    /// The volumes reserve more eraseblocks than the device has.
    NoSpace,
    /// An eraseblock is unlike the record of its volume.
    Mismatch(u32),
}

impl fmt::Display for Refusal {
    ghost output = { λ cause. Some (refusal_text cause) };

    fn fmt<W: fmt::Write>(&self, f: &mut fmt::Formatter<W>) -> fmt::Result {
        match self {
            Refusal::Length => f.write_str("S1 Length"),
            Refusal::TooMany => f.write_str("S2 TooMany"),
            Refusal::Ec(p, fault) => write!(f, "S3 Ec block={p} {fault}"),
            Refusal::ImageSeq(p) => write!(f, "S4 ImageSeq block={p}"),
            Refusal::Vid(p, fault) => write!(f, "S5 Vid block={p} {fault}"),
            Refusal::Incompatible(p, volume) => {
                write!(f, "S6 Incompatible block={p} volume={volume}")
            }
            Refusal::Layout(p) => write!(f, "S7 Layout block={p}"),
            Refusal::SameSqnum(p, earlier) => {
                write!(f, "S8 SameSqnum block={p} earlier={earlier}")
            }
            Refusal::NoTable => f.write_str("T1 NoTable"),
            Refusal::BothCorrupt => f.write_str("T2 BothCorrupt"),
            Refusal::Record(p, slot, fault) => {
                write!(f, "T3 Record block={p} slot={slot} {fault}")
            }
            Refusal::SameName(p, slot, next) => {
                write!(f, "T4 SameName block={p} slot={slot} slot={next}")
            }
            Refusal::NoSpace => f.write_str("T5 NoSpace"),
            Refusal::Mismatch(p) => write!(f, "V1 Mismatch block={p}"),
        }
    }
}

impl Error for Refusal {}

/// Why an image couldn't be attached.
#[derive(Clone, Copy, Debug, PartialEq, Eq)]
pub enum AttachError {
    /// The image is refused.
    Refused(Refusal),
    /// Memory ran out.
    Memory,
}

impl fmt::Display for AttachError {
    ghost output = { λ error. Some (attach_error_text error) };

    fn fmt<W: fmt::Write>(&self, f: &mut fmt::Formatter<W>) -> fmt::Result {
        match self {
            AttachError::Refused(cause) => write!(f, "{cause}"),
            AttachError::Memory => f.write_str("out of memory"),
        }
    }
}

impl Error for AttachError {}

impl From<AllocError> for AttachError {
    ghost from_gives = { λ _ e. e ≡ AttachError.Memory };

    fn from(_: AllocError) -> AttachError {
        AttachError::Memory
    }
}

impl From<Refusal> for AttachError {
    ghost from_gives = { λ r e. e ≡ AttachError.Refused r };

    fn from(refusal: Refusal) -> AttachError {
        AttachError::Refused(refusal)
    }
}
