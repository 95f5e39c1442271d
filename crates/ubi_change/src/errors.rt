//! Why a change, a rename or edits aren't planned.

ghost use Rattle.std.specs.Prelude.{◌≡◌, Some};
ghost use Rattle.ubi_change.specs.declared.errors.ChangeRefusal.{ChangeRefusal};
ghost use Rattle.ubi_change.specs.declared.errors.RenameRefusal.{RenameRefusal};
ghost use Rattle.ubi_change.specs.declared.errors.ContentsError.{ContentsError};
ghost use Rattle.ubi_change.specs.declared.errors.UpdateError.{UpdateError};
ghost use Rattle.ubi_change.specs.declared.errors.UpdateRefusal.{UpdateRefusal};
ghost use Rattle.ubi_change.specs.ErrorTexts.{change_refusal_text, contents_error_text, edit_fault_text, plan_error_text, rename_refusal_text, update_error_text, update_refusal_text};

use std::alloc::AllocError;
use std::error::Error;
use std::fmt;
use ubi_media::{RecFault, Refusal};

/// Why a change isn't planned: the first cause that applies, in this order. `Memory` may come at any allocation, whatever
/// else applies.
#[derive(Clone, Copy, Debug, PartialEq, Eq)]
pub enum ChangeRefusal {
    /// The image is refused, for this cause.
    Attach(Refusal),
    /// The volume has no record.
    NoVolume,
    /// The volume is static.
    StaticVolume,
    /// An update of the volume began and didn't end.
    Updating,
    /// The volume doesn't reserve the logical eraseblock.
    OutOfRange,
    /// There are no new bytes, they aren't whole pages, or they are more than the volume uses of a logical eraseblock.
    BadLength,
    /// The first pages of the new bytes, as many as this, and then 0xFF, aren't the new bytes but have the same CRC: after a
    /// cut there the copy would look whole. The number is the least such one.
    WeakCheck(u32),
    /// The sequence numbers that the plan needs would pass 2^64 - 1.
    Exhausted,
    /// Fewer eraseblocks can be taken than the plan needs: one if the logical eraseblock has a winner, and two if not.
    NoFree,
    /// Memory ran out.
    Memory,
}

impl fmt::Display for ChangeRefusal {
    ghost output = { λ cause. Some (change_refusal_text cause) };

    fn fmt<W: fmt::Write>(&self, f: &mut fmt::Formatter<W>) -> fmt::Result {
        match self {
            ChangeRefusal::Attach(cause) => write!(f, "{cause}"),
            ChangeRefusal::NoVolume => f.write_str("K2 NoVolume"),
            ChangeRefusal::StaticVolume => f.write_str("K3 StaticVolume"),
            ChangeRefusal::Updating => f.write_str("K4 Updating"),
            ChangeRefusal::OutOfRange => f.write_str("K5 OutOfRange"),
            ChangeRefusal::BadLength => f.write_str("K6 BadLength"),
            ChangeRefusal::WeakCheck(pages) => write!(f, "K7 WeakCheck pages={pages}"),
            ChangeRefusal::Exhausted => f.write_str("K8 Exhausted"),
            ChangeRefusal::NoFree => f.write_str("K9 NoFree"),
            ChangeRefusal::Memory => f.write_str("out of memory"),
        }
    }
}

impl Error for ChangeRefusal {}

impl From<AllocError> for ChangeRefusal {
    ghost from_gives = { λ _ e. e ≡ ChangeRefusal.Memory };

    fn from(_: AllocError) -> ChangeRefusal {
        ChangeRefusal::Memory
    }
}

/// Why a rename isn't planned: the first cause that applies, in this order. `Memory` may come at any allocation, whatever
/// else applies.
#[derive(Clone, Copy, Debug, PartialEq, Eq)]
pub enum RenameRefusal {
    /// The image is refused, for this cause.
    Attach(Refusal),
    /// The volume has no record.
    NoVolume,
    /// The bytes aren't a name: there are none, there are more than 127, or one of them is zero.
    BadName,
    /// Another volume has the name: its slot.
    SameName(u32),
    /// The two copies of the volume table aren't both good with equal tables.
    NeedsRepair,
    /// The first pages of the new table, as many as this, and then 0xFF, aren't the new table but have the same CRC. The
    /// number is the least such one.
    WeakCheck(u32),
    /// The two sequence numbers that the plan needs would pass 2^64 - 1.
    Exhausted,
    /// Fewer than two eraseblocks can be taken.
    NoFree,
    /// Memory ran out.
    Memory,
}

impl fmt::Display for RenameRefusal {
    ghost output = { λ cause. Some (rename_refusal_text cause) };

    fn fmt<W: fmt::Write>(&self, f: &mut fmt::Formatter<W>) -> fmt::Result {
        match self {
            RenameRefusal::Attach(cause) => write!(f, "{cause}"),
            RenameRefusal::NoVolume => f.write_str("K2 NoVolume"),
            RenameRefusal::BadName => f.write_str("N1 BadName"),
            RenameRefusal::SameName(slot) => write!(f, "N2 SameName slot={slot}"),
            RenameRefusal::NeedsRepair => f.write_str("N3 NeedsRepair"),
            RenameRefusal::WeakCheck(pages) => write!(f, "K7 WeakCheck pages={pages}"),
            RenameRefusal::Exhausted => f.write_str("K8 Exhausted"),
            RenameRefusal::NoFree => f.write_str("K9 NoFree"),
            RenameRefusal::Memory => f.write_str("out of memory"),
        }
    }
}

impl Error for RenameRefusal {}

impl From<AllocError> for RenameRefusal {
    ghost from_gives = { λ _ e. e ≡ RenameRefusal.Memory };

    fn from(_: AllocError) -> RenameRefusal {
        RenameRefusal::Memory
    }
}

/// Why an edit isn't made: the first cause that applies, in this order.
#[derive(Clone, Copy, Debug, PartialEq, Eq)]
pub enum EditFault {
    /// The volume isn't among those that the edits before leave.
    NoVolume,
    /// The bytes aren't a name: there are none, there are more than 127, or one of them is zero.
    BadName,
    /// The record of the volume that is written, or gets another size, breaks a rule.
    Record(RecFault),
    /// There are more bytes than the volume that is written holds.
    TooLarge,
    /// The volume would get another size, but its update didn't end, or it is damaged.
    NotWhole,
    /// The volume would get another size, but an eraseblock is a member of one of its logical eraseblocks at or above the
    /// lesser of the two sizes, or a header in a listed eraseblock names one.
    InUse,
}

impl fmt::Display for EditFault {
    ghost output = { λ fault. Some (edit_fault_text fault) };

    fn fmt<W: fmt::Write>(&self, f: &mut fmt::Formatter<W>) -> fmt::Result {
        match self {
            EditFault::NoVolume => f.write_str("U1 NoVolume"),
            EditFault::BadName => f.write_str("N1 BadName"),
            EditFault::Record(fault) => write!(f, "U2 Record {fault}"),
            EditFault::TooLarge => f.write_str("U3 TooLarge"),
            EditFault::NotWhole => f.write_str("U4 NotWhole"),
            EditFault::InUse => f.write_str("U5 InUse"),
        }
    }
}

impl Error for EditFault {}

/// Why edits aren't planned: the first cause that applies, in this order; of the edits the first that has a cause. `Memory` may come
/// at any allocation, whatever else applies.
#[derive(Clone, Copy, Debug, PartialEq, Eq)]
pub enum UpdateRefusal {
    /// The image is refused, for this cause.
    Attach(Refusal),
    /// An edit isn't made: which one, from 0, and why.
    Edit(usize, EditFault),
    /// Two volumes would have one name: their slots.
    SameName(u32, u32),
    /// More volumes are written than slots are free, without a volume, without a member of one with its number, and without such a number
    /// in a header of a listed eraseblock: how many are needed, and how many there are.
    NoSlot(usize, usize),
    /// The volumes would reserve more eraseblocks than before, and with the four that UBI needs more than there are that may be touched: how
    /// many are needed, and how many there are.
    NoSpace(u64, usize),
    /// A volume that is written grows to the size of the device, and so would two of all: their slots.
    Autoresize(u32, u32),
    /// The two copies of the volume table aren't both good with equal tables.
    NeedsRepair,
    /// The first pages of the new table, as many as this, and then 0xFF, aren't the new table but have the same CRC. The
    /// number is the least such one.
    WeakCheck(u32),
    /// The sequence numbers that the plan needs would pass 2^64 - 1.
    Exhausted,
    /// Fewer eraseblocks can be taken than the plan needs: how many it needs, and how many there are.
    NoFree(usize, usize),
    /// Memory ran out.
    Memory,
}

impl fmt::Display for UpdateRefusal {
    ghost output = { λ cause. Some (update_refusal_text cause) };

    fn fmt<W: fmt::Write>(&self, f: &mut fmt::Formatter<W>) -> fmt::Result {
        match self {
            UpdateRefusal::Attach(cause) => write!(f, "{cause}"),
            UpdateRefusal::Edit(i, fault) => write!(f, "{fault} edit={i}"),
            UpdateRefusal::SameName(i, j) => write!(f, "N2 SameName slot={i} slot={j}"),
            UpdateRefusal::NoSlot(n, has) => write!(f, "U6 NoSlot needs={n} has={has}"),
            UpdateRefusal::NoSpace(n, has) => write!(f, "U7 NoSpace needs={n} has={has}"),
            UpdateRefusal::Autoresize(i, j) => write!(f, "U8 Autoresize slot={i} slot={j}"),
            UpdateRefusal::NeedsRepair => f.write_str("N3 NeedsRepair"),
            UpdateRefusal::WeakCheck(pages) => write!(f, "K7 WeakCheck pages={pages}"),
            UpdateRefusal::Exhausted => f.write_str("K8 Exhausted"),
            UpdateRefusal::NoFree(n, has) => write!(f, "K9 NoFree needs={n} has={has}"),
            UpdateRefusal::Memory => f.write_str("out of memory"),
        }
    }
}

impl Error for UpdateRefusal {}

impl From<AllocError> for UpdateRefusal {
    ghost from_gives = { λ _ e. e ≡ UpdateRefusal.Memory };

    fn from(_: AllocError) -> UpdateRefusal {
        UpdateRefusal::Memory
    }
}

/// Why the image of a source has no plan.
#[derive(Clone, Copy, Debug, PartialEq, Eq)]
pub enum PlanError<C> {
    /// A cause applies against it, or memory ran out.
    Refused(C),
    /// A read failed: the eraseblock.
    Read(u32),
    /// An eraseblock that is listed as one that may not be touched isn't Blank: the plan might have to give it up.
    NotBlank(u32),
}

impl<C: fmt::Display> fmt::Display for PlanError<C> {
    ghost output = { plan_error_text C.output };

    fn fmt<W: fmt::Write>(&self, f: &mut fmt::Formatter<W>) -> fmt::Result {
        match self {
            PlanError::Refused(cause) => write!(f, "{cause}"),
            PlanError::Read(p) => write!(f, "a read failed block={p}"),
            PlanError::NotBlank(p) => write!(f, "K10 NotBlank block={p}"),
        }
    }
}

impl<C: fmt::Debug + fmt::Display + Drop> Error for PlanError<C> {}

/// Why contents can't be read.
#[derive(Clone, Copy, Debug, PartialEq, Eq)]
pub enum ContentsError {
    /// A read failed: the slot of the volume that is written.
    Read(u32),
    /// Memory ran out.
    Memory,
}

impl fmt::Display for ContentsError {
    ghost output = { λ error. Some (contents_error_text error) };

    fn fmt<W: fmt::Write>(&self, f: &mut fmt::Formatter<W>) -> fmt::Result {
        match self {
            ContentsError::Read(id) => write!(f, "a read of contents failed volume={id}"),
            ContentsError::Memory => f.write_str("out of memory"),
        }
    }
}

impl Error for ContentsError {}

impl From<AllocError> for ContentsError {
    ghost from_gives = { λ _ e. e ≡ ContentsError.Memory };

    fn from(_: AllocError) -> ContentsError {
        ContentsError::Memory
    }
}

/// Why edits of the image of a source have no plan.
#[derive(Clone, Copy, Debug, PartialEq, Eq)]
pub enum UpdateError {
    /// A cause applies against the edits, or memory ran out.
    Refused(UpdateRefusal),
    /// A read of the image failed: the eraseblock.
    Read(u32),
    /// An eraseblock that is listed as one that may not be touched isn't Blank: the plan might have to give it up.
    NotBlank(u32),
    /// The source of contents ends before the bytes of a volume that is written do: the edit, from 0.
    Beyond(usize),
    /// A read of contents failed: for which of the volumes that are written, counted from 0 in the order of their edits.
    Contents(usize),
}

impl fmt::Display for UpdateError {
    ghost output = { λ error. Some (update_error_text error) };

    fn fmt<W: fmt::Write>(&self, f: &mut fmt::Formatter<W>) -> fmt::Result {
        match self {
            UpdateError::Refused(cause) => write!(f, "{cause}"),
            UpdateError::Read(p) => write!(f, "a read failed block={p}"),
            UpdateError::NotBlank(p) => write!(f, "K10 NotBlank block={p}"),
            UpdateError::Beyond(i) => write!(f, "the contents end too early edit={i}"),
            UpdateError::Contents(i) => write!(f, "a read of contents failed written={i}"),
        }
    }
}

impl Error for UpdateError {}

impl From<UpdateRefusal> for UpdateError {
    ghost from_gives = { λ cause e. e ≡ UpdateError.Refused cause };

    fn from(cause: UpdateRefusal) -> UpdateError {
        UpdateError::Refused(cause)
    }
}

impl From<AllocError> for UpdateError {
    ghost from_gives = { λ _ e. e ≡ UpdateError.Refused UpdateRefusal.Memory };

    fn from(_: AllocError) -> UpdateError {
        UpdateError::Refused(UpdateRefusal::Memory)
    }
}
