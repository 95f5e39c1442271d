//! Where the volumes that edits write are placed.

ghost use Rattle.std.specs.FinMap as finite;
ghost use Rattle.std.specs.List.{AllByRecursion};
ghost use Rattle.std.specs.Prelude.{◌≡◌, ℕ, ◌<◌, Bool, IfOk, None, OnOk};
ghost use Rattle.ubi_change.specs.EditsAsked.{news_of};
ghost use Rattle.ubi_change.specs.Placed.{free_slots, is_free, parts_of, records_with};
ghost use Rattle.ubi_change.specs.inner.Drafting.{TellsUsed};
ghost use Rattle.ubi_media.specs.Geometry.{slots};
ghost use Rattle.ubi_media.specs.Record.{rec_fault};

use crate::drafting::is_taken;
use crate::edit::{Edit, NewVolume};
use std::alloc::{AllocError, Global};
use ubi_laid::Part;
use ubi_scan::Scan;
use ubi_table::{Draft, Table};

/// Whether a slot has no volume, and no logical eraseblock of one with its number is taken.
fn is_free(scan: &Scan, ends: &[u64], table: &Table, slot: u32) -> bool
    ensures { (used : ℕ → ℕ → Bool) → TellsUsed scan.now.winners ends.now used → result ≡ is_free used table.now slot }
{
    table.get(slot).is_none() && !is_taken(scan, ends, slot, 0)
}

/// The free slots, in ascending order. `ends` says what is hidden ([`crate::Hidden`]).
///
/// # Errors
///
/// Memory ran out.
pub fn free_slots(
    alloc: Global,
    scan: &Scan,
    ends: &[u64],
    table: &Table,
) -> Result<Vec<u32>, AllocError>
    ensures free { IfOk result (λ free. (used : ℕ → ℕ → Bool) → TellsUsed scan.now.winners ends.now used → free.items ≡ free_slots used table.now) }
    ensures below { IfOk result (λ free. AllByRecursion (λ slot. slot < slots table.now.sizes) free.items) }
{
    let mut free = Vec::new(alloc);
    for slot in 0..table.geometry().slots() {
        if is_free(scan, ends, table, slot) {
            free.push(slot)?;
        }
    }
    Ok(free)
}

/// The volumes that edits write, in order.
///
/// # Errors
///
/// Memory ran out.
pub fn new_volumes(alloc: Global, edits: &[Edit]) -> Result<Vec<NewVolume>, AllocError>
    ensures { IfOk result (λ volumes. volumes.items ≡ news_of edits.now) }
{
    let mut volumes = Vec::new(alloc);
    for i in 0..edits.len() {
        if let Some(volume) = edits[i].new_volume() {
            volumes.push(volume)?;
        }
    }
    Ok(volumes)
}

/// The parts of volumes in slots, as far as there are as many.
///
/// # Errors
///
/// Memory ran out.
pub fn parts_of(
    alloc: Global,
    slots: &[u32],
    volumes: &[NewVolume],
) -> Result<Vec<Part>, AllocError>
    ensures { IfOk result (λ parts. parts.items ≡ parts_of slots.now volumes.now) }
{
    let mut parts = Vec::new(alloc);
    for i in 0..slots.len().min(volumes.len()) {
        parts.push(volumes[i].part(slots[i]))?;
    }
    Ok(parts)
}

/// Gives the records of parts to their slots.
///
/// # Errors
///
/// Memory ran out.
pub fn place(draft: &mut Draft, parts: &[Part]) -> Result<(), AllocError>
    requires below { AllByRecursion (λ p. p.id < slots draft.old.sizes) parts.now }
    requires sound { AllByRecursion (λ p. rec_fault draft.old.sizes p.entry ≡ None) parts.now }
    ensures { OnOk result (draft.new ≡ records_with draft.old parts.now) }
{
    let mut left = parts.len();
    while left > 0 {
        left -= 1;
        let part = parts[left];
        draft.set(part.id, part.entry)?;
    }
    Ok(())
}
