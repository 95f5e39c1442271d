//! A table that is being edited.

ghost use Rattle.std.specs.FinMap as finite;
ghost use Rattle.std.specs.Prelude.{◌≡◌, ◌<◌, IfErr, IfOk, None, OnOk, option_copied};
ghost use Rattle.ubi_media.specs.Geometry.{slots};
ghost use Rattle.ubi_media.specs.Record.{rec_fault};
ghost use Rattle.ubi_table.specs.Drafted.{AreDrafted, ComesTwice, with_record, without_record};
ghost use Rattle.ubi_table.specs.Records.{twice};
ghost use Rattle.ubi_table.specs.declared.draft.DraftError.{DraftError};

use crate::table::{Table, twice};
use std::alloc::{AllocError, Global};
use std::collections::BTreeMap;
use std::marker::Model;
use ubi_media::{Geometry, VolumeRecord};

/// Why a draft is no table.
#[derive(Clone, Copy, Debug, PartialEq, Eq)]
pub enum DraftError {
    /// A name comes again: the first slot whose name does, and the next that has it.
    Twice(u32, u32),
    /// Memory ran out.
    Memory,
}

impl From<AllocError> for DraftError {
    ghost from_gives = { λ _ e. e ≡ DraftError.Memory };

    fn from(_: AllocError) -> DraftError {
        DraftError::Memory
    }
}

/// The records of a table that is being edited, by the number of their volume.
///
/// Each number is below the number of slots, and each record meets the rules of the geometry; but two may have one name.
#[derive(Drop)]
pub struct Draft {
    geometry: Geometry,
    held: BTreeMap<u32, VolumeRecord>,
}

impl Model for Draft {
    ghost use Rattle.std.specs.FinMap as finite;
    ghost use Rattle.ubi_table.specs.Coded.{records_code};
    ghost use Rattle.ubi_table.specs.Drafted.{IsHeld};
    ghost use Rattle.ubi_table.specs.Records.{Records};

    ghost Value = { Records };

    ghost coded = { records_code };

    ghost view = { λ d. record { sizes = d.geometry; of = finite.from_entries d.held.entries } };

    ghost invariant = { λ d. IsHeld d.geometry d.held };
}

impl Draft {
    /// A table, before it is edited.
    ///
    /// # Errors
    ///
    /// Memory ran out.
    pub fn of(alloc: Global, table: &Table) -> Result<Draft, AllocError>
        ensures { IfOk result (λ draft. draft ≡ table.now) }
    {
        let mut held = BTreeMap::new(alloc);
        let entries = table.entries();
        for i in 0..entries.len() {
            let (id, volume) = entries[i];
            held.insert(id, volume)?;
        }
        Ok(Draft {
            geometry: table.geometry(),
            held,
        })
    }

    /// The record of a volume, `None` if there is none.
    pub fn get(&self, id: u32) -> Option<&VolumeRecord>
        ensures value { option_copied result ≡ finite.get self.now.of id }
        ensures draft { AreDrafted self.now }
    {
        self.held.get(&id)
    }

    /// Gives a slot a record, in place of the one that it has.
    ///
    /// # Errors
    ///
    /// Memory ran out; then nothing has changed.
    pub fn set(&mut self, id: u32, volume: VolumeRecord) -> Result<(), AllocError>
        requires slot { id < slots self.old.sizes }
        requires sound { rec_fault self.old.sizes volume ≡ None }
        ensures { OnOk result (self.new ≡ with_record self.old id volume) }
    {
        self.held.insert(id, volume)?;
        Ok(())
    }

    /// Leaves a slot without a record.
    pub fn remove(&mut self, id: u32)
        ensures { self.new ≡ without_record self.old id }
    {
        self.held.remove(&id);
    }

    /// The table of the records.
    ///
    /// # Errors
    ///
    /// `Twice` if two records have one name. `Memory` if memory ran out.
    pub fn table(&self, alloc: Global) -> Result<Table, DraftError>
        ensures table { IfOk result (λ table. table ≡ self.now) }
        ensures once { IfOk result (λ _. twice (finite.entries self.now.of) ≡ None) }
        ensures refused { IfErr result (ComesTwice self.now) }
    {
        let mut records = Vec::new(alloc);
        for slot in 0..self.geometry.slots() {
            match self.held.get(&slot) {
                None => {}
                Some(volume) => match records.push((slot, *volume)) {
                    Ok(()) => {}
                    Err(full) => return Err(AllocError::from(full).into()),
                },
            }
        }
        match twice(records.as_slice()) {
            Some((first, next)) => Err(DraftError::Twice(first, next)),
            None => Ok(Table::of(self.geometry, records)),
        }
    }
}
