//! A table with another name for a volume.

ghost use Rattle.std.specs.FinMap as finite;
ghost use Rattle.std.specs.Prelude.{◌≡◌, IfOk, IsSome};
ghost use Rattle.ubi_table.specs.inner.Naming.{entry_named};
ghost use Rattle.ubi_table.specs.Named.{IsFreeName, records_named};

use crate::table::Table;
use std::alloc::{AllocError, Global};
use ubi_media::{VolName, VolumeRecord};

/// An entry of a table, with another name if it is that of the volume.
fn entry_named(entry: &(u32, VolumeRecord), id: u32, name: &VolName) -> (u32, VolumeRecord)
    ensures { result ≡ entry_named id name.now entry.now }
{
    let (slot, volume) = *entry;
    if slot == id {
        (
            slot,
            VolumeRecord {
                name: *name,
                ..volume
            },
        )
    } else {
        (slot, volume)
    }
}

impl Table {
    /// The table with another name for a volume that it has. No other volume of it may have the name; the volume itself may.
    ///
    /// # Errors
    ///
    /// Memory ran out.
    pub fn renamed(&self, alloc: Global, id: u32, name: &VolName) -> Result<Table, AllocError>
        requires there { IsSome (finite.get self.now.of id) }
        requires free { IsFreeName self.now id name.now }
        ensures { IfOk result (λ t. t ≡ records_named self.now id name.now) }
    {
        // The new name is a name, so the records break no rule.
        prove!(!name.as_bytes().is_empty());
        let mut records = Vec::new(alloc);
        for entry in self.entries() {
            records.push(entry_named(entry, id, name))?;
        }
        Ok(Table::of(self.geometry(), records))
    }
}
