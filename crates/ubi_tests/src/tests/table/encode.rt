//! The bytes of tables.

use super::images::Row::{Erased, First, Second};
use super::images::{Row, chosen, image, table_of};
use std::alloc::Global;
use std::test::Fail;
use ubi_media::{Geometry, VolKind, VolName, VolumeRecord, rec_fault, write_rec};
use ubi_probe::pebs::small;
use ubi_probe::records::{EMPTY, GROWING, ROOT, Slot};
use ubi_table::Table;

/// The records of a table, and some eraseblocks that have it.
const TABLES: [([Slot; 2], &[Row]); 4] = [
    ([ROOT, EMPTY], &[First(&[ROOT]), Second(&[ROOT])]),
    (
        [EMPTY, GROWING],
        &[First(&[EMPTY, GROWING]), Second(&[EMPTY, GROWING])],
    ),
    (
        [GROWING, ROOT],
        &[First(&[GROWING, ROOT]), Second(&[GROWING, ROOT])],
    ),
    ([EMPTY, EMPTY], &[Erased]),
];

/// Whether the table of some eraseblocks has the bytes of two records.
fn is_encoded(alloc: Global, slots: &[Slot; 2], pebs: &[Row]) -> Result<bool, Fail> {
    let encoded = chosen(alloc, &small()?, pebs)?.encode(alloc)?;
    let bytes = encoded.as_slice();
    Ok(
        bytes.len() == 344
            && bytes.first_chunk::<172>() == Some(&slots[0].bytes())
            && bytes.last_chunk::<172>() == Some(&slots[1].bytes()),
    )
}

#[test]
fn encodes_records_and_empty_slots(rt: HostRuntime) -> Result<(), Fail> {
    for (index, (slots, pebs)) in TABLES.iter().enumerate() {
        assert!(rt; is_encoded(rt.alloc(), slots, pebs)?, "table {index}");
    }
    Ok(())
}

/// The flags of a volume of a table. `None` if it has no such volume.
fn flags_of(table: &Table, id: u32) -> Option<u8> {
    match table.get(id) {
        Some(volume) => Some(volume.flags),
        None => None,
    }
}

#[test]
fn holds_128_volumes(rt: HostRuntime) -> Result<(), Fail> {
    let alloc = rt.alloc();
    let geometry = Geometry::new(32768, 512, 512, 1024, 512)?;
    assert!(rt; geometry.slots() == 128);
    let mut bytes = image(alloc, &geometry, &[Second(&[])])?;
    for slot in 0..128u8 {
        let volume = VolumeRecord {
            reserved: u32::from(slot) % 3 + 1,
            alignment: 512,
            kind: VolKind::Dynamic,
            marker: false,
            name: VolName::new(&[b'v', slot + 1]).ok_or("a name")?,
            flags: slot,
        };
        assert!(rt; rec_fault(&geometry, &volume).is_none());
        let start = 1024 + usize::from(slot) * 172;
        if let Some(place) = bytes.as_mut_slice().get_mut(start..start + 172) {
            place.copy_from_slice(&write_rec(&geometry, Some(&volume)));
        }
    }
    let table = table_of(alloc, &geometry, bytes.as_slice())??;
    assert!(rt; table.entries().len() == 128);
    assert!(rt; flags_of(&table, 127) == Some(127));
    assert!(rt; flags_of(&table, 128).is_none());
    let encoded = table.encode(alloc)?;
    assert!(rt; Some(encoded.as_slice()) == bytes.as_slice().get(1024..23040));
    Ok(())
}
