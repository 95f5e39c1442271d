//! Tables with another name for a volume.

ghost use Rattle.std.specs.Prelude.{◌≡◌, ◌==◌, ◌&&◌, not, find, option_copied};
ghost use Rattle.ubi_media.specs.Fields.{same_bytes};

use super::images::Row::First;
use super::images::{Row, chosen, larger};
use std::alloc::{AllocError, Global};
use std::test::Fail;
use ubi_media::{Geometry, VolName, VolumeRecord};
use ubi_probe::pebs::small;
use ubi_probe::records::{A, B, C, EMPTY, GROWING, ROOT, Slot};
use ubi_table::Table;

/// The first entry of another volume that has a name.
fn other_named<'a>(
    entries: &'a [(u32, VolumeRecord)],
    id: u32,
    name: &VolName,
) -> Option<&'a (u32, VolumeRecord)>
    ensures { option_copied result ≡ find (λ e. not (e.0 == id) && same_bytes e.1.name name.now) entries.now }
{
    entries.iter().find(|entry| entry.0 != id && entry.1.name.as_bytes() == name.as_bytes())
}

/// A table with another name for a volume. `None` if it has no such volume, the bytes are no name, or another volume
/// has the name.
pub fn renamed(
    alloc: Global,
    table: &Table,
    id: u32,
    name: &[u8],
) -> Result<Option<Table>, AllocError> {
    if table.get(id).is_none() {
        return Ok(None);
    }
    let Some(name) = VolName::new(name) else {
        return Ok(None);
    };
    match other_named(table.entries(), id, &name) {
        Some(_) => Ok(None),
        None => Ok(Some(table.renamed(alloc, id, &name)?)),
    }
}

/// The longest name.
const LONG: &[u8] = &[b'n'; 127];

/// Records with another name: all else stays, but for the CRC.
const Z: Slot = Slot {
    name_len: 1,
    name: b"z",
    check: 0x65E6_CA29,
    ..ROOT
};

const LONG_BOOT: Slot = Slot {
    name_len: 127,
    name: LONG,
    check: 0x320F_EF63,
    ..GROWING
};

/// A record with an alignment, and with another name.
const ALIGNED: Slot = Slot {
    alignment: 128,
    check: 0xC3CF_B8C9,
    ..GROWING
};

const LONG_ALIGNED: Slot = Slot {
    alignment: 128,
    check: 0xE34C_44D0,
    ..LONG_BOOT
};

const D: Slot = Slot {
    name: b"d",
    check: 0xC261_F052,
    ..A
};

/// The records of a table, the volume that gets a name, and the records then.
type Case = (&'static [Slot], u32, &'static [u8], &'static [Slot]);

static SMALL: [Case; 5] = [
    (&[GROWING, ROOT], 1, b"z", &[GROWING, Z]),
    (&[ROOT, GROWING], 1, LONG, &[ROOT, LONG_BOOT]),
    (&[ROOT, GROWING], 1, b"boot", &[ROOT, GROWING]),
    (&[ALIGNED, EMPTY], 0, LONG, &[LONG_ALIGNED, EMPTY]),
    (&[EMPTY, ROOT], 1, b"z", &[EMPTY, Z]),
];

/// The same in a table of four records.
static LARGER: [Case; 2] = [
    (&[A, B, C, ROOT], 2, b"d", &[A, B, D, ROOT]),
    (&[ROOT, EMPTY, C, EMPTY], 2, b"d", &[ROOT, EMPTY, D, EMPTY]),
];

/// Whether the table of some eraseblocks gets the records that it is to have, by its bytes.
fn gets(alloc: Global, geometry: &Geometry, pebs: &[Row], case: &Case) -> Result<bool, Fail> {
    let table = chosen(alloc, geometry, pebs)?;
    let renamed = renamed(alloc, &table, case.1, case.2)?.ok_or("no such name")?;
    let encoded = renamed.encode(alloc)?;
    let (records, rest) = encoded.as_slice().as_chunks::<172>();
    let mut gets = rest.is_empty() && records.len() == case.3.len();
    for (record, slot) in records.iter().zip(case.3) {
        gets = gets && *record == slot.bytes();
    }
    Ok(gets)
}

/// The records of a table, a volume, and a name that it can't get.
static REFUSED: [(&[Slot], u32, &[u8]); 9] = [
    (&[ROOT, GROWING], 1, b""),
    (&[ROOT, GROWING], 1, &[b'n'; 128]),
    (&[ROOT, GROWING], 1, b"z\0"),
    (&[ROOT, GROWING], 0, b"boot"),
    (&[ROOT, GROWING], 1, b"root"),
    (&[ROOT, GROWING], 2, b"z"),
    (&[ROOT, EMPTY], 1, b"z"),
    (&[EMPTY, ROOT], 0, b"root"),
    (&[EMPTY, EMPTY], 0, b"z"),
];

/// The records of a table, a name, and the number of the volume that has it.
static NAMED: [(&[Slot], &[u8], Option<u32>); 7] = [
    (&[ROOT, GROWING], b"root", Some(0)),
    (&[ROOT, GROWING], b"boot", Some(1)),
    (&[EMPTY, ROOT], b"root", Some(1)),
    (&[ROOT, LONG_BOOT], LONG, Some(1)),
    (&[ROOT, GROWING], b"boo", None),
    (&[ROOT, GROWING], b"boots", None),
    (&[EMPTY, EMPTY], b"root", None),
];

#[test]
fn names_one_volume_anew_or_none_and_finds_it(rt: HostRuntime) -> Result<(), Fail> {
    let alloc = rt.alloc();
    for (index, case) in SMALL.iter().enumerate() {
        let gets = gets(alloc, &small()?, &[First(case.0)], case)?;
        assert!(rt; gets, "case {index}");
    }
    for (index, case) in LARGER.iter().enumerate() {
        let gets = gets(alloc, &larger()?, &[First(case.0)], case)?;
        assert!(rt; gets, "larger {index}");
    }
    for (index, (records, id, name)) in REFUSED.iter().enumerate() {
        let table = chosen(alloc, &small()?, &[First(records)])?;
        let renamed = renamed(alloc, &table, *id, name)?;
        assert!(rt; renamed.is_none(), "refused {index}");
    }
    for (index, (records, name, id)) in NAMED.iter().enumerate() {
        let table = chosen(alloc, &small()?, &[First(records)])?;
        let name = VolName::new(name).ok_or("no name")?;
        assert!(rt; table.number_named(&name) == *id, "named {index}");
    }
    Ok(())
}
