//! Tables that are read and renamed where memory is refused.

use super::images::Row::{First, Second};
use super::images::{Row, Volumes, has_volumes, image};
use super::naming::renamed;
use std::alloc::Global;
use std::test::Fail;
use ubi_media::{AttachError, Geometry};
use ubi_probe::pebs::small;
use ubi_probe::records::{GROWING, ROOT, Slot};
use ubi_scan::{Blocks, scan};
use ubi_table::{CopyRead, Table, read_copy};

/// Two copies of a table.
static COPIES: [Row; 2] = [First(&[ROOT, GROWING]), Second(&[ROOT, GROWING])];

/// Both copies, the second of which gets another name for volume 1; none where memory ran out.
fn tables_if_memory(alloc: Global, geometry: &Geometry) -> Result<Option<(Table, Table)>, Fail> {
    let Ok(bytes) = image(alloc, geometry, &COPIES) else {
        return Ok(None);
    };
    let blocks = Blocks::new(geometry, bytes.as_slice())?;
    let found = match scan(alloc, &blocks) {
        Ok(found) => found,
        Err(AttachError::Memory) => return Ok(None),
        Err(AttachError::Refused(_)) => return Err("refused".into()),
    };
    let first = match read_copy(alloc, &blocks, &found, 0) {
        Ok(CopyRead::Good(table)) => table,
        Ok(_) => return Err("not good".into()),
        Err(_) => return Ok(None),
    };
    let second = match read_copy(alloc, &blocks, &found, 1) {
        Ok(CopyRead::Good(table)) => table,
        Ok(_) => return Err("not good".into()),
        Err(_) => return Ok(None),
    };
    match renamed(alloc, &second, 1, b"z") {
        Ok(Some(renamed)) => Ok(Some((first, renamed))),
        Ok(None) => Err("no such name".into()),
        Err(_) => Ok(None),
    }
}

/// The volumes of the two tables.
const VOLUMES: Volumes = &[(0, ROOT), (1, GROWING)];

const RENAMED: Volumes = &[
    (0, ROOT),
    (
        1,
        Slot {
            name: b"z",
            ..GROWING
        },
    ),
];

/// The script check/second/refuse.sh refuses each growth of memory in turn, and looks for the line that is printed
/// here.
#[test]
fn reads_and_names_or_runs_out_of_memory(rt: HostRuntime) -> Result<(), Fail> {
    let Some((first, second)) = tables_if_memory(rt.alloc(), &small()?)? else {
        println!(rt; "out of memory")?;
        return Ok(());
    };
    assert!(rt; has_volumes(&first, VOLUMES)?);
    assert!(rt; has_volumes(&second, RENAMED)?);
    Ok(())
}
