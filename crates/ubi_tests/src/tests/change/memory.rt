//! Plans where memory is refused.

use super::images::planned as planned_change;
use super::rename::planned;
use std::alloc::Global;
use std::test::Fail;
use ubi_change::{ChangeRefusal, RenameRefusal, Step};
use ubi_probe::pebs::{NAMED, Vid, small};

/// The first bytes of the record of the volume `root`, and its CRC; and the CRC of the empty record.
const ROOT: [u8; 20] = *b"\0\0\0\x14\0\0\0\x01\0\0\0\0\x01\0\0\x04root";

const CHECK: [u8; 4] = [0x71, 0xDF, 0xB1, 0x1D];

const EMPTY_CHECK: [u8; 4] = [0xF1, 0x16, 0xC3, 0x6B];

/// An image of four eraseblocks: two copies of a table, and two that are free. It takes no memory.
fn image() -> Result<[u8; 2048], Fail> {
    let ec = NAMED.bytes(&small()?);
    let mut bytes = [0xFF; 2048];
    for p in 0..4usize {
        let start = p * 512;
        bytes[start..start + 64].copy_from_slice(&ec);
    }
    for p in 0..2usize {
        let start = p * 512;
        let vid = Vid::Table(p as u32, 0).bytes();
        bytes[start + 64..start + 128].copy_from_slice(&vid);
        bytes[start + 128..start + 472].fill(0);
        bytes[start + 128..start + 148].copy_from_slice(&ROOT);
        bytes[start + 296..start + 300].copy_from_slice(&CHECK);
        bytes[start + 468..start + 472].copy_from_slice(&EMPTY_CHECK);
    }
    Ok(bytes)
}

/// The steps of a rename and of a change; none where memory ran out.
fn both_planned(alloc: Global, image: &[u8]) -> Result<Option<(Vec<Step>, Vec<Step>)>, Fail> {
    let geometry = small()?;
    let renamed = match planned(alloc, &geometry, image, 0, b"data") {
        Ok(steps) => steps,
        Err(RenameRefusal::Memory) => return Ok(None),
        Err(_) => return Err("no rename".into()),
    };
    match planned_change(alloc, &geometry, image, (0, 1), &[0x61; 64]) {
        Ok(changed) => Ok(Some((renamed, changed))),
        Err(ChangeRefusal::Memory) => Ok(None),
        Err(_) => Err("no change".into()),
    }
}

/// The script check/second/refuse.sh refuses each growth of memory in turn, and looks for the line that is printed here.
#[test]
fn plans_all_or_runs_out_of_memory(rt: HostRuntime) -> Result<(), Fail> {
    let image = image()?;
    let Some((renamed, changed)) = both_planned(rt.alloc(), &image)? else {
        println!(rt; "out of memory")?;
        return Ok(());
    };
    assert_eq!(rt; renamed.len(), 18);
    assert_eq!(rt; changed.len(), 5);
    Ok(())
}
