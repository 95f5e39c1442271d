//! Plans of edits where memory is refused.

use super::edits::planned;
use std::alloc::Global;
use std::test::Fail;
use ubi_change::{Avoided, Edit, NewVolume, Step, UpdateError, UpdateRefusal};
use ubi_probe::pebs::{NAMED, Vid, small};
use ubi_probe::records::ROOT;
use ubi_volume::Bytes;

/// The first bytes of the record of the volume `root`, and its CRC; and the CRC of the empty record.
const RECORD: [u8; 20] = *b"\0\0\0\x14\0\0\0\x01\0\0\0\0\x01\0\0\x04root";

const CHECK: [u8; 4] = [0x71, 0xDF, 0xB1, 0x1D];

const EMPTY_CHECK: [u8; 4] = [0xF1, 0x16, 0xC3, 0x6B];

/// An image of eight eraseblocks: two copies of a table, and six that are free. It takes no memory.
fn image() -> Result<[u8; 4096], Fail> {
    let ec = NAMED.bytes(&small()?);
    let mut bytes = [0xFF; 4096];
    for p in 0..8usize {
        let start = p * 512;
        bytes[start..start + 64].copy_from_slice(&ec);
    }
    for p in 0..2usize {
        let start = p * 512;
        let vid = Vid::Table(p as u32, 0).bytes();
        bytes[start + 64..start + 128].copy_from_slice(&vid);
        bytes[start + 128..start + 472].fill(0);
        bytes[start + 128..start + 148].copy_from_slice(&RECORD);
        bytes[start + 296..start + 300].copy_from_slice(&CHECK);
        bytes[start + 468..start + 472].copy_from_slice(&EMPTY_CHECK);
    }
    Ok(bytes)
}

/// The groups of steps of edits of a volume that gets another size and another name, and then is replaced; none where memory ran out.
fn groups_of(alloc: Global, image: &[u8]) -> Result<Option<Vec<Vec<Step>>>, Fail> {
    let Ok(name) = Vec::from_slice(alloc, b"x") else {
        return Ok(None);
    };
    let volume = NewVolume {
        entry: ROOT.volume().ok_or("no name")?,
        start: 0,
        len: 500,
    };
    let edits = [
        Edit::Resize(0, 19),
        Edit::Rename(0, Bytes::new(name)),
        Edit::Replace(0, volume),
    ];
    let avoided = Avoided::nothing();
    match planned(alloc, &small()?, image, &avoided, &[0x61; 500], &edits) {
        Ok(groups) => Ok(Some(groups)),
        Err(UpdateError::Refused(UpdateRefusal::Memory)) => Ok(None),
        Err(_) => Err("no plan".into()),
    }
}

/// The script check/second/refuse.sh refuses each growth of memory in turn, and looks for the line that is printed here.
#[test]
fn plans_edits_or_runs_out_of_memory(rt: HostRuntime) -> Result<(), Fail> {
    let Some(groups) = groups_of(rt.alloc(), &image()?)? else {
        println!(rt; "out of memory")?;
        return Ok(());
    };
    assert_eq!(rt; groups.len(), 4);
    for (steps, count) in groups.iter().zip([7, 3, 9, 9]) {
        assert_eq!(rt; steps.len(), count);
    }
    Ok(())
}
