//! Tables of sources: what is read for them, and what fails.

use super::images::Row::{First, Member, Second};
use super::images::{Row, Volumes, has_volumes, image};
use crate::tests::probes::{Reads, has_reads};
use std::alloc::Global;
use std::fs;
use std::test::Fail;
use ubi_media::{Geometry, Refusal};
use ubi_probe::ProbeSource;
use ubi_probe::pebs::small;
use ubi_probe::records::{EMPTY, FLIPPED, GROWING, OVERFULL, ROOT};
use ubi_scan::{BlockSource, FileSource, StreamError, scan_from};
use ubi_table::{Table, choose_from};

/// The table of a source, which is scanned first.
fn table_of<S: BlockSource>(
    alloc: Global,
    geometry: &Geometry,
    source: &mut S,
) -> Result<Table, StreamError> {
    let found = scan_from(alloc, geometry, source)?;
    choose_from(alloc, geometry, source, &found)
}

/// Copies of which the first decides, and of which the second does, each with a logical eraseblock after it.
const SOUND: [Row; 3] = [First(&[ROOT]), Second(&[GROWING, ROOT]), Member(0)];

const FIRST_CORRUPT: [Row; 3] = [First(&[FLIPPED]), Second(&[GROWING, ROOT]), Member(0)];

/// Copies of which none can be read, and of a table that takes more eraseblocks than there are.
const BOTH_CORRUPT: [Row; 3] = [First(&[FLIPPED]), Second(&[EMPTY, FLIPPED]), Member(0)];

const TOO_LARGE: [Row; 3] = [First(&[OVERFULL]), Second(&[ROOT]), Member(0)];

/// Some eraseblocks, which read of them fails, if any does, the volumes of their table or why they have none then, and
/// what is read.
type Case = (
    &'static [Row],
    u64,
    Result<Volumes, StreamError>,
    &'static [Reads],
);

/// Copy 1 is read only where copy 0 is corrupt. The scan makes three reads, and then the copies are read.
static CASES: [Case; 8] = [
    (
        &SOUND,
        0,
        Ok(&[(0, ROOT)]),
        &[(0, 2, 1), (1, 1, 0), (2, 1, 0)],
    ),
    (
        &FIRST_CORRUPT,
        0,
        Ok(&[(0, GROWING), (1, ROOT)]),
        &[(0, 2, 1), (1, 2, 1), (2, 1, 0)],
    ),
    (&FIRST_CORRUPT, 3, Err(StreamError::Read(2, 0)), &[]),
    (&FIRST_CORRUPT, 4, Err(StreamError::Read(0, 0)), &[]),
    (&FIRST_CORRUPT, 5, Err(StreamError::Read(1, 0)), &[]),
    (&FIRST_CORRUPT, 6, Ok(&[(0, GROWING), (1, ROOT)]), &[]),
    (
        &BOTH_CORRUPT,
        0,
        Err(StreamError::Refused(Refusal::BothCorrupt)),
        &[],
    ),
    (
        &TOO_LARGE,
        0,
        Err(StreamError::Refused(Refusal::NoSpace)),
        &[],
    ),
];

/// Whether some eraseblocks have their table, or none, and so much is read for it.
fn is_told(alloc: Global, (pebs, at, want, reads): &Case) -> Result<bool, Fail> {
    let bytes = image(alloc, &small()?, pebs)?;
    let mut source = ProbeSource::new(alloc, &small()?, bytes.as_slice(), *at)?;
    let is = match (table_of(alloc, &small()?, &mut source), want) {
        (Ok(table), Ok(volumes)) => has_volumes(&table, volumes)?,
        (Err(error), Err(cause)) => error == *cause,
        _ => false,
    };
    Ok(is && has_reads(&source, reads))
}

#[test]
fn reads_copy_1_only_where_copy_0_is_corrupt(rt: HostRuntime) -> Result<(), Fail> {
    for (index, case) in CASES.iter().enumerate() {
        assert!(rt; is_told(rt.alloc(), case)?, "case {index}");
    }
    Ok(())
}

/// A file that is cut short after its scan fails where its bytes are missing.
#[test]
fn reads_a_file_that_is_cut_short(rt: HostRuntime) -> Result<(), Fail> {
    let alloc = rt.alloc();
    let geometry = small()?;
    let bytes = image(alloc, &geometry, &FIRST_CORRUPT)?;
    fs::write(&rt, "table.img", bytes.as_slice())?;
    let mut file = FileSource::open(&rt, "table.img")?;
    assert!(rt; table_of(alloc, &geometry, &mut file).is_ok());
    let mut file = FileSource::open(&rt, "table.img")?;
    let found = scan_from(alloc, &geometry, &mut file)?;
    fs::write(&rt, "table.img", bytes.as_slice().get(..600).unwrap_or(&[]))?;
    let error = choose_from(alloc, &geometry, &mut file, &found).err();
    assert!(rt; error == Some(StreamError::Read(1, 0)));
    fs::remove_file(&rt, "table.img")?;
    Ok(())
}
