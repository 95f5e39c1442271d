//! Which copy of the volume table decides.

ghost use Rattle.std.specs.FinMap as finite;
ghost use Rattle.std.specs.Prelude.{◌≡◌, ℕ, ◌↔◌, IfErr, IfOk, IfSome, IsTrue, List, Some, length};
ghost use Rattle.ubi_media.specs.Geometry.{Sizes, leb_size};
ghost use Rattle.ubi_scan.specs.Image.{of_blocks};
ghost use Rattle.ubi_scan.specs.Members.{layout};
ghost use Rattle.ubi_scan.specs.Scan.{IsScan};
ghost use Rattle.ubi_scan.specs.Source.{Narrows, WhereHeld, blocks_of};
ghost use Rattle.ubi_scan.specs.Stream.{IsScanOf, NamesBlock, after};
ghost use Rattle.ubi_table.specs.inner.OneCopy.{IsCopyOfError, IsCopyTableOf};
ghost use Rattle.ubi_table.specs.Records.{HasSpace};
ghost use Rattle.ubi_table.specs.Stream.{IsTableError, IsTableOf, IsTableOfError};
ghost use Rattle.ubi_table.specs.Table.{AllBlank, IsTable};

use crate::copy::{CopyRead, read_copy_from};
use crate::table::{COPIES, Table};
use std::alloc::Global;
use ubi_media::{AttachError, Geometry, LAYOUT_VOLUME, Refusal};
use ubi_scan::{BlockSource, Blocks, MemorySource, Scan, ScanState, StreamError};

/// Whether the erase-counter header of each of `count` eraseblocks is blank, whatever bytes were scanned.
fn is_erased(count: u32, scan: &Scan) -> bool
    requires { length scan.now.states ≡ count }
    ensures { (s : Sizes) (bs : List (List ℕ)) → IsScan s bs scan.now → (IsTrue result ↔ AllBlank s bs) }
{
    for p in 0..count {
        match scan.state(p) {
            ScanState::Blank => {}
            _ => return false,
        }
    }
    true
}

/// The table that a copy decides on. `None` if it can't decide, since it is absent or corrupt.
///
/// # Errors
///
/// `Refused` with `Record`, `SameName` or `NoSpace`, if it decides against a table. `Read` if the read of the copy
/// failed. `Memory` if memory ran out.
fn decided<S: BlockSource>(
    alloc: Global,
    geometry: &Geometry,
    source: &mut S,
    scan: &Scan,
    c: u32,
    buffer: &mut [u8],
) -> Result<Option<Table>, StreamError>
    requires scan { IsScanOf geometry.now (S.known source.old) (S.agrees source.old) scan.now }
    requires room { length buffer.old ≡ leb_size geometry.now }
    ensures known { S.known source.new ≡ after (S.known source.old) result }
    ensures narrows { Narrows (S.agrees source.old) (S.agrees source.new) }
    ensures table { IfOk result (IsCopyTableOf geometry.now (S.agrees source.new) c) }
    ensures sizes { IfOk result (λ t. IfSome t (λ t. t.sizes ≡ geometry.now)) }
    ensures space { IfOk result (λ t. IfSome t (HasSpace geometry.now)) }
    ensures refused { IfErr result (IsCopyOfError geometry.now (S.known source.old) (S.agrees source.new) c) }
    ensures named { IfErr result (NamesBlock geometry.now (S.failed_at source.new)) }
{
    let Some(p) = scan.winner(LAYOUT_VOLUME, c) else {
        return Ok(None);
    };
    match read_copy_from(alloc, geometry, source, scan, c, buffer)? {
        CopyRead::Absent | CopyRead::Corrupt => Ok(None),
        CopyRead::Faulty(slot, fault) => Err(Refusal::Record(p, slot, fault).into()),
        CopyRead::Twice(first, next) => Err(Refusal::SameName(p, first, next).into()),
        CopyRead::Good(table) => {
            if table.space() > u64::from(geometry.pebs()) {
                return Err(Refusal::NoSpace.into());
            }
            Ok(Some(table))
        }
    }
}

/// The table of the first copy that decides, if the layout volume has a winner. The buffer has the size of a logical
/// eraseblock.
///
/// # Errors
///
/// Those of [`choose_from`], except `NoTable`.
fn first_decided<S: BlockSource>(
    alloc: Global,
    geometry: &Geometry,
    source: &mut S,
    scan: &Scan,
    buffer: &mut [u8],
) -> Result<Table, StreamError>
    requires scan { IsScanOf geometry.now (S.known source.old) (S.agrees source.old) scan.now }
    requires some { (e : ℕ × ℕ) × (finite.get scan.now.winners (layout, e.0) ≡ Some e.1) }
    requires room { length buffer.old ≡ leb_size geometry.now }
    ensures known { S.known source.new ≡ after (S.known source.old) result }
    ensures narrows { Narrows (S.agrees source.old) (S.agrees source.new) }
    ensures table { IfOk result (IsTableOf geometry.now (S.agrees source.new)) }
    ensures refused { IfErr result (IsTableOfError geometry.now (S.known source.old) (S.agrees source.new)) }
    ensures named { IfErr result (NamesBlock geometry.now (S.failed_at source.new)) }
{
    for c in 0..COPIES {
        match decided(alloc, geometry, source, scan, c, buffer)? {
            Some(table) => return Ok(table),
            None => {}
        }
    }
    Err(Refusal::BothCorrupt.into())
}

/// Finds the volume table of a source that was scanned. If no eraseblock is in use, all its slots are empty.
/// Otherwise it is that of copy 0, or of copy 1 if copy 0 is absent or corrupt.
///
/// # Errors
///
/// `Refused` with `NoTable` if some eraseblock is in use and none holds a copy, and with `BothCorrupt` if neither copy
/// can decide. Otherwise the copy that decides is refused: with `Record` for its first record at fault, with
/// `SameName` for the first name that comes again, or with `NoSpace` if the volumes reserve more eraseblocks than the
/// device has. `Read` if a read failed, with the count 0. `Memory` if memory ran out.
pub fn choose_from<S: BlockSource>(
    alloc: Global,
    geometry: &Geometry,
    source: &mut S,
    scan: &Scan,
) -> Result<Table, StreamError>
    requires { IsScanOf geometry.now (S.known source.old) (S.agrees source.old) scan.now }
    ensures known { S.known source.new ≡ after (S.known source.old) result }
    ensures narrows { Narrows (S.agrees source.old) (S.agrees source.new) }
    ensures table { IfOk result (IsTableOf geometry.now (S.agrees source.new)) }
    ensures refused { IfErr result (IsTableOfError geometry.now (S.known source.old) (S.agrees source.new)) }
    ensures named { IfErr result (NamesBlock geometry.now (S.failed_at source.new)) }
{
    let count = (source.len() / u64::from(geometry.peb_size())) as u32;
    if is_erased(count, scan) {
        return Ok(Table::empty(alloc, geometry));
    }
    match scan.next_winner(LAYOUT_VOLUME, 0) {
        Some(_) => {}
        None => return Err(Refusal::NoTable.into()),
    }
    prove!(geometry.data_offset() <= geometry.peb_size());
    let mut buffer = Vec::from_elem(alloc, 0u8, geometry.leb_size() as usize)?;
    first_decided(alloc, geometry, source, scan, buffer.as_mut_slice())
}

/// Finds the volume table of an image that was scanned. If no eraseblock is in use, all its slots are empty.
/// Otherwise it is that of copy 0, or of copy 1 if copy 0 is absent or corrupt.
///
/// # Errors
///
/// `Refused` as by [`choose_from`]. `Memory` if memory ran out.
pub fn choose(alloc: Global, blocks: &Blocks<'_>, scan: &Scan) -> Result<Table, AttachError>
    requires { of_blocks IsScan blocks.now scan.now }
    ensures table { IfOk result (of_blocks IsTable blocks.now) }
    ensures refused { IfErr result (of_blocks IsTableError blocks.now) }
{
    let mut source = MemorySource::new(blocks.bytes());
    match choose_from(alloc, &blocks.geometry(), &mut source, scan) {
        Ok(table) => Ok(table),
        Err(StreamError::Refused(cause)) => Err(AttachError::Refused(cause)),
        Err(StreamError::Memory) => Err(AttachError::Memory),
        // No read fails, and nothing is written.
        Err(StreamError::Read(_, _) | StreamError::Write(_)) => unreachable!(),
    }
}
