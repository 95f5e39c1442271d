//! What a copy of the volume table is.

ghost use Rattle.std.specs.Prelude.{◌≡◌, ◌<◌, IfErr, IfOk, length};
ghost use Rattle.ubi_media.specs.Geometry.{leb_size};
ghost use Rattle.ubi_scan.specs.Image.{of_blocks};
ghost use Rattle.ubi_scan.specs.Scan.{IsScan};
ghost use Rattle.ubi_scan.specs.Source.{Narrows, WhereHeld, blocks_in, blocks_of};
ghost use Rattle.ubi_scan.specs.Stream.{IsScanOf, NamesBlock, after};
ghost use Rattle.ubi_table.specs.Stream.{HasSizes, IsCopyReadError};
ghost use Rattle.ubi_table.specs.Table.{CopyIs, copy_of};

use crate::table::{Table, twice};
use std::alloc::{AllocError, Global};
use ubi_media::{Geometry, LAYOUT_VOLUME, RECORD_SIZE, RecFault, RecRead, read_rec};
use ubi_scan::{BlockSource, Blocks, Scan, StreamError, read_leb};

/// What a copy of the volume table is.
#[derive(Drop)]
pub enum CopyRead {
    /// No eraseblock holds it.
    Absent,
    /// Its first record at fault has a wrong CRC.
    Corrupt,
    /// Its first record at fault has the right CRC: the slot, and the fault.
    Faulty(u32, RecFault),
    /// No record is at fault, but a name comes again: the first slot whose name does, and the next that has it.
    Twice(u32, u32),
    /// Its table, if none of this applies.
    Good(Table),
}

/// What the bytes of a logical eraseblock are as a copy of the volume table. Never `Absent`.
pub fn copy_in(alloc: Global, geometry: &Geometry, leb: &[u8]) -> Result<CopyRead, AllocError>
    requires { length leb.now ≡ leb_size geometry.now }
    ensures { IfOk result (λ what. what ≡ copy_of geometry.now leb.now) }
{
    let (slots, _) = leb.as_chunks::<RECORD_SIZE>();
    let mut records = Vec::new(alloc);
    for slot in 0..geometry.slots() {
        match read_rec(geometry, &slots[slot as usize]) {
            RecRead::Empty => {}
            RecRead::BadCrc => return Ok(CopyRead::Corrupt),
            RecRead::Fault(fault) => return Ok(CopyRead::Faulty(slot, fault)),
            RecRead::Valid(volume) => records.push((slot, volume))?,
        }
    }
    match twice(records.as_slice()) {
        Some((first, next)) => Ok(CopyRead::Twice(first, next)),
        None => Ok(CopyRead::Good(Table::of(*geometry, records))),
    }
}

/// What a copy of the volume table is, by the eraseblock that wins its logical eraseblock. The buffer has the size of a
/// logical eraseblock.
///
/// # Errors
///
/// `Read` if the read failed. `Memory` if memory ran out.
pub fn read_copy_from<S: BlockSource>(
    alloc: Global,
    geometry: &Geometry,
    source: &mut S,
    scan: &Scan,
    c: u32,
    buffer: &mut [u8],
) -> Result<CopyRead, StreamError>
    requires scan { IsScanOf geometry.now (S.known source.old) (S.agrees source.old) scan.now }
    requires room { length buffer.old ≡ leb_size geometry.now }
    ensures known { S.known source.new ≡ after (S.known source.old) result }
    ensures narrows { Narrows (S.agrees source.old) (S.agrees source.new) }
    ensures copy { IfOk result (λ what. WhereHeld (S.agrees source.new) (λ bytes. CopyIs geometry.now (blocks_of geometry.now bytes) c what)) }
    ensures sizes { IfOk result (HasSizes geometry.now) }
    ensures failed { IfErr result (IsCopyReadError (blocks_in geometry.now (S.known source.old))) }
    ensures named { IfErr result (NamesBlock geometry.now (S.failed_at source.new)) }
{
    match scan.winner(LAYOUT_VOLUME, c) {
        None => Ok(CopyRead::Absent),
        Some(p) => {
            read_leb(source, geometry, p, buffer)?;
            Ok(copy_in(alloc, geometry, buffer)?)
        }
    }
}

/// What copy 0 or copy 1 of the volume table of an image is, by the eraseblock that wins its logical eraseblock.
///
/// # Errors
///
/// Memory ran out.
pub fn read_copy(
    alloc: Global,
    blocks: &Blocks<'_>,
    scan: &Scan,
    c: u32,
) -> Result<CopyRead, AllocError>
    requires copy { c < 2 }
    requires scan { of_blocks IsScan blocks.now scan.now }
    ensures { IfOk result (of_blocks CopyIs blocks.now c) }
{
    let Some(p) = scan.winner(LAYOUT_VOLUME, c) else {
        return Ok(CopyRead::Absent);
    };
    copy_in(alloc, &blocks.geometry(), blocks.leb(p))
}
