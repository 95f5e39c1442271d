//! The scan of an image, over a source of its bytes.

ghost use Rattle.std.specs.Option.{option_map_or};
ghost use Rattle.std.specs.Prelude.{◌≡◌, ◌<◌, ◌≤◌, ◌⊎◌, IfErr, IfOk, IfSome, false, length, unwrap_or};
ghost use Rattle.ubi_scan.specs.Image.{IsWholeSize, block, of_blocks};
ghost use Rattle.ubi_scan.specs.inner.Choice.{held_of};
ghost use Rattle.ubi_scan.specs.inner.Pass.{IsMeeting};
ghost use Rattle.ubi_scan.specs.Members.{good_at, is_good, is_right, member_if};
ghost use Rattle.ubi_scan.specs.Scan.{IsScan};
ghost use Rattle.ubi_scan.specs.Source.{Narrows, WhereHeld, blocks_in, blocks_of};
ghost use Rattle.ubi_scan.specs.Stream.{IsReadFault, IsScanError, IsScanOf, IsScanOfError, NamesBlock, after};

use crate::blocks::Blocks;
use crate::candidate::{Candidate, Meeting};
use crate::errors::StreamError;
use crate::faults::first_fault;
use crate::found::Scan;
use crate::header::member_of;
use crate::pass::Pass;
use crate::read::{read_headers, read_leb};
use crate::size::block_count;
use crate::source::{BlockSource, MemorySource};
use std::alloc::Global;
use ubi_media::{AttachError, EcRead, Geometry, Refusal, VidHeader, VidRead, crc};

/// Whether the logical eraseblock holds the data that a header describes. They are read into the buffer.
fn is_right<S: BlockSource>(
    source: &mut S,
    geometry: &Geometry,
    p: u32,
    header: &VidHeader,
    buffer: &mut [u8],
) -> Result<bool, StreamError>
    requires block { p < blocks_in geometry.now (S.known source.old) }
    requires room { length buffer.old ≡ geometry.now.peb_size }
    ensures known { S.known source.new ≡ after (S.known source.old) result }
    ensures narrows { Narrows (S.agrees source.old) (S.agrees source.new) }
    ensures right { IfOk result (λ right. WhereHeld (S.agrees source.new) (λ bytes. right ≡ is_right geometry.now (block (blocks_of geometry.now bytes) p) header.now)) }
    ensures failed { IfErr result (IsReadFault (blocks_in geometry.now (S.known source.old))) }
    ensures names { IfErr result (λ e. e ≡ StreamError.Read p 0) }
    ensures named { IfErr result (NamesBlock geometry.now (S.failed_at source.new)) }
{
    let size = header.data_size.min(geometry.leb_size()) as usize;
    prove!(geometry.data_offset() <= geometry.peb_size());
    let data = &mut buffer[..size];
    read_leb(source, geometry, p, data)?;
    Ok(crc(data) == header.data_crc)
}

/// Whether an eraseblock with these headers is a good member: it isn't a copy, or its copied data are right.
fn is_good<S: BlockSource>(
    source: &mut S,
    geometry: &Geometry,
    p: u32,
    ec: &EcRead,
    vid: &VidRead,
    buffer: &mut [u8],
) -> Result<bool, StreamError>
    requires block { p < blocks_in geometry.now (S.known source.old) }
    requires room { length buffer.old ≡ geometry.now.peb_size }
    ensures known { S.known source.new ≡ after (S.known source.old) result }
    ensures narrows { Narrows (S.agrees source.old) (S.agrees source.new) }
    ensures good { IfOk result (λ good. WhereHeld (S.agrees source.new) (λ bytes. good ≡ option_map_or (is_good geometry.now (block (blocks_of geometry.now bytes) p)) (member_if ec.now vid.now) false)) }
    ensures failed { IfErr result (IsReadFault (blocks_in geometry.now (S.known source.old))) }
    ensures names { IfErr result (λ e. e ≡ StreamError.Read p 0) }
    ensures named { IfErr result (NamesBlock geometry.now (S.failed_at source.new)) }
{
    match member_of(ec, vid) {
        Some(header) if header.copy_flag => is_right(source, geometry, p, &header, buffer),
        Some(_) => Ok(true),
        None => Ok(false),
    }
}

/// Whether a candidate is good. If that isn't known yet, its eraseblock is asked.
fn is_held_good<S: BlockSource>(
    source: &mut S,
    geometry: &Geometry,
    held: &Candidate,
    buffer: &mut [u8],
) -> Result<bool, StreamError>
    requires block { held.now.peb < blocks_in geometry.now (S.known source.old) }
    requires room { length buffer.old ≡ geometry.now.peb_size }
    ensures known { S.known source.new ≡ after (S.known source.old) result }
    ensures narrows { Narrows (S.agrees source.old) (S.agrees source.new) }
    ensures good { IfOk result (λ good. WhereHeld (S.agrees source.new) (λ bytes. good ≡ unwrap_or held.now.good (good_at geometry.now (blocks_of geometry.now bytes) held.now.peb))) }
    ensures failed { IfErr result (IsReadFault (blocks_in geometry.now (S.known source.old))) }
    ensures names { IfErr result (λ e. e ≡ StreamError.Read held.now.peb 0) }
    ensures named { IfErr result (NamesBlock geometry.now (S.failed_at source.new)) }
{
    match held.good {
        Some(good) => Ok(good),
        None => {
            let q = held.peb;
            let (ec, vid) = read_headers(source, geometry, q, buffer)?;
            is_good(source, geometry, q, &ec, &vid, buffer)
        }
    }
}

/// The meeting of an eraseblock that has these headers with a candidate, `None` if it meets none. Only here is the
/// CRC of copied data checked.
fn meeting<S: BlockSource>(
    source: &mut S,
    geometry: &Geometry,
    held: Option<Candidate>,
    p: u32,
    ec: &EcRead,
    vid: &VidRead,
    buffer: &mut [u8],
) -> Result<Option<Meeting>, StreamError>
    requires new { p < blocks_in geometry.now (S.known source.old) }
    requires held { IfSome held (λ c. c.peb < blocks_in geometry.now (S.known source.old)) }
    requires room { length buffer.old ≡ geometry.now.peb_size }
    ensures known { S.known source.new ≡ after (S.known source.old) result }
    ensures narrows { Narrows (S.agrees source.old) (S.agrees source.new) }
    ensures held { IfOk result (λ met. held_of met ≡ held) }
    ensures good { IfOk result (λ met. WhereHeld (S.agrees source.new) (λ bytes. IfSome met (IsMeeting geometry.now (blocks_of geometry.now bytes) p ec.now vid.now))) }
    ensures failed { IfErr result (IsReadFault (blocks_in geometry.now (S.known source.old))) }
    ensures names { IfErr result (λ e. (e ≡ StreamError.Read p 0) ⊎ IfSome held (λ c. e ≡ StreamError.Read c.peb 0)) }
    ensures named { IfErr result (NamesBlock geometry.now (S.failed_at source.new)) }
{
    let Some(held) = held else {
        return Ok(None);
    };
    let held_good = is_held_good(source, geometry, &held, buffer)?;
    let new_good = is_good(source, geometry, p, ec, vid, buffer)?;
    Ok(Some(Meeting {
        held,
        held_good,
        new_good,
    }))
}

/// Scans the `count` eraseblocks of a source, through a buffer of the size of one.
fn scan_blocks<S: BlockSource>(
    alloc: Global,
    geometry: &Geometry,
    source: &mut S,
    count: u32,
    buffer: &mut [u8],
) -> Result<Scan, StreamError>
    requires whole { IsWholeSize geometry.now (S.known source.old).size }
    requires count { count ≡ blocks_in geometry.now (S.known source.old) }
    requires room { length buffer.old ≡ geometry.now.peb_size }
    ensures known { S.known source.new ≡ after (S.known source.old) result }
    ensures narrows { Narrows (S.agrees source.old) (S.agrees source.new) }
    ensures found { IfOk result (IsScanOf geometry.now (S.known source.old) (S.agrees source.new)) }
    ensures mean { IfOk result (λ found. found.mean_ec ≤ 0x7FFFFFFF) }
    ensures refused { IfErr result (IsScanOfError geometry.now (S.known source.old) (S.agrees source.new)) }
    ensures named { IfErr result (NamesBlock geometry.now (S.failed_at source.new)) }
{
    let mut pass = Pass::new(alloc);
    for p in 0..count {
        let (ec, vid) = read_headers(source, geometry, p, buffer)?;
        let held = pass.nominate(p, &ec, &vid)?;
        match first_fault(p, pass.counts.image_seq, &ec, &vid, held) {
            None => {}
            Some(fault) => return Err(StreamError::Refused(fault)),
        }
        let met = meeting(source, geometry, held, p, &ec, &vid, buffer)?;
        match pass.add(p, &ec, &vid, met)? {
            None => {}
            Some(earlier) => return Err(StreamError::Refused(Refusal::SameSqnum(p, earlier))),
        }
    }
    Ok(Scan::of(pass))
}

/// Finds in a source which member wins each logical eraseblock, and what else a [`Scan`] holds. It reads the headers of
/// the eraseblocks in ascending order, and the data of a copy only if it meets another member.
///
/// # Errors
///
/// `Refused` with `TooMany` or `Length` if the source doesn't have the size of an image, before any read. `Read` if a read
/// failed, with the count 0. `Refused` with the first fault of the lowest eraseblock that has one: `Ec`, `ImageSeq`, `Vid`,
/// `Incompatible`, `Layout` or `SameSqnum`, tried in this order. `Memory` if memory ran out.
pub fn scan_from<S: BlockSource>(
    alloc: Global,
    geometry: &Geometry,
    source: &mut S,
) -> Result<Scan, StreamError>
    ensures known { S.known source.new ≡ after (S.known source.old) result }
    ensures narrows { Narrows (S.agrees source.old) (S.agrees source.new) }
    ensures found { IfOk result (IsScanOf geometry.now (S.known source.old) (S.agrees source.new)) }
    ensures mean { IfOk result (λ found. found.mean_ec ≤ 0x7FFFFFFF) }
    ensures refused { IfErr result (IsScanOfError geometry.now (S.known source.old) (S.agrees source.new)) }
    ensures named { IfErr result (NamesBlock geometry.now (S.failed_at source.new)) }
{
    let count = block_count(geometry, source.len())?;
    let mut buffer = Vec::from_elem(alloc, 0u8, geometry.peb_size() as usize)?;
    scan_blocks(alloc, geometry, source, count, buffer.as_mut_slice())
}

/// Finds which member wins each logical eraseblock, and what else a [`Scan`] holds.
///
/// # Errors
///
/// `Refused` with the first fault of the lowest eraseblock that has one: `Ec`, `ImageSeq`, `Vid`,
/// `Incompatible`, `Layout` or `SameSqnum`, tried in this order. `Memory` if memory ran out.
pub fn scan(alloc: Global, blocks: &Blocks<'_>) -> Result<Scan, AttachError>
    ensures found { IfOk result (of_blocks IsScan blocks.now) }
    ensures refused { IfErr result (of_blocks IsScanError blocks.now) }
{
    let mut source = MemorySource::new(blocks.bytes());
    match scan_from(alloc, &blocks.geometry(), &mut source) {
        Ok(found) => Ok(found),
        Err(StreamError::Refused(cause)) => Err(AttachError::Refused(cause)),
        Err(StreamError::Memory) => Err(AttachError::Memory),
        // No read fails, and nothing is written.
        Err(StreamError::Read(_, _) | StreamError::Write(_)) => unreachable!(),
    }
}
