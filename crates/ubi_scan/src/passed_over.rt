//! Eraseblocks of an image that hold something and are read as nothing, and where a fastmap begins.

ghost use Rattle.std.specs.Prelude.{◌≡◌, ◌<◌, ◌≤◌, ◌+◌, ◌^◌, IfErr, IfOk, cond};
ghost use Rattle.ubi_scan.specs.PassedOver.{FirstAnchorIs, count_passed_over, is_anchor, is_passed_over};
ghost use Rattle.ubi_scan.specs.Source.{Narrows, WhereHeld, blocks_in, blocks_of};
ghost use Rattle.ubi_scan.specs.Stream.{IsReadFailure, after};

use crate::errors::StreamError;
use crate::read::read_headers;
use crate::source::BlockSource;
use std::alloc::Global;
use ubi_media::{EcRead, Geometry, VidRead};

/// The number of the volume in whose eraseblocks fastmaps begin (ubi-media.h, `UBI_FM_SB_VOLUME_ID`).
const FASTMAP_VOLUME: u32 = 0x7FFF_F000;

/// Whether an eraseblock with these headers holds something, and is read as nothing.
fn is_passed_over(ec: &EcRead, vid: &VidRead) -> bool
    ensures { result ≡ is_passed_over ec.now vid.now }
{
    match (ec, vid) {
        (EcRead::Blank, VidRead::Blank) => false,
        (EcRead::Blank, _) | (EcRead::Corrupt, VidRead::Blank) | (_, VidRead::Corrupt) => true,
        _ => false,
    }
}

/// Whether a fastmap begins in an eraseblock with these headers.
fn is_anchor(ec: &EcRead, vid: &VidRead) -> bool
    ensures { result ≡ is_anchor ec.now vid.now }
{
    match (ec, vid) {
        (EcRead::Blank, _) => false,
        (_, VidRead::Valid(header)) => header.vol_id == FASTMAP_VOLUME,
        _ => false,
    }
}

/// A count, and one more if something holds.
fn counted(count: u32, holds: bool) -> u32
    requires { count + 1 < 2 ^ 32 }
    ensures { result ≡ count + cond holds 1 0 }
{
    if holds { count + 1 } else { count }
}

/// How many of the first eraseblocks of a source hold something, and are read as nothing: a header is damaged, or the erase-counter
/// header is blank where the other isn't. A LEB may be lost in each of them.
///
/// # Errors
///
/// `Read` if a read failed. `Memory` if memory ran out.
pub fn count_passed_over<S: BlockSource>(
    alloc: Global,
    geometry: &Geometry,
    source: &mut S,
    count: u32,
) -> Result<u32, StreamError>
    requires { count ≤ blocks_in geometry.now (S.known source.old) }
    ensures known { S.known source.new ≡ after (S.known source.old) result }
    ensures narrows { Narrows (S.agrees source.old) (S.agrees source.new) }
    ensures count { IfOk result (λ n. WhereHeld (S.agrees source.new) (λ bytes. n ≡ count_passed_over geometry.now (blocks_of geometry.now bytes) count)) }
    ensures failed { IfErr result (IsReadFailure (blocks_in geometry.now (S.known source.old))) }
{
    let mut buffer = Vec::from_elem(alloc, 0u8, geometry.peb_size() as usize)?;
    let buffer = buffer.as_mut_slice();
    let mut passed = 0;
    for p in 0..count {
        let (ec, vid) = read_headers(source, geometry, p, buffer)?;
        passed = counted(passed, is_passed_over(&ec, &vid));
    }
    Ok(passed)
}

/// The first eraseblock of a source in which a fastmap begins, among the first `count`. Linux looks for one in the first 64 eraseblocks of what
/// it attaches (ubi-media.h, `UBI_FM_MAX_START`), which may begin anywhere in a source.
///
/// # Errors
///
/// `Read` if a read failed. `Memory` if memory ran out.
pub fn first_anchor<S: BlockSource>(
    alloc: Global,
    geometry: &Geometry,
    source: &mut S,
    count: u32,
) -> Result<Option<u32>, StreamError>
    requires { count ≤ blocks_in geometry.now (S.known source.old) }
    ensures known { S.known source.new ≡ after (S.known source.old) result }
    ensures narrows { Narrows (S.agrees source.old) (S.agrees source.new) }
    ensures anchor { IfOk result (λ anchor. WhereHeld (S.agrees source.new) (λ bytes. FirstAnchorIs geometry.now (blocks_of geometry.now bytes) count anchor)) }
    ensures failed { IfErr result (IsReadFailure (blocks_in geometry.now (S.known source.old))) }
{
    let mut buffer = Vec::from_elem(alloc, 0u8, geometry.peb_size() as usize)?;
    let buffer = buffer.as_mut_slice();
    for p in 0..count {
        let (ec, vid) = read_headers(source, geometry, p, buffer)?;
        if is_anchor(&ec, &vid) {
            return Ok(Some(p));
        }
    }
    Ok(None)
}
