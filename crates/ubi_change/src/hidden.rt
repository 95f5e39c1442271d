//! What is hidden from a plan: headers of listed eraseblocks.

ghost use Rattle.std.specs.Prelude.{◌≡◌, ℕ, ◌<◌, ◌≤◌, IfErr, IfOk, length, max, slice_index};
ghost use Rattle.ubi_change.specs.Listed.{end_named, hidden_in, listed_header, sqnum_named, valid_header};
ghost use Rattle.ubi_media.specs.Geometry.{slots};
ghost use Rattle.ubi_scan.specs.Source.{Narrows, WhereHeld, blocks_in, blocks_of};
ghost use Rattle.ubi_scan.specs.Stream.{IsReadFailure, IsReadFault, after};

use crate::avoided::is_listed;
use std::alloc::Global;
use std::marker::Model;
use ubi_media::{Geometry, VidHeader, VidRead};
use ubi_scan::{BlockSource, StreamError, read_headers};

/// What Valid volume-identifier headers in listed eraseblocks name. A kernel that doesn't know that these eraseblocks are bad reads those
/// headers, and so no plan may give out such a sequence number again, or make such a logical eraseblock one of a volume.
#[derive(Drop)]
pub struct Hidden {
    /// The greatest sequence number, 0 if there is none.
    above: u64,
    /// By the number of each volume one more than the greatest logical eraseblock, 0 if there is none.
    ends: Vec<u64>,
}

impl Model for Hidden {
    ghost use Rattle.ubi_change.specs.Listed.{Hidden, hidden_code};

    ghost Value = { Hidden };

    ghost coded = { hidden_code };

    ghost view = { λ h. record { above = h.above; ends = h.ends.items } };
}

impl Hidden {
    /// The greatest sequence number, 0 if there is none.
    pub fn above(&self) -> u64
        ensures { result ≡ self.now.above }
    {
        self.above
    }

    /// By the number of each volume one more than the greatest logical eraseblock, 0 if there is none.
    pub fn ends(&self) -> &[u64]
        ensures { result.now ≡ self.now.ends }
    {
        self.ends.as_slice()
    }
}

/// A volume-identifier header, if it is Valid.
fn valid_header(vid: VidRead) -> Option<VidHeader>
    ensures { result ≡ valid_header vid }
{
    match vid {
        VidRead::Valid(header) => Some(header),
        _ => None,
    }
}

/// The Valid volume-identifier header of an eraseblock, if it is listed. The buffer has the size of an eraseblock.
///
/// # Errors
///
/// The read failed.
fn listed_header<S: BlockSource>(
    geometry: &Geometry,
    source: &mut S,
    marks: &[bool],
    p: u32,
    buffer: &mut [u8],
) -> Result<Option<VidHeader>, StreamError>
    requires inside { p < blocks_in geometry.now (S.known source.old) }
    requires room { length buffer.old ≡ geometry.now.peb_size }
    ensures known { S.known source.new ≡ after (S.known source.old) result }
    ensures narrows { Narrows (S.agrees source.old) (S.agrees source.new) }
    ensures header { IfOk result (λ o. WhereHeld (S.agrees source.new) (λ bytes. o ≡ listed_header geometry.now (blocks_of geometry.now bytes) marks.now p)) }
    ensures failed { IfErr result (IsReadFault (blocks_in geometry.now (S.known source.old))) }
{
    if !is_listed(marks, p) {
        return Ok(None);
    }
    let (_, vid) = read_headers(source, geometry, p, buffer)?;
    Ok(valid_header(vid))
}

/// The sequence number that a header names, 0 if there is none.
fn sqnum_named(header: &Option<VidHeader>) -> u64
    ensures { result ≡ sqnum_named header.now }
{
    match header {
        Some(header) => header.sqnum,
        None => 0,
    }
}

/// Raises the end of the volume that a header names, if there is one, to one more than its logical eraseblock.
fn raise(ends: &mut Vec<u64>, header: &Option<VidHeader>)
    ensures count { length ends.new.items ≡ length ends.old.items }
    ensures each { (vol : ℕ) → vol < length ends.old.items → slice_index ends.new.items vol ≡ max (slice_index ends.old.items vol) (end_named vol header.now) }
{
    if let Some(header) = header {
        let id = header.vol_id as usize;
        if id < ends.len() {
            ends[id] = ends[id].max(u64::from(header.lnum) + 1);
        }
    }
}

/// What Valid volume-identifier headers in listed eraseblocks of a source name.
///
/// # Errors
///
/// `Read` if a read failed. `Memory` if memory ran out.
pub fn find_hidden<S: BlockSource>(
    alloc: Global,
    geometry: &Geometry,
    source: &mut S,
    marks: &[bool],
) -> Result<Hidden, StreamError>
    ensures known { S.known source.new ≡ after (S.known source.old) result }
    ensures narrows { Narrows (S.agrees source.old) (S.agrees source.new) }
    ensures hidden { IfOk result (λ h. WhereHeld (S.agrees source.new) (λ bytes. h ≡ hidden_in geometry.now (blocks_of geometry.now bytes) marks.now)) }
    ensures failed { IfErr result (IsReadFailure (blocks_in geometry.now (S.known source.old))) }
{
    let mut buffer = Vec::from_elem(alloc, 0u8, geometry.peb_size() as usize)?;
    let buffer = buffer.as_mut_slice();
    let held = source.len() / u64::from(geometry.peb_size());
    let count = held.min(u64::from(geometry.pebs())) as u32;
    let mut above = 0u64;
    let mut ends = Vec::from_elem(alloc, 0u64, geometry.slots() as usize)?;
    for p in 0..count {
        let header = listed_header(geometry, source, marks, p, buffer)?;
        above = above.max(sqnum_named(&header));
        raise(&mut ends, &header);
    }
    Ok(Hidden { above, ends })
}
