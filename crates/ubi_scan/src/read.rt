//! Reading the eraseblocks of a source.

ghost use Rattle.std.specs.Prelude.{◌≡◌, ◌+◌, ◌*◌, ◌<◌, ◌≤◌, IfErr, IfOk, OnErr, OnOk, length, slice_range};
ghost use Rattle.ubi_media.specs.Geometry.{leb_size};
ghost use Rattle.ubi_scan.specs.Image.{block, ec, leb, vid};
ghost use Rattle.ubi_scan.specs.Members.{member};
ghost use Rattle.ubi_scan.specs.Numbers.{CounterFits};
ghost use Rattle.ubi_scan.specs.Source.{Narrows, WhereHeld, blocks_in, blocks_of};
ghost use Rattle.ubi_scan.specs.Stream.{IsReadFault, NamesBlock, after};

use crate::errors::StreamError;
use crate::header::member_of;
use crate::source::BlockSource;
use ubi_media::{EcRead, Geometry, VidHeader, VidRead, read_ec, read_vid};

/// Fills `out` with the bytes of an eraseblock from its byte `start` on.
///
/// # Errors
///
/// The read failed.
pub fn read_part<S: BlockSource>(
    source: &mut S,
    geometry: &Geometry,
    p: u32,
    start: u32,
    out: &mut [u8],
) -> Result<(), StreamError>
    requires block { p < blocks_in geometry.now (S.known source.old) }
    requires part { start + length out.old ≤ geometry.now.peb_size }
    ensures known { S.known source.new ≡ after (S.known source.old) result }
    ensures narrows { Narrows (S.agrees source.old) (S.agrees source.new) }
    ensures bytes { OnOk result (WhereHeld (S.agrees source.new) (λ bytes. out.new ≡ slice_range (block (blocks_of geometry.now bytes) p) start (start + length out.old))) }
    ensures failed { IfErr result (IsReadFault (blocks_in geometry.now (S.known source.old))) }
    ensures names { IfErr result (λ e. e ≡ StreamError.Read p 0) }
    ensures place { OnErr result (S.failed_at source.new ≡ p * geometry.now.peb_size + start) }
{
    let at = u64::from(p) * u64::from(geometry.peb_size()) + u64::from(start);
    match source.read(at, out) {
        Ok(()) => Ok(()),
        Err(_) => Err(StreamError::Read(p, 0)),
    }
}

/// Reads both headers of an eraseblock in one read, into a buffer of the size of an eraseblock.
///
/// # Errors
///
/// The read failed.
pub fn read_headers<S: BlockSource>(
    source: &mut S,
    geometry: &Geometry,
    p: u32,
    buffer: &mut [u8],
) -> Result<(EcRead, VidRead), StreamError>
    requires block { p < blocks_in geometry.now (S.known source.old) }
    requires room { length buffer.old ≡ geometry.now.peb_size }
    ensures known { S.known source.new ≡ after (S.known source.old) result }
    ensures narrows { Narrows (S.agrees source.old) (S.agrees source.new) }
    ensures ec { IfOk result (λ h. WhereHeld (S.agrees source.new) (λ bytes. h.0 ≡ ec geometry.now (block (blocks_of geometry.now bytes) p))) }
    ensures vid { IfOk result (λ h. WhereHeld (S.agrees source.new) (λ bytes. h.1 ≡ vid geometry.now (block (blocks_of geometry.now bytes) p))) }
    ensures counter { IfOk result (λ h. CounterFits h.0) }
    ensures failed { IfErr result (IsReadFault (blocks_in geometry.now (S.known source.old))) }
    ensures names { IfErr result (λ e. e ≡ StreamError.Read p 0) }
    ensures named { IfErr result (NamesBlock geometry.now (S.failed_at source.new)) }
{
    let start = geometry.vid_offset() as usize;
    prove!(geometry.data_offset() <= geometry.peb_size());
    let area = &mut buffer[..start + 64];
    read_part(source, geometry, p, 0, area)?;
    let ec = read_ec(geometry, area.first_chunk::<64>().unwrap());
    let vid = read_vid(geometry, area[start..].first_chunk::<64>().unwrap());
    Ok((ec, vid))
}

/// Reads the header by which an eraseblock is a member of a logical eraseblock, into a buffer of the size of an
/// eraseblock. `None` if it is no member.
///
/// # Errors
///
/// The read failed.
pub fn read_member<S: BlockSource>(
    source: &mut S,
    geometry: &Geometry,
    p: u32,
    buffer: &mut [u8],
) -> Result<Option<VidHeader>, StreamError>
    requires block { p < blocks_in geometry.now (S.known source.old) }
    requires room { length buffer.old ≡ geometry.now.peb_size }
    ensures known { S.known source.new ≡ after (S.known source.old) result }
    ensures narrows { Narrows (S.agrees source.old) (S.agrees source.new) }
    ensures member { IfOk result (λ header. WhereHeld (S.agrees source.new) (λ bytes. header ≡ member geometry.now (block (blocks_of geometry.now bytes) p))) }
    ensures failed { IfErr result (IsReadFault (blocks_in geometry.now (S.known source.old))) }
    ensures names { IfErr result (λ e. e ≡ StreamError.Read p 0) }
    ensures named { IfErr result (NamesBlock geometry.now (S.failed_at source.new)) }
{
    let (ec, vid) = read_headers(source, geometry, p, buffer)?;
    Ok(member_of(&ec, &vid))
}

/// Fills `out` with the first bytes of the logical eraseblock in an eraseblock.
///
/// # Errors
///
/// The read failed.
pub fn read_leb<S: BlockSource>(
    source: &mut S,
    geometry: &Geometry,
    p: u32,
    out: &mut [u8],
) -> Result<(), StreamError>
    requires block { p < blocks_in geometry.now (S.known source.old) }
    requires part { length out.old ≤ leb_size geometry.now }
    ensures known { S.known source.new ≡ after (S.known source.old) result }
    ensures narrows { Narrows (S.agrees source.old) (S.agrees source.new) }
    ensures bytes { OnOk result (WhereHeld (S.agrees source.new) (λ bytes. out.new ≡ slice_range (leb geometry.now (block (blocks_of geometry.now bytes) p)) 0 (length out.old))) }
    ensures failed { IfErr result (IsReadFault (blocks_in geometry.now (S.known source.old))) }
    ensures names { IfErr result (λ e. e ≡ StreamError.Read p 0) }
    ensures named { IfErr result (NamesBlock geometry.now (S.failed_at source.new)) }
{
    prove!(geometry.data_offset() <= geometry.peb_size());
    read_part(source, geometry, p, geometry.data_offset(), out)
}
