//! What a volume of a source reads, written from the places of its logical eraseblocks.

ghost use Rattle.std.specs.Prelude.{◌≡◌, ◌+◌, ◌*◌, ◌<◌, ◌≤◌, ◌^◌, IfErr, IfOk, IfSome, Ok, length};
ghost use Rattle.ubi_media.specs.Geometry.{leb_size};
ghost use Rattle.ubi_scan.specs.Source.{Narrows, blocks_in};
ghost use Rattle.ubi_scan.specs.Stream.{NamesBlock, after};
ghost use Rattle.ubi_volume.specs.inner.Named.{NamesRead};
ghost use Rattle.ubi_volume.specs.Extract.{extent_in, read_text};
ghost use Rattle.ubi_volume.specs.Places.{ArePlacesOf};
ghost use Rattle.ubi_volume.specs.Wrote.{All, IsWroteError, Wrote};
ghost use Rattle.ubi_volume.specs.inner.Pieces.{leb_at};

use crate::block::read_place;
use crate::places::{Extent, Places, share_len};
use crate::write::write_all;
use std::io::Write;
use ubi_media::Geometry;
use ubi_scan::{BlockSource, StreamError};

/// Writes the first bytes of a logical eraseblock, by its place, as many as the buffer has: 0xFF if it has no place.
/// Returns how many bytes are now written; `done` of them were written before.
///
/// # Errors
///
/// The read failed, or a write did.
fn write_leb<S: BlockSource, W: Write>(
    geometry: &Geometry,
    source: &mut S,
    place: Option<u32>,
    buffer: &mut [u8],
    writer: &mut W,
    done: u64,
) -> Result<u64, StreamError>
    requires block { IfSome place (λ p. p < blocks_in geometry.now (S.known source.old)) }
    requires text { length buffer.old ≤ leb_size geometry.now }
    requires few { done + length buffer.old < 2 ^ 64 }
    ensures known { S.known source.new ≡ after (S.known source.old) result }
    ensures narrows { Narrows (S.agrees source.old) (S.agrees source.new) }
    ensures written { IfOk result (Wrote (S.agrees source.new) (W.contents writer.old) (W.contents writer.new) (leb_at geometry.now (length buffer.old) place) All done) }
    ensures count { IfOk result (λ n. n ≡ done + length buffer.old) }
    ensures failed { IfErr result (IsWroteError geometry.now (S.known source.old) (S.agrees source.new) (W.contents writer.old) (W.contents writer.new) (leb_at geometry.now (length buffer.old) place) done) }
    ensures names { IfSome place (λ p. IfErr result (NamesRead p done)) }
    ensures named { IfErr result (NamesBlock geometry.now (S.failed_at source.new)) }
{
    match read_place(geometry, source, place, buffer) {
        Ok(()) => {}
        Err(StreamError::Read(p, _)) => return Err(StreamError::Read(p, done)),
        Err(_) => unreachable!(),
    }
    match write_all(writer, buffer) {
        Ok(()) => Ok(done + buffer.len() as u64),
        Err(more) => Err(StreamError::Write(done + more as u64)),
    }
}

/// Writes what a volume reads, by its extent ([`Places::extent`]), and returns how many bytes that is. The places
/// are those that were found in the source. One logical eraseblock is held at a time, in a buffer of the size of an
/// eraseblock. No other memory is allocated, and each eraseblock is read at most once.
///
/// # Errors
///
/// `Read` if a read failed, and `Write` if a write failed: the writer then received the first of the bytes, and the
/// error says how many.
pub fn write_places<S: BlockSource, W: Write>(
    geometry: &Geometry,
    source: &mut S,
    places: &Places,
    id: u32,
    extent: Extent,
    buffer: &mut [u8],
    writer: &mut W,
) -> Result<u64, StreamError>
    requires places { ArePlacesOf geometry.now (S.known source.old) (S.agrees source.old) places.now }
    requires room { length buffer.old ≡ geometry.now.peb_size }
    requires reads { extent_in places.now id ≡ Ok extent }
    requires size { extent.size ≤ leb_size geometry.now }
    ensures known { S.known source.new ≡ after (S.known source.old) result }
    ensures narrows { Narrows (S.agrees source.old) (S.agrees source.new) }
    ensures written { IfOk result (Wrote (S.agrees source.new) (W.contents writer.old) (W.contents writer.new) (read_text geometry.now places.now id) All 0) }
    ensures most { IfOk result (λ n. n ≤ extent.lebs * extent.size) }
    ensures failed { IfErr result (IsWroteError geometry.now (S.known source.old) (S.agrees source.new) (W.contents writer.old) (W.contents writer.new) (read_text geometry.now places.now id) 0) }
    ensures named { IfErr result (NamesBlock geometry.now (S.failed_at source.new)) }
{
    let mut done = 0;
    for lnum in 0..extent.lebs {
        let len = share_len(extent.size, extent.bytes, lnum) as usize;
        let place = places.place(id, lnum);
        done = write_leb(geometry, source, place, &mut buffer[..len], writer, done)?;
    }
    Ok(done)
}
