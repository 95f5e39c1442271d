//! The normal image of a source, into a writer.

ghost use Rattle.std.specs.FinMap as finite;
ghost use Rattle.std.specs.Prelude.{◌≡◌, ℕ, ◌/◌, IfErr, IfOk, None, Some};
ghost use Rattle.ubi_compose.specs.inner.Pieces.{IsNext};
ghost use Rattle.ubi_compose.specs.inner.Stored.{damaged_piece, dynamic_piece, static_piece, stored_pieces};
ghost use Rattle.ubi_compose.specs.Streamed.{IsNormaliseToError, IsNormalisedTo, WhereUnwritten};
ghost use Rattle.ubi_media.specs.Record.{rec_fault};
ghost use Rattle.ubi_scan.specs.Image.{IsWholeSize};
ghost use Rattle.ubi_scan.specs.Source.{Narrows};
ghost use Rattle.ubi_scan.specs.Stream.{NamesBlock, after};
ghost use Rattle.ubi_volume.specs.Places.{AreWithin};

use crate::errors::PutError;
use crate::sourced::{Contents, Device};
use crate::writer::put_image;
use std::alloc::Global;
use std::io::Write;
use ubi_laid::{Origin, Piece, damaged_header, piece_header};
use ubi_media::{Geometry, VidHeader, VolKind, VolumeRecord};
use ubi_scan::{BlockSource, StreamError};
use ubi_volume::{PlaceContent, Places, attach_places, share_len};

/// Writes the normal image of what a source holds, and returns how many bytes that is. It holds one eraseblock of
/// contents at a time, and allocates all memory before it writes.
///
/// # Errors
///
/// `Refused` as by [`crate::normalise`], and `Memory` if memory ran out: then nothing is written. `Read` if a read
/// failed, and `Write` if a write failed, with how many bytes of the normal image were written before.
pub fn normalise_to<S: BlockSource, W: Write>(
    alloc: Global,
    geometry: &Geometry,
    source: &mut S,
    writer: &mut W,
) -> Result<u64, StreamError>
    ensures known { S.known source.new ≡ after (S.known source.old) result }
    ensures narrows { Narrows (S.agrees source.old) (S.agrees source.new) }
    ensures written { IfOk result (IsNormalisedTo geometry.now (S.agrees source.new) (W.contents writer.old) (W.contents writer.new)) }
    ensures whole { IfOk result (λ _. IsWholeSize geometry.now (S.known source.old).size) }
    ensures untouched { IfErr result (WhereUnwritten (writer.new ≡ writer.old)) }
    ensures refused { IfErr result (IsNormaliseToError geometry.now (S.known source.old) (S.agrees source.new) (W.contents writer.old) (W.contents writer.new)) }
    ensures named { IfErr result (NamesBlock geometry.now (S.failed_at source.new)) }
{
    let places = attach_places(alloc, geometry, source)?;
    let text = places.table().encode(alloc)?;
    let mut buffer = Vec::from_elem(alloc, 0u8, geometry.peb_size() as usize)?;
    let device = Device {
        geometry: *geometry,
        image_seq: places.image_seq(),
    };
    let buffer = buffer.as_mut_slice();
    match put_image(&device, text.as_slice(), &places, 0, source, buffer, writer) {
        Ok(total) => Ok(total),
        Err(PutError::Read(p, written)) => Err(StreamError::Read(p, written)),
        Err(PutError::Write(written)) => Err(StreamError::Write(written)),
    }
}

/// The piece of a damaged volume.
fn damaged_piece(geometry: &Geometry, id: u32, entry: &VolumeRecord) -> Piece
    requires { rec_fault geometry.now entry.now ≡ None }
    ensures { result ≡ damaged_piece geometry.now id entry.now }
{
    Piece {
        header: damaged_header(entry.data_pad(geometry), id),
        origin: Origin::Nowhere,
        len: 0,
    }
}

/// The piece at `lnum` of a static volume's contents of `lebs` logical eraseblocks and `bytes` bytes. The header in its place
/// gives the CRC: it was compared with the piece when the size of the contents was found.
fn static_piece(
    geometry: &Geometry,
    id: u32,
    entry: &VolumeRecord,
    lebs: u32,
    bytes: u64,
    lnum: u32,
    p: u32,
) -> Piece
    requires { rec_fault geometry.now entry.now ≡ None }
    ensures { result ≡ static_piece geometry.now id entry.now lebs bytes lnum p }
{
    let len = share_len(entry.usable(geometry), bytes, lnum);
    Piece {
        header: piece_header(entry.data_pad(geometry), id, lebs, lnum, len, 0),
        origin: Origin::Block(p),
        len,
    }
}

/// The piece at `lnum` of a dynamic volume.
fn dynamic_piece(geometry: &Geometry, id: u32, entry: &VolumeRecord, lnum: u32, p: u32) -> Piece
    requires { rec_fault geometry.now entry.now ≡ None }
    ensures { result ≡ dynamic_piece geometry.now id entry.now lnum p }
{
    let data_pad = entry.data_pad(geometry);
    Piece {
        header: VidHeader::plain(VolKind::Dynamic, 0, data_pad, id, lnum),
        origin: Origin::Block(p),
        len: entry.usable(geometry),
    }
}

/// The next piece of a volume with a record, from a logical eraseblock on.
fn next_piece(
    geometry: &Geometry,
    places: &Places,
    id: u32,
    entry: &VolumeRecord,
    from: u32,
) -> Option<Piece>
    requires sizes { places.now.records.sizes ≡ geometry.now }
    requires recorded { finite.get places.now.records.of id ≡ Some entry.now }
    requires sound { rec_fault geometry.now entry.now ≡ None }
    requires within { (n : ℕ) × AreWithin n places.now }
    ensures { IsNext (stored_pieces places.now) id from result }
{
    match places.content(id) {
        PlaceContent::Damaged if from == 0 => Some(damaged_piece(geometry, id, entry)),
        PlaceContent::Static { lebs, bytes } if from < lebs => {
            let p = places.place(id, from)?;
            Some(static_piece(geometry, id, entry, lebs, bytes, from, p))
        }
        PlaceContent::Dynamic => match places.next_place(id, from) {
            Some((lnum, p)) => Some(dynamic_piece(geometry, id, entry, lnum, p)),
            None => None,
        },
        _ => None,
    }
}

impl Contents for Places {
    ghost sizes = { λ p. p.records.sizes };

    ghost pieces = { λ p. stored_pieces p };

    ghost LieIn = { λ p size. AreWithin (size / p.records.sizes.peb_size) p };

    fn next(&self, geometry: &Geometry, id: u32, from: u32) -> Option<Piece> {
        let entry = self.table().get(id)?;
        next_piece(geometry, self, id, entry, from)
    }
}
