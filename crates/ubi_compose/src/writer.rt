//! The one writer of normal images: each eraseblock is laid out in a buffer, and written.

ghost use Rattle.std.specs.Prelude.{◌≡◌, ◌+◌, ◌<◌, ◌≤◌, ◌^◌, ◌++◌, ◌-◌, IfOk, drop, length, take};
ghost use Rattle.ubi_compose.specs.Composed.{spare};
ghost use Rattle.ubi_compose.specs.inner.Pieces.{HasPut, IsReadIn, NoRead, first_volumes, image_bytes, known_put, piece_bytes, spares_bytes, table_block, tables_bytes, volume_bytes};
ghost use Rattle.ubi_laid.specs.Pieces.{IsInBuffer, IsReadOf, LiesIn};
ghost use Rattle.ubi_compose.specs.Normal.{laid_bytes, new_ec};
ghost use Rattle.ubi_media.specs.Fields.{blank};
ghost use Rattle.ubi_media.specs.Geometry.{leb_size, slots};
ghost use Rattle.ubi_scan.specs.Held.{anything};
ghost use Rattle.ubi_scan.specs.Source.{Narrows};

use crate::errors::PutError;
use crate::header::copy_header;
use crate::memory_image::{HEADER_SIZE, new_ec};
use crate::sourced::{Contents, Device};
use std::io::Write;
use ubi_laid::{Piece, fetch, header_of, is_left_out};
use ubi_media::{Geometry, VidHeader, write_ec, write_vid};
use ubi_scan::BlockSource;
use ubi_volume::write_all;

/// Writes an eraseblock with a header. Its data are the first `len` bytes of the logical eraseblock in the buffer.
fn put_laid<W: Write>(
    device: &Device,
    header: &VidHeader,
    len: usize,
    buffer: &mut [u8],
    writer: &mut W,
    done: u64,
) -> Result<u64, PutError>
    requires room { length buffer.old ≡ device.now.geometry.peb_size }
    requires text { len ≤ leb_size device.now.geometry }
    requires few { done + device.now.geometry.peb_size < 2 ^ 64 }
    ensures put { HasPut NoRead anything (W.contents writer.old) (W.contents writer.new) (λ _. laid_bytes device.now.geometry (new_ec device.now.image_seq) (record { header = header.now; text = take len (drop device.now.geometry.data_offset buffer.old) })) done result }
    ensures least { IfOk result (λ n. n ≡ done + device.now.geometry.peb_size) }
{
    lay(buffer, &device.geometry, device.image_seq, header, len);
    match write_all(writer, buffer) {
        Ok(()) => Ok(done + u64::from(device.geometry.peb_size())),
        Err(more) => Err(PutError::Write(done + more as u64)),
    }
}

/// Writes the eraseblock of a piece whose bytes stand in the buffer, unless it is left out.
fn put_read<W: Write>(
    device: &Device,
    piece: &Piece,
    buffer: &mut [u8],
    writer: &mut W,
    done: u64,
) -> Result<u64, PutError>
    requires room { length buffer.old ≡ device.now.geometry.peb_size }
    requires fits { piece.now.len ≤ leb_size device.now.geometry }
    requires few { done + device.now.geometry.peb_size < 2 ^ 64 }
    ensures put { HasPut NoRead (IsInBuffer device.now.geometry piece.now.origin piece.now.len buffer.old) (W.contents writer.old) (W.contents writer.new) (piece_bytes device.now piece.now) done result }
    ensures most { IfOk result (λ n. n ≤ done + device.now.geometry.peb_size) }
{
    if is_left_out(&device.geometry, piece, buffer) {
        return Ok(done);
    }
    let header = header_of(&device.geometry, piece, buffer);
    put_laid(device, &header, piece.len as usize, buffer, writer, done)
}

/// Reads a piece, and writes its eraseblock unless it is left out.
fn put_piece<S: BlockSource, W: Write>(
    device: &Device,
    piece: &Piece,
    source: &mut S,
    buffer: &mut [u8],
    writer: &mut W,
    done: u64,
) -> Result<u64, PutError>
    requires lies { LiesIn device.now.geometry (S.known source.old).size piece.now }
    requires room { length buffer.old ≡ device.now.geometry.peb_size }
    requires few { done + device.now.geometry.peb_size < 2 ^ 64 }
    ensures known { S.known source.new ≡ known_put (S.known source.old) result }
    ensures narrows { Narrows (S.agrees source.old) (S.agrees source.new) }
    ensures put { HasPut (IsReadOf device.now.geometry piece.now.origin piece.now.header (S.failed_at source.new)) (S.agrees source.new) (W.contents writer.old) (W.contents writer.new) (piece_bytes device.now piece.now) done result }
    ensures most { IfOk result (λ n. n ≤ done + device.now.geometry.peb_size) }
{
    match fetch(&device.geometry, piece, source, buffer) {
        Ok(()) => put_read(device, piece, buffer, writer, done),
        Err(_) => Err(PutError::Read(piece.number(), done)),
    }
}

/// Writes the eraseblocks of a volume.
fn put_volume<C: Contents, S: BlockSource, W: Write>(
    device: &Device,
    contents: &C,
    id: u32,
    source: &mut S,
    buffer: &mut [u8],
    writer: &mut W,
    done: u64,
) -> Result<u64, PutError>
    requires sizes { C.sizes contents.now ≡ device.now.geometry }
    requires lie { C.LieIn contents.now (S.known source.old).size }
    requires room { length buffer.old ≡ device.now.geometry.peb_size }
    requires few { done + 2 ^ 55 < 2 ^ 64 }
    ensures known { S.known source.new ≡ known_put (S.known source.old) result }
    ensures narrows { Narrows (S.agrees source.old) (S.agrees source.new) }
    ensures put { HasPut (IsReadIn device.now.geometry (C.pieces contents.now) (S.failed_at source.new)) (S.agrees source.new) (W.contents writer.old) (W.contents writer.new) (volume_bytes device.now (C.pieces contents.now) id) done result }
    ensures most { IfOk result (λ n. n ≤ done + 2 ^ 55) }
{
    prove!(device.geometry.peb_size() >= 64);
    let mut total = done;
    let mut from = 0;
    while let Some(piece) = contents.next(&device.geometry, id, from) {
        total = put_piece(device, &piece, source, buffer, writer, total)?;
        from = piece.header.lnum + 1;
    }
    Ok(total)
}

/// Writes the eraseblocks of the volumes, in ascending order.
fn put_volumes<C: Contents, S: BlockSource, W: Write>(
    device: &Device,
    contents: &C,
    source: &mut S,
    buffer: &mut [u8],
    writer: &mut W,
    done: u64,
) -> Result<u64, PutError>
    requires sizes { C.sizes contents.now ≡ device.now.geometry }
    requires lie { C.LieIn contents.now (S.known source.old).size }
    requires room { length buffer.old ≡ device.now.geometry.peb_size }
    requires few { done ≤ 2 ^ 25 }
    ensures known { S.known source.new ≡ known_put (S.known source.old) result }
    ensures narrows { Narrows (S.agrees source.old) (S.agrees source.new) }
    ensures put { HasPut (IsReadIn device.now.geometry (C.pieces contents.now) (S.failed_at source.new)) (S.agrees source.new) (W.contents writer.old) (W.contents writer.new) (first_volumes device.now (C.pieces contents.now) (slots device.now.geometry)) done result }
    ensures most { IfOk result (λ n. n ≤ done + 2 ^ 62) }
{
    let mut total = done;
    for id in 0..device.geometry.slots() {
        total = put_volume(device, contents, id, source, buffer, writer, total)?;
    }
    Ok(total)
}

/// Writes a copy of the volume table, 0 or 1, whose bytes are given.
fn put_table<W: Write>(
    device: &Device,
    copy: u32,
    table: &[u8],
    buffer: &mut [u8],
    writer: &mut W,
    done: u64,
) -> Result<u64, PutError>
    requires fits { length table.now ≤ leb_size device.now.geometry }
    requires room { length buffer.old ≡ device.now.geometry.peb_size }
    requires few { done + device.now.geometry.peb_size < 2 ^ 64 }
    ensures put { HasPut NoRead anything (W.contents writer.old) (W.contents writer.new) (table_block device.now table.now copy) done result }
    ensures least { IfOk result (λ n. n ≡ done + device.now.geometry.peb_size) }
{
    let begin = device.geometry.data_offset() as usize;
    buffer[begin..begin + table.len()].copy_from_slice(table);
    put_laid(
        device,
        &copy_header(copy),
        table.len(),
        buffer,
        writer,
        done,
    )
}

/// Writes both copies of the volume table.
fn put_tables<W: Write>(
    device: &Device,
    table: &[u8],
    buffer: &mut [u8],
    writer: &mut W,
) -> Result<u64, PutError>
    requires fits { length table.now ≤ leb_size device.now.geometry }
    requires room { length buffer.old ≡ device.now.geometry.peb_size }
    ensures put { HasPut NoRead anything (W.contents writer.old) (W.contents writer.new) (tables_bytes device.now table.now) 0 result }
    ensures most { IfOk result (λ n. n ≤ 2 ^ 25) }
{
    prove!(device.geometry.peb_size() >= 64);
    let first = put_table(device, 0, table, buffer, writer, 0)?;
    put_table(device, 1, table, buffer, writer, first)
}

/// Writes `count` spare eraseblocks.
fn put_spares<W: Write>(
    device: &Device,
    count: u32,
    buffer: &mut [u8],
    writer: &mut W,
    done: u64,
) -> Result<u64, PutError>
    requires room { length buffer.old ≡ device.now.geometry.peb_size }
    requires few { done ≤ 2 ^ 63 }
    ensures { HasPut NoRead anything (W.contents writer.old) (W.contents writer.new) (spares_bytes device.now count) done result }
{
    prove!(device.geometry.peb_size() >= 64);
    lay_spare(buffer, &device.geometry, device.image_seq);
    let mut total = done;
    for _ in 0..count {
        match write_all(writer, buffer) {
            Ok(()) => total += buffer.len() as u64,
            Err(more) => return Err(PutError::Write(total + more as u64)),
        }
    }
    Ok(total)
}

/// Writes a normal image: two copies of the table, whose bytes are given, then the volumes, and then `spares` spare eraseblocks.
pub(crate) fn put_image<C: Contents, S: BlockSource, W: Write>(
    device: &Device,
    table: &[u8],
    contents: &C,
    spares: u32,
    source: &mut S,
    buffer: &mut [u8],
    writer: &mut W,
) -> Result<u64, PutError>
    requires sizes { C.sizes contents.now ≡ device.now.geometry }
    requires lie { C.LieIn contents.now (S.known source.old).size }
    requires fits { length table.now ≤ leb_size device.now.geometry }
    requires room { length buffer.old ≡ device.now.geometry.peb_size }
    ensures known { S.known source.new ≡ known_put (S.known source.old) result }
    ensures narrows { Narrows (S.agrees source.old) (S.agrees source.new) }
    ensures put { HasPut (IsReadIn device.now.geometry (C.pieces contents.now) (S.failed_at source.new)) (S.agrees source.new) (W.contents writer.old) (W.contents writer.new) (image_bytes device.now table.now (C.pieces contents.now) spares) 0 result }
{
    let front = put_tables(device, table, buffer, writer)?;
    let normal = put_volumes(device, contents, source, buffer, writer, front)?;
    put_spares(device, spares, buffer, writer, normal)
}

/// Makes all bytes 0xFF except the first `len`.
pub fn blank_behind(part: &mut [u8], len: usize)
    requires { len ≤ length part.old }
    ensures { part.new ≡ take len part.old ++ blank (length part.old - len) }
{
    part[len..].fill(0xFF);
}

/// Makes the first bytes those of a header, and all others 0xFF.
fn put_front(part: &mut [u8], header: &[u8])
    requires { length header.now ≤ length part.old }
    ensures { part.new ≡ header.now ++ blank (length part.old - length header.now) }
{
    let (front, rest) = part.split_at_mut(header.len());
    front.copy_from_slice(header);
    rest.fill(0xFF);
}

/// Lays out an eraseblock with an image sequence number in a buffer of its size, which already holds the first `len` bytes of the
/// logical eraseblock.
pub fn lay(buffer: &mut [u8], geometry: &Geometry, image_seq: u32, header: &VidHeader, len: usize)
    requires room { length buffer.old ≡ geometry.now.peb_size }
    requires text { len ≤ leb_size geometry.now }
    ensures { buffer.new ≡ laid_bytes geometry.now (new_ec image_seq) (record { header = header.now; text = take len (drop geometry.now.data_offset buffer.old) }) }
{
    let vid = geometry.vid_offset() as usize;
    let data = geometry.data_offset() as usize;
    prove!(geometry.data_offset() <= geometry.peb_size());
    let (headers, leb) = buffer.split_at_mut(data);
    let (first, second) = headers.split_at_mut(vid);
    put_front(first, &write_ec(geometry, &new_ec(image_seq)));
    put_front(second, &write_vid(header));
    blank_behind(leb, len);
}

/// Lays out a spare eraseblock with an image sequence number in a buffer of its size.
pub fn lay_spare(buffer: &mut [u8], geometry: &Geometry, image_seq: u32)
    requires { length buffer.old ≡ geometry.now.peb_size }
    ensures { buffer.new ≡ spare geometry.now image_seq }
{
    prove!(geometry.peb_size() >= HEADER_SIZE);
    put_front(buffer, &write_ec(geometry, &new_ec(image_seq)));
}
