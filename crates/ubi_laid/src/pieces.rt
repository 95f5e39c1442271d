//! The pieces of volumes, which are the logical eraseblocks that are laid out, by where their bytes lie in a source; and reading one into
//! a buffer.

ghost use Rattle.std.specs.Prelude.{◌≡◌, ◌≤◌, ℕ, ◌+◌, ◌*◌, ◌<◌, ◌/◌, List, OnErr, OnOk, drop, length, slice_range, take};
ghost use Rattle.ubi_laid.specs.Pieces.{IsInBuffer, IsReadOf, LiesIn, checked_header, given_check, is_left_out, number_of, piece_check};
ghost use Rattle.ubi_media.specs.Geometry.{leb_size};
ghost use Rattle.ubi_scan.specs.Image.{block, vid};
ghost use Rattle.ubi_scan.specs.Source.{Narrows, WhereHeld, after_read, blocks_of};

use ubi_media::{Geometry, VidHeader, VidRead, VolKind, crc, is_blank, read_vid};
use ubi_scan::{BlockSource, SourceFault};

/// Where the bytes of a piece are read.
#[derive(Clone, Copy)]
pub enum Origin {
    /// It has no bytes.
    Nowhere,
    /// In an eraseblock of the source, whose header gives their CRC.
    Block(u32),
    /// At this place of the source.
    Bytes(u64),
}

/// A logical eraseblock that is laid out.
#[derive(Clone, Copy)]
pub struct Piece {
    /// Its header, with 0 for the CRC of its bytes.
    pub header: VidHeader,
    /// Where its bytes are read.
    pub origin: Origin,
    /// How many bytes these are.
    pub len: u32,
}

impl Piece {
    /// The number that is given if it can't be read: of its eraseblock of the source, or of its volume.
    pub fn number(&self) -> u32
        ensures { result ≡ number_of self.now.origin self.now.header }
    {
        match self.origin {
            Origin::Block(p) => p,
            _ => self.header.vol_id,
        }
    }
}

/// Reads an eraseblock.
fn fetch_block<S: BlockSource>(
    geometry: &Geometry,
    p: u32,
    source: &mut S,
    buffer: &mut [u8],
) -> Result<(), SourceFault>
    requires block { p < (S.known source.old).size / geometry.now.peb_size }
    requires room { length buffer.old ≡ geometry.now.peb_size }
    ensures known { S.known source.new ≡ after_read (S.known source.old) result }
    ensures narrows { Narrows (S.agrees source.old) (S.agrees source.new) }
    ensures bytes { OnOk result (WhereHeld (S.agrees source.new) (λ bytes. buffer.new ≡ block (blocks_of geometry.now bytes) p)) }
    ensures failed { OnErr result (S.failed_at source.new ≡ p * geometry.now.peb_size) }
{
    source.read(u64::from(p) * u64::from(geometry.peb_size()), buffer)
}

/// Reads bytes to where the data of an eraseblock begin.
fn fetch_bytes<S: BlockSource>(
    geometry: &Geometry,
    start: u64,
    len: usize,
    source: &mut S,
    buffer: &mut [u8],
) -> Result<(), SourceFault>
    requires bytes { start + len ≤ (S.known source.old).size }
    requires fits { len ≤ leb_size geometry.now }
    requires room { length buffer.old ≡ geometry.now.peb_size }
    ensures known { S.known source.new ≡ after_read (S.known source.old) result }
    ensures narrows { Narrows (S.agrees source.old) (S.agrees source.new) }
    ensures bytes { OnOk result (WhereHeld (S.agrees source.new) (λ bytes. take len (drop geometry.now.data_offset buffer.new) ≡ slice_range bytes start (start + len))) }
    ensures failed { OnErr result (S.failed_at source.new ≡ start) }
{
    let data = geometry.data_offset() as usize;
    source.read(start, &mut buffer[data..data + len])
}

/// Reads a piece to where the data of an eraseblock begin. A piece that stands in an eraseblock is read with all of that.
pub fn fetch<S: BlockSource>(
    geometry: &Geometry,
    piece: &Piece,
    source: &mut S,
    buffer: &mut [u8],
) -> Result<(), SourceFault>
    requires lies { LiesIn geometry.now (S.known source.old).size piece.now }
    requires room { length buffer.old ≡ geometry.now.peb_size }
    ensures known { S.known source.new ≡ after_read (S.known source.old) result }
    ensures narrows { Narrows (S.agrees source.old) (S.agrees source.new) }
    ensures held { OnOk result (WhereHeld (S.agrees source.new) (IsInBuffer geometry.now piece.now.origin piece.now.len buffer.new)) }
    ensures failed { OnErr result (IsReadOf geometry.now piece.now.origin piece.now.header (S.failed_at source.new) (number_of piece.now.origin piece.now.header)) }
{
    match piece.origin {
        Origin::Nowhere => Ok(()),
        Origin::Block(p) => fetch_block(geometry, p, source, buffer),
        Origin::Bytes(start) => fetch_bytes(geometry, start, piece.len as usize, source, buffer),
    }
}

/// The bytes of a piece.
fn text_in<'a>(geometry: &Geometry, piece: &Piece, buffer: &'a [u8]) -> &'a [u8]
    requires room { length buffer.now ≡ geometry.now.peb_size }
    requires fits { piece.now.len ≤ leb_size geometry.now }
    ensures { result.now ≡ take piece.now.len (drop geometry.now.data_offset buffer.now) }
{
    let data = geometry.data_offset() as usize;
    &buffer[data..data + piece.len as usize]
}

/// Whether a piece is left out.
pub fn is_left_out(geometry: &Geometry, piece: &Piece, buffer: &[u8]) -> bool
    requires room { length buffer.now ≡ geometry.now.peb_size }
    requires fits { piece.now.len ≤ leb_size geometry.now }
    ensures { result ≡ is_left_out piece.now.header.kind (take piece.now.len (drop geometry.now.data_offset buffer.now)) }
{
    match piece.header.kind {
        VolKind::Static => false,
        VolKind::Dynamic => is_blank(text_in(geometry, piece, buffer)),
    }
}

/// What the volume-identifier header of an eraseblock is.
fn vid_in(geometry: &Geometry, bytes: &[u8]) -> VidRead
    requires { length bytes.now ≡ geometry.now.peb_size }
    ensures { result ≡ vid geometry.now bytes.now }
{
    let start = geometry.vid_offset() as usize;
    prove!(geometry.data_offset() <= geometry.peb_size());
    read_vid(geometry, bytes[start..].first_chunk::<64>().unwrap())
}

/// The CRC that the volume-identifier header of an eraseblock gives for its data. 0 if the header isn't Valid.
fn given_check(geometry: &Geometry, bytes: &[u8]) -> u32
    requires { length bytes.now ≡ geometry.now.peb_size }
    ensures { result ≡ given_check (vid geometry.now bytes.now) }
{
    match vid_in(geometry, bytes) {
        VidRead::Valid(header) => header.data_crc,
        _ => 0,
    }
}

/// The CRC of a piece of a static volume.
fn check_of(geometry: &Geometry, piece: &Piece, buffer: &[u8]) -> u32
    requires room { length buffer.now ≡ geometry.now.peb_size }
    requires fits { piece.now.len ≤ leb_size geometry.now }
    ensures { (bytes : List ℕ) → IsInBuffer geometry.now piece.now.origin piece.now.len buffer.now bytes → result ≡ piece_check geometry.now piece.now.origin piece.now.len bytes }
{
    match piece.origin {
        Origin::Nowhere => 0,
        Origin::Block(_) => given_check(geometry, buffer),
        Origin::Bytes(_) => crc(text_in(geometry, piece, buffer)),
    }
}

/// The header of a piece, with its CRC.
pub fn header_of(geometry: &Geometry, piece: &Piece, buffer: &[u8]) -> VidHeader
    requires room { length buffer.now ≡ geometry.now.peb_size }
    requires fits { piece.now.len ≤ leb_size geometry.now }
    ensures { (bytes : List ℕ) → IsInBuffer geometry.now piece.now.origin piece.now.len buffer.now bytes → result ≡ checked_header piece.now.header.kind geometry.now piece.now.header piece.now.origin piece.now.len bytes }
{
    match piece.header.kind {
        VolKind::Static => VidHeader {
            data_crc: check_of(geometry, piece, buffer),
            ..piece.header
        },
        VolKind::Dynamic => piece.header,
    }
}
