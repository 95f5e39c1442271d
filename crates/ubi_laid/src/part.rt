//! Volumes whose bytes lie in a source, and their pieces.

ghost use Rattle.std.specs.Prelude.{◌≡◌, ◌≤◌, ◌+◌, ◌*◌, ◌<◌, ◌^◌, None};
ghost use Rattle.ubi_laid.specs.Parts.{is_long_part, pieces_of};
ghost use Rattle.ubi_laid.specs.Pieces.{built_piece};
ghost use Rattle.ubi_media.specs.Record.{rec_fault, usable};

use crate::header::piece_header;
use crate::pieces::{Origin, Piece};
use ubi_media::{Geometry, VidHeader, VolKind, VolumeRecord, rec_fault};
use ubi_volume::share_len;

/// A volume whose bytes lie in a source.
#[derive(Clone, Copy, Debug)]
pub struct Part {
    /// Its number.
    pub id: u32,
    /// Its record.
    pub entry: VolumeRecord,
    /// The place in the source at which its bytes begin.
    pub start: u64,
    /// How many bytes these are.
    pub len: u64,
}

/// Whether a part has more bytes than its volume holds. If its record breaks a rule, nothing is said.
pub fn is_long(geometry: &Geometry, part: &Part) -> bool
    ensures { result ≡ is_long_part geometry.now part.now }
{
    if rec_fault(geometry, &part.entry).is_some() {
        return false;
    }
    let most = u64::from(part.entry.reserved) * u64::from(part.entry.usable(geometry));
    part.len > most
}

/// How many pieces the bytes of a part have.
pub fn piece_count(geometry: &Geometry, part: &Part) -> u32
    requires sound { rec_fault geometry.now part.now.entry ≡ None }
    requires fits { part.now.len ≤ part.now.entry.reserved * usable geometry.now part.now.entry }
    ensures value { result ≡ pieces_of geometry.now part.now }
    ensures most { result ≤ part.now.entry.reserved }
{
    part.len.div_ceil(u64::from(part.entry.usable(geometry))) as u32
}

/// The piece of a part at `lnum`.
pub fn piece_of(geometry: &Geometry, part: &Part, lnum: u32) -> Piece
    requires sound { rec_fault geometry.now part.now.entry ≡ None }
    requires fits { part.now.len ≤ part.now.entry.reserved * usable geometry.now part.now.entry }
    requires inside { lnum < pieces_of geometry.now part.now }
    requires narrow { part.now.start + part.now.len < 2 ^ 64 }
    ensures { result ≡ built_piece geometry.now part.now lnum }
{
    let (id, data_pad) = (part.id, part.entry.data_pad(geometry));
    let (lebs, size) = (piece_count(geometry, part), part.entry.usable(geometry));
    let len = share_len(size, part.len, lnum);
    let header = match part.entry.kind {
        VolKind::Static => piece_header(data_pad, id, lebs, lnum, len, 0),
        VolKind::Dynamic => VidHeader::plain(VolKind::Dynamic, 0, data_pad, id, lnum),
    };
    Piece {
        header,
        origin: Origin::Bytes(part.start + u64::from(lnum) * u64::from(size)),
        len,
    }
}
