//! The logical eraseblocks that new volumes are written to.

ghost use Rattle.std.specs.List.{AllByRecursion, cons_option};
ghost use Rattle.std.specs.Prelude.{◌≡◌, ◌++◌, [], IfErr, IfOk, IfSome, OnOk, Some, length, true};
ghost use Rattle.ubi_change.specs.Laying.{after_contents, all_layings, laying_of, layings_of};
ghost use Rattle.ubi_change.specs.UpdatePlan.{contents_after_update};
ghost use Rattle.ubi_change.specs.inner.Laying.{IsContentsError, IsLastPage, IsPartReadable, IsPartUnread, IsPieceUnread, contents_error, full_laying};
ghost use Rattle.ubi_change.specs.Laying.{IsReadOfPiece};
ghost use Rattle.ubi_laid.specs.Pieces.{IsInBuffer, LiesIn};
ghost use Rattle.ubi_scan.specs.Source.{Narrows, WhereHeld};

use crate::errors::{ContentsError, UpdateError, UpdateRefusal};
use crate::trim::{pages_needed, whole_text};
use std::alloc::{AllocError, Global};
use ubi_laid::{Origin, Part, Piece, fetch, is_left_out, piece_count, piece_of};
use ubi_media::{Geometry, is_blank};
use ubi_scan::BlockSource;

/// A logical eraseblock that is written.
#[derive(Clone, Copy)]
pub struct Laying {
    /// Its header, and where its bytes lie.
    pub piece: Piece,
    /// How many pages of it are programmed.
    pub pages: u32,
}

/// Reads a piece of contents to where the data of an eraseblock begin. The buffer has the size of an eraseblock, here and below.
///
/// # Errors
///
/// `Read` if the read failed.
pub fn read_piece<T: BlockSource>(
    geometry: &Geometry,
    piece: &Piece,
    contents: &mut T,
    buffer: &mut [u8],
) -> Result<(), ContentsError>
    requires lies { LiesIn geometry.now (T.known contents.old).size piece.now }
    requires room { length buffer.old ≡ geometry.now.peb_size }
    ensures known { T.known contents.new ≡ after_contents (T.known contents.old) result }
    ensures narrows { Narrows (T.agrees contents.old) (T.agrees contents.new) }
    ensures held { IfOk result (λ _. WhereHeld (T.agrees contents.new) (IsInBuffer geometry.now piece.now.origin piece.now.len buffer.new)) }
    ensures refused { IfErr result (IsReadOfPiece geometry.now piece.now (T.failed_at contents.new)) }
{
    match fetch(geometry, piece, contents, buffer) {
        Ok(()) => Ok(()),
        Err(_) => Err(ContentsError::Read(piece.number())),
    }
}

/// The bytes that a piece has in its last page, as a piece. `None` if it has no bytes, or none at a place of their own.
fn last_page(geometry: &Geometry, piece: &Piece) -> Option<Piece>
    ensures { IfSome result (IsLastPage geometry.now piece.now) }
{
    let Origin::Bytes(start) = piece.origin else {
        return None;
    };
    let page = geometry.page();
    let before = piece.len.checked_sub(1)? / page * page;
    Some(Piece {
        header: piece.header,
        origin: Origin::Bytes(start.checked_add(u64::from(before))?),
        len: piece.len - before,
    })
}

/// Whether the last page of a piece has a byte that isn't 0xFF: then all its pages are programmed. No other page is read.
///
/// # Errors
///
/// `Read` if the read failed.
fn is_full<T: BlockSource>(
    geometry: &Geometry,
    piece: &Piece,
    contents: &mut T,
    buffer: &mut [u8],
) -> Result<bool, ContentsError>
    requires lies { LiesIn geometry.now (T.known contents.old).size piece.now }
    requires room { length buffer.old ≡ geometry.now.peb_size }
    ensures known { T.known contents.new ≡ after_contents (T.known contents.old) result }
    ensures narrows { Narrows (T.agrees contents.old) (T.agrees contents.new) }
    ensures full { IfOk result (λ full. full ≡ true → WhereHeld (T.agrees contents.new) (λ bytes. laying_of geometry.now bytes piece.now ≡ Some (full_laying geometry.now piece.now))) }
    ensures refused { IfErr result (IsPieceUnread piece.now (T.failed_at contents.new)) }
{
    let Some(last) = last_page(geometry, piece) else {
        return Ok(false);
    };
    read_piece(geometry, &last, contents, buffer)?;
    let data = geometry.data_offset() as usize;
    Ok(!is_blank(&buffer[data..data + last.len as usize]))
}

/// What is written of a piece. `None` if it is left out.
///
/// # Errors
///
/// `Read` if the read failed.
fn laying_of<T: BlockSource>(
    geometry: &Geometry,
    piece: &Piece,
    contents: &mut T,
    buffer: &mut [u8],
) -> Result<Option<Laying>, ContentsError>
    requires lies { LiesIn geometry.now (T.known contents.old).size piece.now }
    requires room { length buffer.old ≡ geometry.now.peb_size }
    ensures known { T.known contents.new ≡ after_contents (T.known contents.old) result }
    ensures narrows { Narrows (T.agrees contents.old) (T.agrees contents.new) }
    ensures laying { IfOk result (λ laying. WhereHeld (T.agrees contents.new) (λ bytes. laying ≡ laying_of geometry.now bytes piece.now)) }
    ensures piece { IfOk result (λ laying. IfSome laying (λ l. l.piece ≡ piece.now)) }
    ensures refused { IfErr result (IsPieceUnread piece.now (T.failed_at contents.new)) }
{
    if is_full(geometry, piece, contents, buffer)? {
        return Ok(Some(Laying {
            piece: *piece,
            pages: piece.len.div_ceil(geometry.page()),
        }));
    }
    read_piece(geometry, piece, contents, buffer)?;
    if is_left_out(geometry, piece, buffer) {
        return Ok(None);
    }
    let text = whole_text(geometry, piece.len, buffer);
    Ok(Some(Laying {
        piece: *piece,
        pages: pages_needed(geometry, text),
    }))
}

/// Adds what is written of a piece.
///
/// # Errors
///
/// Memory ran out.
fn add(layings: &mut Vec<Laying>, laying: Option<Laying>) -> Result<(), AllocError>
    ensures { OnOk result (layings.new.items ≡ layings.old.items ++ cons_option laying []) }
{
    if let Some(laying) = laying {
        layings.push(laying)?;
    }
    Ok(())
}

/// Adds what is written of a part.
///
/// # Errors
///
/// `Read` if a read failed. `Memory` if memory ran out.
fn add_part<T: BlockSource>(
    geometry: &Geometry,
    part: &Part,
    contents: &mut T,
    buffer: &mut [u8],
    layings: &mut Vec<Laying>,
) -> Result<(), ContentsError>
    requires part { IsPartReadable geometry.now (T.known contents.old).size part.now }
    requires room { length buffer.old ≡ geometry.now.peb_size }
    requires lie { AllByRecursion (λ l. LiesIn geometry.now (T.known contents.old).size l.piece) layings.old.items }
    ensures known { T.known contents.new ≡ after_contents (T.known contents.old) result }
    ensures narrows { Narrows (T.agrees contents.old) (T.agrees contents.new) }
    ensures added { OnOk result (WhereHeld (T.agrees contents.new) (λ bytes. layings.new.items ≡ layings.old.items ++ layings_of geometry.now bytes part.now)) }
    ensures lie { OnOk result (AllByRecursion (λ l. LiesIn geometry.now (T.known contents.old).size l.piece) layings.new.items) }
    ensures refused { IfErr result (IsPartUnread part.now (T.failed_at contents.new)) }
{
    for lnum in 0..piece_count(geometry, part) {
        let piece = piece_of(geometry, part, lnum);
        let laying = laying_of(geometry, &piece, contents, buffer)?;
        add(layings, laying)?;
    }
    Ok(())
}

/// What an error of contents says about a plan, if one of the volumes that are written was read, counted from 0.
pub fn contents_error(i: usize, error: ContentsError) -> UpdateError
    ensures { result ≡ contents_error i error }
{
    match error {
        ContentsError::Read(_) => UpdateError::Contents(i),
        ContentsError::Memory => UpdateError::Refused(UpdateRefusal::Memory),
    }
}

/// What is written of parts.
///
/// # Errors
///
/// `Contents` if a read failed, or `Memory` if memory ran out.
pub fn layings_from<T: BlockSource>(
    alloc: Global,
    geometry: &Geometry,
    parts: &[Part],
    contents: &mut T,
    buffer: &mut [u8],
) -> Result<Vec<Laying>, UpdateError>
    requires parts { AllByRecursion (IsPartReadable geometry.now (T.known contents.old).size) parts.now }
    requires room { length buffer.old ≡ geometry.now.peb_size }
    ensures known { T.known contents.new ≡ contents_after_update (T.known contents.old) result }
    ensures narrows { Narrows (T.agrees contents.old) (T.agrees contents.new) }
    ensures layings { IfOk result (λ layings. WhereHeld (T.agrees contents.new) (λ bytes. layings.items ≡ all_layings geometry.now bytes parts.now)) }
    ensures lie { IfOk result (λ layings. AllByRecursion (λ l. LiesIn geometry.now (T.known contents.old).size l.piece) layings.items) }
    ensures refused { IfErr result (IsContentsError parts.now (T.failed_at contents.new)) }
{
    let mut layings = Vec::new(alloc);
    for i in 0..parts.len() {
        match add_part(geometry, &parts[i], contents, buffer, &mut layings) {
            Ok(()) => {}
            Err(error) => return Err(contents_error(i, error)),
        }
    }
    Ok(layings)
}
