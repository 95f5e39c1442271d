//! What the volumes of an image read, without their bytes. The CRCs of static volumes are checked.

ghost use Rattle.std.specs.FinMap as finite;
ghost use Rattle.std.specs.Prelude.{◌≡◌, ◌↔◌, ◌≤◌, IfErr, IfOk, IfSome, IsSome, IsTrue, Some, None, false, length, option_map, take};
ghost use Rattle.ubi_media.specs.Geometry.{leb_size};
ghost use Rattle.ubi_media.specs.Record.{rec_fault};
ghost use Rattle.ubi_media.specs.declared.vid.VolKind.TheVariants.{Static};
ghost use Rattle.ubi_scan.specs.Image.{image_of};
ghost use Rattle.ubi_scan.specs.Source.{Narrows, WhereHeld, blocks_in, blocks_of};
ghost use Rattle.ubi_scan.specs.Stream.{IsReadFailure, IsReadFault, IsScanOf, NamesBlock, after};
ghost use Rattle.ubi_volume.specs.Accepts.{NoMismatch};
ghost use Rattle.ubi_volume.specs.Places.{CaseFits};
ghost use Rattle.ubi_volume.specs.Survey.{IsSurveyOf, TellsCase};
ghost use Rattle.ubi_volume.specs.Texts.{PieceIs, RawIs, TextLebs, UsedIs};
ghost use Rattle.ubi_volume.specs.inner.Cases.{AreCases, AreNumbered, CaseIs, PieceSizeIs};
ghost use Rattle.ubi_volume.specs.inner.Surveying.{AreChecked};

use crate::places::PlaceContent;
use crate::surveyed::Surveyed;
use std::alloc::{AllocError, Global};
use ubi_media::{Geometry, VolKind, VolumeRecord, crc};
use ubi_scan::{BlockSource, Scan, StreamError, read_leb, read_member};
use ubi_table::Table;

/// How many logical eraseblocks a volume uses, by its first winner. 0 if it has none. The buffer has the size of an
/// eraseblock, here and below.
fn used_ebs<S: BlockSource>(
    geometry: &Geometry,
    source: &mut S,
    scan: &Scan,
    id: u32,
    buffer: &mut [u8],
) -> Result<u32, StreamError>
    requires scan { IsScanOf geometry.now (S.known source.old) (S.agrees source.old) scan.now }
    requires room { length buffer.old ≡ geometry.now.peb_size }
    ensures known { S.known source.new ≡ after (S.known source.old) result }
    ensures narrows { Narrows (S.agrees source.old) (S.agrees source.new) }
    ensures used { IfOk result (λ used. WhereHeld (S.agrees source.new) (λ bytes. UsedIs geometry.now (blocks_of geometry.now bytes) id used)) }
    ensures failed { IfErr result (IsReadFault (blocks_in geometry.now (S.known source.old))) }
    ensures named { IfErr result (NamesBlock geometry.now (S.failed_at source.new)) }
{
    match scan.next_winner(id, 0) {
        Some((_, p)) => match read_member(source, geometry, p, buffer)? {
            Some(header) => Ok(header.used_ebs),
            None => Ok(0),
        },
        None => Ok(0),
    }
}

/// A piece of a static volume's contents as its eraseblock holds it, unchecked.
#[derive(Clone, Copy)]
pub struct RawPiece {
    /// Its size in bytes.
    pub size: u32,
    /// The CRC that its header names (`data_crc` of `struct ubi_vid_hdr`).
    pub data_crc: u32,
}

/// The piece that the winner of a logical eraseblock holds of contents of `used` of them, unchecked. `None` if there is no winner, or
/// its header says that the volume uses another number. Otherwise the buffer begins with the piece.
fn raw_piece<S: BlockSource>(
    geometry: &Geometry,
    source: &mut S,
    scan: &Scan,
    id: u32,
    used: u32,
    lnum: u32,
    buffer: &mut [u8],
) -> Result<Option<RawPiece>, StreamError>
    requires scan { IsScanOf geometry.now (S.known source.old) (S.agrees source.old) scan.now }
    requires room { length buffer.old ≡ geometry.now.peb_size }
    ensures known { S.known source.new ≡ after (S.known source.old) result }
    ensures narrows { Narrows (S.agrees source.old) (S.agrees source.new) }
    ensures won { IfOk result (λ raw. IsSome raw → IsSome (finite.get scan.now.winners (id, lnum))) }
    ensures held { IfOk result (λ raw. WhereHeld (S.agrees source.new) (λ bytes. RawIs geometry.now (blocks_of geometry.now bytes) id used lnum (option_map (λ r. (take r.size buffer.new, r.data_crc)) raw))) }
    ensures fits { IfOk result (λ raw. IfSome raw (λ r. r.size ≤ leb_size geometry.now)) }
    ensures failed { IfErr result (IsReadFault (blocks_in geometry.now (S.known source.old))) }
    ensures named { IfErr result (NamesBlock geometry.now (S.failed_at source.new)) }
{
    let Some(p) = scan.winner(id, lnum) else {
        return Ok(None);
    };
    let Some(header) = read_member(source, geometry, p, buffer)? else {
        return Ok(None);
    };
    let size = header.data_size.min(geometry.leb_size());
    prove!(geometry.data_offset() <= geometry.peb_size());
    let text = &mut buffer[..size as usize];
    read_leb(source, geometry, p, text)?;
    if header.used_ebs == used {
        let data_crc = header.data_crc;
        Ok(Some(RawPiece { size, data_crc }))
    } else {
        Ok(None)
    }
}

/// The size in bytes of the piece that the winner of a logical eraseblock holds of contents of `used` of them. `None` if there is
/// no winner, if its header says that the volume uses another number, or if its data have another CRC. Otherwise the buffer
/// begins with the piece.
fn piece_size<S: BlockSource>(
    geometry: &Geometry,
    source: &mut S,
    scan: &Scan,
    id: u32,
    used: u32,
    lnum: u32,
    buffer: &mut [u8],
) -> Result<Option<u32>, StreamError>
    requires scan { IsScanOf geometry.now (S.known source.old) (S.agrees source.old) scan.now }
    requires room { length buffer.old ≡ geometry.now.peb_size }
    ensures known { S.known source.new ≡ after (S.known source.old) result }
    ensures narrows { Narrows (S.agrees source.old) (S.agrees source.new) }
    ensures won { IfOk result (λ size. IsSome size → IsSome (finite.get scan.now.winners (id, lnum))) }
    ensures piece { IfOk result (λ size. WhereHeld (S.agrees source.new) (λ bytes. PieceSizeIs geometry.now (blocks_of geometry.now bytes) id used lnum size)) }
    ensures held { IfOk result (λ size. WhereHeld (S.agrees source.new) (λ bytes. PieceIs geometry.now (blocks_of geometry.now bytes) id used lnum (option_map (λ n. take n buffer.new) size))) }
    ensures fits { IfOk result (λ size. IfSome size (λ n. n ≤ leb_size geometry.now)) }
    ensures failed { IfErr result (IsReadFault (blocks_in geometry.now (S.known source.old))) }
    ensures named { IfErr result (NamesBlock geometry.now (S.failed_at source.new)) }
{
    let Some(raw) = raw_piece(geometry, source, scan, id, used, lnum, buffer)? else {
        return Ok(None);
    };
    prove!(geometry.data_offset() <= geometry.peb_size());
    let check = crc(&buffer[..raw.size as usize]);
    if check == raw.data_crc {
        Ok(Some(raw.size))
    } else {
        Ok(None)
    }
}

/// How many logical eraseblocks hold the contents of a static volume without the update marker, if all pieces are there. `None` if the
/// contents aren't whole: the first winner says that the volume uses more than it reserves, or there is a winner after them.
fn text_lebs<S: BlockSource>(
    geometry: &Geometry,
    source: &mut S,
    scan: &Scan,
    id: u32,
    entry: &VolumeRecord,
    buffer: &mut [u8],
) -> Result<Option<u32>, StreamError>
    requires scan { IsScanOf geometry.now (S.known source.old) (S.agrees source.old) scan.now }
    requires room { length buffer.old ≡ geometry.now.peb_size }
    ensures known { S.known source.new ≡ after (S.known source.old) result }
    ensures narrows { Narrows (S.agrees source.old) (S.agrees source.new) }
    ensures lebs { IfOk result (λ lebs. WhereHeld (S.agrees source.new) (λ bytes. TextLebs geometry.now (blocks_of geometry.now bytes) id entry.now lebs)) }
    ensures few { IfOk result (λ lebs. IfSome lebs (λ n. n ≤ entry.now.reserved)) }
    ensures failed { IfErr result (IsReadFault (blocks_in geometry.now (S.known source.old))) }
    ensures named { IfErr result (NamesBlock geometry.now (S.failed_at source.new)) }
{
    let used = used_ebs(geometry, source, scan, id, buffer)?;
    if used > entry.reserved {
        return Ok(None);
    }
    if scan.next_winner(id, used).is_some() {
        return Ok(None);
    }
    Ok(Some(used))
}

/// What a static volume without the update marker reads: no bytes if it has no winner, its contents if its winners
/// hold all of them; otherwise it is damaged.
fn static_case<S: BlockSource>(
    geometry: &Geometry,
    source: &mut S,
    scan: &Scan,
    table: &Table,
    id: u32,
    entry: &VolumeRecord,
    buffer: &mut [u8],
) -> Result<PlaceContent, StreamError>
    requires scan { IsScanOf geometry.now (S.known source.old) (S.agrees source.old) scan.now }
    requires alike { WhereHeld (S.agrees source.old) (λ bytes. NoMismatch geometry.now (blocks_of geometry.now bytes) table.now) }
    requires recorded { finite.get table.now.of id ≡ Some entry.now }
    requires sound { rec_fault geometry.now entry.now ≡ None }
    requires unmarked { entry.now.marker ≡ false }
    requires kind { entry.now.kind ≡ Static }
    requires room { length buffer.old ≡ geometry.now.peb_size }
    ensures known { S.known source.new ≡ after (S.known source.old) result }
    ensures narrows { Narrows (S.agrees source.old) (S.agrees source.new) }
    ensures case { IfOk result (λ case. WhereHeld (S.agrees source.new) (λ bytes. CaseIs geometry.now (blocks_of geometry.now bytes) id entry.now case)) }
    ensures fits { IfOk result (CaseFits scan.now.winners id entry.now) }
    ensures failed { IfErr result (IsReadFault (blocks_in geometry.now (S.known source.old))) }
    ensures named { IfErr result (NamesBlock geometry.now (S.failed_at source.new)) }
{
    let Some(used) = text_lebs(geometry, source, scan, id, entry, buffer)? else {
        return Ok(PlaceContent::Damaged);
    };
    let mut bytes = 0;
    for lnum in 0..used {
        match piece_size(geometry, source, scan, id, used, lnum, buffer)? {
            Some(size) => bytes += u64::from(size),
            None => return Ok(PlaceContent::Damaged),
        }
    }
    Ok(PlaceContent::Static { lebs: used, bytes })
}

/// What a volume of the table reads.
fn case_of<S: BlockSource>(
    geometry: &Geometry,
    source: &mut S,
    scan: &Scan,
    table: &Table,
    id: u32,
    entry: &VolumeRecord,
    buffer: &mut [u8],
) -> Result<PlaceContent, StreamError>
    requires scan { IsScanOf geometry.now (S.known source.old) (S.agrees source.old) scan.now }
    requires alike { WhereHeld (S.agrees source.old) (λ bytes. NoMismatch geometry.now (blocks_of geometry.now bytes) table.now) }
    requires recorded { finite.get table.now.of id ≡ Some entry.now }
    requires sound { rec_fault geometry.now entry.now ≡ None }
    requires room { length buffer.old ≡ geometry.now.peb_size }
    ensures known { S.known source.new ≡ after (S.known source.old) result }
    ensures narrows { Narrows (S.agrees source.old) (S.agrees source.new) }
    ensures case { IfOk result (λ case. WhereHeld (S.agrees source.new) (λ bytes. CaseIs geometry.now (blocks_of geometry.now bytes) id entry.now case)) }
    ensures fits { IfOk result (CaseFits scan.now.winners id entry.now) }
    ensures failed { IfErr result (IsReadFault (blocks_in geometry.now (S.known source.old))) }
    ensures named { IfErr result (NamesBlock geometry.now (S.failed_at source.new)) }
{
    if entry.marker {
        return Ok(PlaceContent::Updating);
    }
    match entry.kind {
        VolKind::Dynamic => Ok(PlaceContent::Dynamic),
        VolKind::Static => static_case(geometry, source, scan, table, id, entry, buffer),
    }
}

/// What each volume of the table reads.
///
/// # Errors
///
/// `Read` if a read failed. `Memory` if memory ran out.
pub fn cases_from<S: BlockSource>(
    alloc: Global,
    geometry: &Geometry,
    source: &mut S,
    scan: &Scan,
    table: &Table,
    buffer: &mut [u8],
) -> Result<Vec<(u32, PlaceContent)>, StreamError>
    requires checked { AreChecked geometry.now (S.known source.old) (S.agrees source.old) scan.now table.now }
    requires room { length buffer.old ≡ geometry.now.peb_size }
    ensures known { S.known source.new ≡ after (S.known source.old) result }
    ensures narrows { Narrows (S.agrees source.old) (S.agrees source.new) }
    ensures numbered { IfOk result (λ cases. AreNumbered scan.now.winners (finite.entries table.now.of) cases.items) }
    ensures cases { IfOk result (λ cases. WhereHeld (S.agrees source.new) (λ bytes. AreCases geometry.now (blocks_of geometry.now bytes) (finite.entries table.now.of) cases.items)) }
    ensures failed { IfErr result (IsReadFailure (blocks_in geometry.now (S.known source.old))) }
    ensures named { IfErr result (NamesBlock geometry.now (S.failed_at source.new)) }
{
    let mut cases = Vec::new(alloc);
    for listed in table.entries() {
        let (id, entry) = *listed;
        let case = case_of(geometry, source, scan, table, id, &entry, buffer)?;
        match cases.push((id, case)) {
            Ok(()) => {}
            Err(full) => return Err(AllocError::from(full).into()),
        }
    }
    Ok(cases)
}

/// What a volume of a surveyed source reads, without its bytes. Only its record is known of the volume; the CRCs of a static one are
/// checked. The buffer has the size of an eraseblock.
///
/// # Errors
///
/// `Read` if a read failed.
pub fn case_from<S: BlockSource>(
    geometry: &Geometry,
    source: &mut S,
    survey: &Surveyed,
    id: u32,
    entry: &VolumeRecord,
    buffer: &mut [u8],
) -> Result<PlaceContent, StreamError>
    requires survey { IsSurveyOf geometry.now (S.known source.old) (S.agrees source.old) survey.now }
    requires recorded { finite.get survey.now.records.of id ≡ Some entry.now }
    requires sound { rec_fault geometry.now entry.now ≡ None }
    requires room { length buffer.old ≡ geometry.now.peb_size }
    ensures known { S.known source.new ≡ after (S.known source.old) result }
    ensures narrows { Narrows (S.agrees source.old) (S.agrees source.new) }
    ensures case { IfOk result (λ case. WhereHeld (S.agrees source.new) (λ bytes. TellsCase (image_of geometry.now bytes) survey.now id case)) }
    ensures failed { IfErr result (IsReadFault (blocks_in geometry.now (S.known source.old))) }
    ensures named { IfErr result (NamesBlock geometry.now (S.failed_at source.new)) }
{
    let (scan, table) = (survey.scan(), survey.table());
    case_of(geometry, source, scan, table, id, entry, buffer)
}

/// How many logical eraseblocks hold the contents of a static volume of a surveyed source, if all pieces are there. `None` if the
/// contents aren't whole. No piece is read. The buffer has the size of an eraseblock.
///
/// # Errors
///
/// `Read` if a read failed.
pub fn text_lebs_from<S: BlockSource>(
    geometry: &Geometry,
    source: &mut S,
    survey: &Surveyed,
    id: u32,
    entry: &VolumeRecord,
    buffer: &mut [u8],
) -> Result<Option<u32>, StreamError>
    requires survey { IsSurveyOf geometry.now (S.known source.old) (S.agrees source.old) survey.now }
    requires room { length buffer.old ≡ geometry.now.peb_size }
    ensures known { S.known source.new ≡ after (S.known source.old) result }
    ensures narrows { Narrows (S.agrees source.old) (S.agrees source.new) }
    ensures lebs { IfOk result (λ lebs. WhereHeld (S.agrees source.new) (λ bytes. TextLebs geometry.now (blocks_of geometry.now bytes) id entry.now lebs)) }
    ensures failed { IfErr result (IsReadFault (blocks_in geometry.now (S.known source.old))) }
    ensures named { IfErr result (NamesBlock geometry.now (S.failed_at source.new)) }
{
    text_lebs(geometry, source, survey.scan(), id, entry, buffer)
}

/// The size in bytes of a piece of the contents of a static volume of a surveyed source; the buffer then begins with the piece.
/// The contents take `used` logical eraseblocks, and the piece is in the one with this number. `None` if the piece isn't there:
/// then the contents aren't whole.
///
/// # Errors
///
/// `Read` if a read failed.
pub fn text_piece_from<S: BlockSource>(
    geometry: &Geometry,
    source: &mut S,
    survey: &Surveyed,
    id: u32,
    used: u32,
    lnum: u32,
    buffer: &mut [u8],
) -> Result<Option<u32>, StreamError>
    requires survey { IsSurveyOf geometry.now (S.known source.old) (S.agrees source.old) survey.now }
    requires room { length buffer.old ≡ geometry.now.peb_size }
    ensures known { S.known source.new ≡ after (S.known source.old) result }
    ensures narrows { Narrows (S.agrees source.old) (S.agrees source.new) }
    ensures held { IfOk result (λ size. WhereHeld (S.agrees source.new) (λ bytes. PieceIs geometry.now (blocks_of geometry.now bytes) id used lnum (option_map (λ n. take n buffer.new) size))) }
    ensures fits { IfOk result (λ size. IfSome size (λ n. n ≤ leb_size geometry.now)) }
    ensures failed { IfErr result (IsReadFault (blocks_in geometry.now (S.known source.old))) }
    ensures named { IfErr result (NamesBlock geometry.now (S.failed_at source.new)) }
{
    piece_size(geometry, source, survey.scan(), id, used, lnum, buffer)
}

/// The piece of the contents of a static volume of a surveyed source, as [`text_piece_from`] gives it, but unchecked: if its
/// bytes have another CRC than its header names, it isn't there.
///
/// # Errors
///
/// `Read` if a read failed.
pub fn raw_piece_from<S: BlockSource>(
    geometry: &Geometry,
    source: &mut S,
    survey: &Surveyed,
    id: u32,
    used: u32,
    lnum: u32,
    buffer: &mut [u8],
) -> Result<Option<RawPiece>, StreamError>
    requires survey { IsSurveyOf geometry.now (S.known source.old) (S.agrees source.old) survey.now }
    requires room { length buffer.old ≡ geometry.now.peb_size }
    ensures known { S.known source.new ≡ after (S.known source.old) result }
    ensures narrows { Narrows (S.agrees source.old) (S.agrees source.new) }
    ensures held { IfOk result (λ raw. WhereHeld (S.agrees source.new) (λ bytes. RawIs geometry.now (blocks_of geometry.now bytes) id used lnum (option_map (λ r. (take r.size buffer.new, r.data_crc)) raw))) }
    ensures fits { IfOk result (λ raw. IfSome raw (λ r. r.size ≤ leb_size geometry.now)) }
    ensures failed { IfErr result (IsReadFault (blocks_in geometry.now (S.known source.old))) }
    ensures named { IfErr result (NamesBlock geometry.now (S.failed_at source.new)) }
{
    raw_piece(geometry, source, survey.scan(), id, used, lnum, buffer)
}
