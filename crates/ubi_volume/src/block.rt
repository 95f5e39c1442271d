//! What a logical eraseblock holds, read at the place of its eraseblock.

ghost use Rattle.std.specs.FinMap as finite;
ghost use Rattle.std.specs.Prelude.{◌≡◌, ◌≢◌, ◌+◌, ◌<◌, ◌≤◌, IfErr, IfOk, IfSome, IsTrue, OnOk, Some, if◌then◌else◌, length, not, slice_range, ℕ, IsSome, None};
ghost use Rattle.ubi_media.specs.Fields.{blank, is_blank};
ghost use Rattle.ubi_media.specs.Geometry.{leb_size};
ghost use Rattle.ubi_media.specs.Record.{rec_fault};
ghost use Rattle.ubi_scan.specs.Image.{block};
ghost use Rattle.ubi_scan.specs.Source.{Narrows, WhereHeld, blocks_in, blocks_of};
ghost use Rattle.ubi_scan.specs.Stream.{IsReadFault, NamesBlock, after};
ghost use Rattle.ubi_volume.specs.Amounts.{AmountIs};
ghost use Rattle.ubi_volume.specs.Extract.{leb_bytes};
ghost use Rattle.ubi_volume.specs.Places.{ArePlaces, ArePlacesOf};
ghost use Rattle.ubi_volume.specs.inner.Gathered.{AreKeptLebs};

use crate::places::{PlaceContent, Places};
use ubi_media::{Geometry, VolumeRecord, is_blank};
use ubi_scan::{BlockSource, StreamError, read_leb, read_part};

/// The bytes that are looked at first: if there is anything but 0xFF, there is most often some among them.
const FRONT: usize = 4096;

/// Fills `out` with the first bytes of a logical eraseblock, by its place ([`crate::Places::place`]), or with 0xFF if it
/// has none.
///
/// # Errors
///
/// `Read` if the read failed, with the count 0.
pub fn read_place<S: BlockSource>(
    geometry: &Geometry,
    source: &mut S,
    place: Option<u32>,
    out: &mut [u8],
) -> Result<(), StreamError>
    requires block { IfSome place (λ p. p < blocks_in geometry.now (S.known source.old)) }
    requires part { length out.old ≤ leb_size geometry.now }
    ensures known { S.known source.new ≡ after (S.known source.old) result }
    ensures narrows { Narrows (S.agrees source.old) (S.agrees source.new) }
    ensures bytes { OnOk result (WhereHeld (S.agrees source.new) (λ bytes. out.new ≡ leb_bytes geometry.now (length out.old) place bytes)) }
    ensures failed { IfErr result (IsReadFault (blocks_in geometry.now (S.known source.old))) }
    ensures names { IfErr result (λ e. (p : ℕ) × (place ≡ Some p) × (e ≡ StreamError.Read p 0)) }
    ensures named { IfErr result (NamesBlock geometry.now (S.failed_at source.new)) }
{
    match place {
        Some(p) => read_leb(source, geometry, p, out),
        None => {
            out.fill(0xFF);
            Ok(())
        }
    }
}

/// Reads the first bytes of a logical eraseblock into `text`, by its place: whether it has a place, and the bytes
/// aren't 0xFF throughout. If so, `text` holds them.
///
/// # Errors
///
/// `Read` if the read failed, with the count 0.
pub fn is_kept<S: BlockSource>(
    geometry: &Geometry,
    source: &mut S,
    place: Option<u32>,
    text: &mut [u8],
) -> Result<bool, StreamError>
    requires block { IfSome place (λ p. p < blocks_in geometry.now (S.known source.old)) }
    requires part { length text.old ≤ leb_size geometry.now }
    ensures known { S.known source.new ≡ after (S.known source.old) result }
    ensures narrows { Narrows (S.agrees source.old) (S.agrees source.new) }
    ensures reads { IfOk result (λ kept. WhereHeld (S.agrees source.new) (λ bytes. leb_bytes geometry.now (length text.old) place bytes ≡ (if kept then text.new else blank (length text.old)))) }
    ensures some { IfOk result (λ kept. IsTrue kept → text.new ≢ blank (length text.old)) }
    ensures failed { IfErr result (IsReadFault (blocks_in geometry.now (S.known source.old))) }
    ensures names { IfErr result (λ e. (p : ℕ) × (place ≡ Some p) × (e ≡ StreamError.Read p 0)) }
    ensures named { IfErr result (NamesBlock geometry.now (S.failed_at source.new)) }
{
    if place.is_none() {
        return Ok(false);
    }
    read_place(geometry, source, place, text)?;
    Ok(!is_blank(text))
}

/// Whether the bytes of an eraseblock from its byte `start` on, as many as the buffer has, are 0xFF throughout. The rest is
/// read only if the first 4,096 are.
///
/// # Errors
///
/// `Read` if a read failed, with the count 0.
pub fn is_blank_part<S: BlockSource>(
    source: &mut S,
    geometry: &Geometry,
    p: u32,
    start: u32,
    buffer: &mut [u8],
) -> Result<bool, StreamError>
    requires block { p < blocks_in geometry.now (S.known source.old) }
    requires part { start + length buffer.old ≤ geometry.now.peb_size }
    ensures known { S.known source.new ≡ after (S.known source.old) result }
    ensures narrows { Narrows (S.agrees source.old) (S.agrees source.new) }
    ensures blank { IfOk result (λ b. WhereHeld (S.agrees source.new) (λ bytes. b ≡ is_blank (slice_range (block (blocks_of geometry.now bytes) p) start (start + length buffer.old)))) }
    ensures failed { IfErr result (IsReadFault (blocks_in geometry.now (S.known source.old))) }
    ensures names { IfErr result (λ e. e ≡ StreamError.Read p 0) }
    ensures named { start < geometry.now.peb_size → IfErr result (NamesBlock geometry.now (S.failed_at source.new)) }
{
    let front = buffer.len().min(FRONT);
    let (first, rest) = buffer.split_at_mut(front);
    read_part(source, geometry, p, start, first)?;
    if !is_blank(first) {
        return Ok(false);
    }
    if rest.is_empty() {
        return Ok(true);
    }
    prove!(start as usize + front <= geometry.peb_size() as usize);
    read_part(source, geometry, p, start + front as u32, rest)?;
    Ok(is_blank(rest))
}

/// Whether a logical eraseblock has a place, and its first bytes, as many as the buffer has, aren't 0xFF throughout.
///
/// # Errors
///
/// `Read` if a read failed, with the count 0.
fn holds_bytes<S: BlockSource>(
    geometry: &Geometry,
    source: &mut S,
    place: Option<u32>,
    buffer: &mut [u8],
) -> Result<bool, StreamError>
    requires block { IfSome place (λ p. p < blocks_in geometry.now (S.known source.old)) }
    requires part { length buffer.old ≤ leb_size geometry.now }
    ensures known { S.known source.new ≡ after (S.known source.old) result }
    ensures narrows { Narrows (S.agrees source.old) (S.agrees source.new) }
    ensures long { IfOk result (λ _. WhereHeld (S.agrees source.new) (λ bytes. length (leb_bytes geometry.now (length buffer.old) place bytes) ≡ length buffer.old)) }
    ensures holds { IfOk result (λ holds. WhereHeld (S.agrees source.new) (λ bytes. holds ≡ not (is_blank (leb_bytes geometry.now (length buffer.old) place bytes)))) }
    ensures failed { IfErr result (IsReadFault (blocks_in geometry.now (S.known source.old))) }
    ensures names { IfErr result (λ e. (p : ℕ) × (place ≡ Some p) × (e ≡ StreamError.Read p 0)) }
    ensures named { IfErr result (NamesBlock geometry.now (S.failed_at source.new)) }
{
    let Some(p) = place else {
        return Ok(false);
    };
    prove!(geometry.data_offset() <= geometry.peb_size());
    let blank = is_blank_part(source, geometry, p, geometry.data_offset(), buffer)?;
    Ok(!blank)
}

/// How much a volume reads, or why it can't be read.
#[derive(Clone, Copy, Debug, PartialEq, Eq)]
pub enum Amount {
    /// An update of the volume began and didn't end: it can't be read.
    Updating,
    /// A static volume that isn't whole: it can't be read.
    Damaged,
    /// The size of the contents of a static volume, in bytes.
    Bytes(u64),
    /// How many logical eraseblocks of a dynamic volume aren't 0xFF throughout.
    Lebs(u32),
}

/// How many logical eraseblocks of a dynamic volume have a place and aren't 0xFF throughout there. The buffer has
/// the size of an eraseblock, here and below.
fn count_kept<S: BlockSource>(
    geometry: &Geometry,
    source: &mut S,
    places: &Places,
    id: u32,
    entry: &VolumeRecord,
    buffer: &mut [u8],
) -> Result<u32, StreamError>
    requires places { ArePlacesOf geometry.now (S.known source.old) (S.agrees source.old) places.now }
    requires sound { rec_fault geometry.now entry.now ≡ None }
    requires room { length buffer.old ≡ geometry.now.peb_size }
    ensures known { S.known source.new ≡ after (S.known source.old) result }
    ensures narrows { Narrows (S.agrees source.old) (S.agrees source.new) }
    ensures count { IfOk result (λ count. WhereHeld (S.agrees source.new) (λ bytes. AreKeptLebs geometry.now (blocks_of geometry.now bytes) id entry.now entry.now.reserved count)) }
    ensures failed { IfErr result (IsReadFault (blocks_in geometry.now (S.known source.old))) }
    ensures named { IfErr result (NamesBlock geometry.now (S.failed_at source.new)) }
{
    let text = &mut buffer[..entry.usable(geometry) as usize];
    let mut count = 0;
    for lnum in 0..entry.reserved {
        if holds_bytes(geometry, source, places.place(id, lnum), text)? {
            count += 1;
        }
    }
    Ok(count)
}

/// How much a volume of the table reads, or why it can't be read. The places are those that were found in the source.
/// Each logical eraseblock of a dynamic volume is read once; for other volumes nothing is read.
///
/// # Errors
///
/// `Read` if a read failed, with the count 0.
pub fn amount_of<S: BlockSource>(
    geometry: &Geometry,
    source: &mut S,
    places: &Places,
    id: u32,
    entry: &VolumeRecord,
    buffer: &mut [u8],
) -> Result<Amount, StreamError>
    requires places { ArePlacesOf geometry.now (S.known source.old) (S.agrees source.old) places.now }
    requires recorded { finite.get places.now.records.of id ≡ Some entry.now }
    requires sound { rec_fault geometry.now entry.now ≡ None }
    requires room { length buffer.old ≡ geometry.now.peb_size }
    ensures known { S.known source.new ≡ after (S.known source.old) result }
    ensures narrows { Narrows (S.agrees source.old) (S.agrees source.new) }
    ensures amount { IfOk result (λ amount. WhereHeld (S.agrees source.new) (λ bytes. AmountIs geometry.now places.now id bytes amount)) }
    ensures failed { IfErr result (IsReadFault (blocks_in geometry.now (S.known source.old))) }
    ensures named { IfErr result (NamesBlock geometry.now (S.failed_at source.new)) }
{
    match places.content(id) {
        PlaceContent::Updating => Ok(Amount::Updating),
        PlaceContent::Damaged => Ok(Amount::Damaged),
        PlaceContent::Static { bytes, .. } => Ok(Amount::Bytes(bytes)),
        PlaceContent::Dynamic => {
            let count = count_kept(geometry, source, places, id, entry, buffer)?;
            Ok(Amount::Lebs(count))
        }
    }
}
