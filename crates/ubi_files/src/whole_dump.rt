//! Dumps that are read whole, since they can't be read at places.

ghost use Rattle.std.specs.Prelude.{◌≡◌, ◌*◌, ◌+◌, ◌++◌, ◌-◌, ◌/◌, ◌^◌, ◌≤◌, IfErr, IfOk, IfSome, None, Some, codes, drop, length, min, option_map, take, unwrap_or, ℕ, List};
ghost use Rattle.ubi_media.specs.Fields.{blank};
ghost use Rattle.ubi_media.specs.Limits.{first_broken};
ghost use Rattle.ubi_files.specs.Answer.{Gives, says};
ghost use Rattle.ubi_files.specs.BadBlocks.{masked};
ghost use Rattle.ubi_files.specs.Disk.{Files, IsJudgedOf};
ghost use Rattle.ubi_files.specs.Dump.{FitsWhole, as_read, seen};
ghost use Rattle.ubi_files.specs.Kept.{IsPartOf};
ghost use Rattle.ubi_files.specs.Lines.{misfit_line};
ghost use Rattle.ubi_files.specs.Numbers.{sizes_of};
ghost use Rattle.ubi_files.specs.OverFile.{IsRead, IsUnseen};
ghost use Rattle.ubi_files.specs.Told.{Tells};
ghost use Rattle.ubi_files.specs.Views.{pages_of};
ghost use Rattle.ubi_files.specs.inner.PartRead.{IsReadOf};

use crate::disk::{Disk, WholeFile};
use crate::image_file::{ImageFile, Unread, unread_file};
use crate::lines::misfit_line;
use crate::masked::mask;
use crate::open_image::Frame;
use crate::outcome::{FAILED, Outcome, ToolError};
use crate::pages::keep_pages;
use crate::read::{read_limited, skip_limited};
use crate::view::{FilePart, Misfit, misfit_of};
use std::alloc::{AllocError, Global};
use std::io::Read;
use ubi_media::Geometry;

/// What is answered for a file that can't be read as the words say: its line, or that memory ran out.
pub fn unseen(alloc: Global, misfit: Misfit) -> Unread
    ensures { Tells (λ o. Gives o (says (misfit_line misfit) 1)) result }
{
    match misfit_line(alloc, misfit) {
        Ok(line) => Unread::Told(Outcome::saying(line, FAILED)),
        Err(AllocError) => Unread::Memory,
    }
}

/// What was read of the part of a file.
#[derive(Drop)]
struct PartRead {
    /// Its bytes.
    bytes: Vec<u8>,
    /// How many bytes of the file were read, with those before the part.
    len: u64,
}

/// Reads the part of a file, at most `most` bytes of it. What lies before it is passed over.
fn read_part<F: Read>(
    alloc: Global,
    file: &mut WholeFile<F>,
    part: FilePart,
    most: u64,
) -> Result<PartRead, ToolError>
    ensures bytes { IfOk result (λ read. IfSome (F.remaining file.old.reader) (λ all. read.bytes.items ≡ take (min (unwrap_or part.length most) most) (drop part.start all))) }
    ensures len { IfOk result (λ read. IfSome (F.remaining file.old.reader) (λ all. read.len ≡ min (part.start + min (unwrap_or part.length most) most) (length all))) }
{
    let most = part.length.unwrap_or(most).min(most);
    let skipped = skip_limited(&mut file.reader, part.start)?;
    let expected = file.expected.saturating_sub(skipped);
    let bytes = read_limited(alloc, &mut file.reader, most, expected)?;
    // No file has more bytes than can be counted.
    let Some(len) = skipped.checked_add(bytes.len() as u64) else {
        return Err(ToolError::Read);
    };
    Ok(PartRead { bytes, len })
}

/// How many bytes the pages of a device and one page more have, with `oob` out-of-band bytes after each; at most as many as can be
/// counted.
fn raw_len(geometry: &Geometry, oob: u32) -> u64
    ensures { result ≡ min ((geometry.now.pebs * geometry.now.peb_size / geometry.now.page + 1) * (geometry.now.page + oob)) (2 ^ 64 - 1) }
{
    let page = u64::from(geometry.page());
    let device = u64::from(geometry.pebs()) * u64::from(geometry.peb_size());
    (device / page + 1).saturating_mul(page + u64::from(oob))
}

/// Bytes behind `before` bytes 0xFF.
///
/// # Errors
///
/// Memory ran out.
fn put_behind(alloc: Global, bytes: Vec<u8>, before: usize) -> Result<Vec<u8>, AllocError>
    ensures { IfOk result (λ all. all.items ≡ blank before ++ bytes.items) }
{
    if before == 0 {
        return Ok(bytes);
    }
    let mut all = Vec::from_elem(alloc, 0xFFu8, before)?;
    all.extend_from_slice(bytes.as_slice())?;
    Ok(all)
}

/// How many bytes 0xFF are put before the pages of a part: those of the eraseblocks before it, and no more than one more than the device
/// has.
fn bytes_before(frame: &Frame<'_>) -> usize
    ensures { result ≡ min (frame.now.before * frame.now.geometry.peb_size) (frame.now.geometry.pebs * frame.now.geometry.peb_size + 1) }
{
    let size = u64::from(frame.geometry.peb_size());
    let device = u64::from(frame.geometry.pebs()) * size;
    frame.before.saturating_mul(size).min(device + 1) as usize
}

/// What is seen of the bytes of a part, as far as it is judged.
///
/// # Errors
///
/// Memory ran out.
fn see(alloc: Global, bytes: Vec<u8>, frame: &Frame<'_>) -> Result<Vec<u8>, AllocError>
    ensures { IfOk result (λ seen. let s = frame.now.geometry in let device = s.pebs * s.peb_size in seen.items ≡ masked s.peb_size frame.now.marks.items (take (device + 1) (blank (min (frame.now.before * s.peb_size) (device + 1)) ++ pages_of s.page frame.now.dump.oob bytes.items))) }
{
    let geometry = frame.geometry;
    let device = geometry.pebs() as usize * geometry.peb_size() as usize;
    let mut bytes = bytes;
    keep_pages(&mut bytes, geometry.page(), frame.dump.oob);
    let mut seen = put_behind(alloc, bytes, bytes_before(frame))?;
    seen.truncate(device + 1);
    mask(
        seen.as_mut_slice(),
        geometry.peb_size(),
        frame.marks.as_slice(),
    );
    Ok(seen)
}

/// The lesser of a number and another, which is `most` as far as it can be counted.
fn at_most(number: u64, most: u64) -> u64
    ensures { (n : ℕ) → most ≡ min n (2 ^ 64 - 1) → result ≡ min number n }
{
    number.min(most)
}

/// The part of a dump, as far as it is read.
fn part_read(frame: &Frame<'_>) -> FilePart
    ensures { result ≡ (as_read frame.now.dump).part }
{
    let part = frame.dump.part;
    let most = raw_len(&frame.geometry, frame.dump.oob);
    match part.length {
        Some(length) => FilePart {
            start: part.start,
            length: Some(at_most(length, most)),
        },
        None => part,
    }
}

/// The image of a dump, of whose part this much was read.
///
/// # Errors
///
/// The line of why the file can't be seen so, or that memory ran out.
fn image_of(alloc: Global, frame: &Frame<'_>, read: PartRead) -> Result<ImageFile, Unread>
    ensures geometry { IfOk result (λ f. f.geometry ≡ sizes_of frame.now.dump.numbers) }
    ensures read { IfOk result (λ f. IsRead (sizes_of frame.now.dump.numbers) f.bytes.items) }
    ensures named { (d : Files) (path : List ℕ) → IsReadOf d frame.now.dump path read.bytes.items read.len → IfOk result (λ f. IsJudgedOf (seen frame.now.dump d) path (sizes_of frame.now.dump.numbers) f.bytes.items) }
    ensures fits { (d : Files) (path : List ℕ) → IsReadOf d frame.now.dump path read.bytes.items read.len → IfOk result (λ _. FitsWhole d frame.now.dump path) }
    ensures unread { (d : Files) (path : List ℕ) → IsReadOf d frame.now.dump path read.bytes.items read.len → IfErr result (Tells (IsUnseen d frame.now.dump path)) }
{
    let geometry = frame.geometry;
    let dump = &frame.dump;
    let part = part_read(frame);
    let PartRead { bytes, len } = read;
    if let Some(misfit) = misfit_of(part, geometry.page(), dump.oob, len) {
        return Err(unseen(alloc, misfit));
    }
    let bytes = see(alloc, bytes, frame)?;
    Ok(ImageFile { geometry, bytes })
}

/// What is read of the part of the file at a path.
fn read_seen<D: Disk>(
    disk: &D,
    alloc: Global,
    frame: &Frame<'_>,
    path: &str,
) -> Result<PartRead, ToolError>
    ensures { IfOk result (λ read. IsReadOf (D.files disk.now) frame.now.dump path.now read.bytes.items read.len) }
{
    let most = raw_len(&frame.geometry, frame.dump.oob);
    read_part(alloc, &mut disk.whole(path)?, frame.dump.part, most)
}

/// Reads the file of a dump whole, as it is seen.
///
/// # Errors
///
/// The line of a file that can't be read, or of why it can't be seen so, or that memory ran out.
pub fn load_seen<D: Disk>(
    disk: &D,
    alloc: Global,
    frame: &Frame<'_>,
    path: &str,
) -> Result<ImageFile, Unread>
    ensures geometry { IfOk result (λ f. f.geometry ≡ sizes_of frame.now.dump.numbers) }
    ensures read { IfOk result (λ f. IsRead (sizes_of frame.now.dump.numbers) f.bytes.items) }
    ensures named { IfOk result (λ f. IsJudgedOf (seen frame.now.dump (D.files disk.now)) path.now (sizes_of frame.now.dump.numbers) f.bytes.items) }
    ensures fits { IfOk result (λ _. FitsWhole (D.files disk.now) frame.now.dump path.now) }
    ensures unread { IfErr result (Tells (IsUnseen (D.files disk.now) frame.now.dump path.now)) }
{
    match read_seen(disk, alloc, frame, path) {
        Ok(read) => image_of(alloc, frame, read),
        Err(error) => Err(unread_file(alloc, path, error)),
    }
}

/// What was read of the part of a dump whose bytes are all kept, if no more is read than a device of its geometry has.
fn kept_part(frame: &Frame<'_>, kept: Vec<u8>) -> Option<PartRead>
    ensures read { (d : Files) (path : List ℕ) → IsPartOf d frame.now.dump path kept.items → IfSome result (λ read. IsReadOf d frame.now.dump path read.bytes.items read.len) }
    ensures none { result ≡ None → 2 ^ 64 ≤ frame.now.dump.part.start + length kept.items }
{
    let mut bytes = kept;
    bytes.truncate(raw_len(&frame.geometry, frame.dump.oob) as usize);
    let len = frame.dump.part.start.checked_add(bytes.len() as u64)?;
    Some(PartRead { bytes, len })
}

/// The image of a dump of whose part all bytes are kept, as it is seen.
///
/// # Errors
///
/// The line of why the file can't be seen so, or that memory ran out.
pub fn see_kept(
    alloc: Global,
    frame: &Frame<'_>,
    kept: Vec<u8>,
    path: &str,
) -> Result<ImageFile, Unread>
    ensures geometry { IfOk result (λ f. f.geometry ≡ sizes_of frame.now.dump.numbers) }
    ensures read { IfOk result (λ f. IsRead (sizes_of frame.now.dump.numbers) f.bytes.items) }
    ensures named { (d : Files) → IsPartOf d frame.now.dump path.now kept.items → IfOk result (λ f. IsJudgedOf (seen frame.now.dump d) path.now (sizes_of frame.now.dump.numbers) f.bytes.items) }
    ensures fits { (d : Files) → IsPartOf d frame.now.dump path.now kept.items → IfOk result (λ _. FitsWhole d frame.now.dump path.now) }
    ensures unread { (d : Files) → IsPartOf d frame.now.dump path.now kept.items → IfErr result (Tells (IsUnseen d frame.now.dump path.now)) }
{
    match kept_part(frame, kept) {
        Some(read) => image_of(alloc, frame, read),
        // No file has more bytes than can be counted.
        None => Err(unread_file(alloc, path, ToolError::Read)),
    }
}
