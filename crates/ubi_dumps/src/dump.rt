//! How a dump is read: as the words say, or if they give no geometry, as its own headers show.

ghost use Rattle.std.specs.Option.{ForSome, IsSomeAnd};
ghost use Rattle.std.specs.Prelude.{◌≡◌, ◌≢◌, ◌+◌, ◌^◌, ◌≤◌, ◌⊎◌, [], IfErr, IfOk, IfSome, IsFalse, IsOkAnd, IsTrue, None, OnErr, codes, drop, length, slice_index_or, take, true};
ghost use Rattle.ubi_dumps.specs.declared.asked.Asked.TheVariants as asked;
ghost use Rattle.ubi_dumps.specs.Ended.{Works};
ghost use Rattle.ubi_dumps.specs.Lines.{images_side_line, undetected_side_line};
ghost use Rattle.ubi_dumps.specs.Asked.{IsDump, IsToldFirst, IsUntoldDump, TellsNothing, is_split, is_all_of_file, told_dump};
ghost use Rattle.ubi_detect.specs.declared.detect.Detected.{Detected};
ghost use Rattle.ubi_files.specs.Answer.{Gives, says};
ghost use Rattle.ubi_files.specs.Dump.{greatest_dump, misfit_of, seen};
ghost use Rattle.ubi_files.specs.Kept.{IsPartOf};
ghost use Rattle.ubi_files.specs.Lines.{file_line};
ghost use Rattle.ubi_files.specs.Opened.{IsAtPlaces, IsOpened, IsUnreadOf, WhereAtPlaces};
ghost use Rattle.ubi_files.specs.OverFile.{IsUnseen};
ghost use Rattle.ubi_files.specs.Told.{Tells};
ghost use Rattle.ubi_scan.specs.Source.{Narrows, holds, memory};

use crate::asked::{Asked, Paths, Sought};
use crate::lines::{images_side_line, undetected_side_line};
use crate::remarks::remark_part;
use std::alloc::{AllocError, Global};
use ubi_detect::{DetectError, Detected, Found, Images, Undetected, detect_from};
use ubi_files::{
    Disk, Dump, DumpSource, FAILED, FilePart, Frame, ImageFile, Numbers, OpenImage, Outcome, Seen,
    ToolError, Unread, frame_of, open_beside, open_dump, see_kept, unread_file,
};
use ubi_scan::{BlockSource, MemorySource, PlacedFile};

/// A dump for which it is known how it is read.
#[derive(Drop)]
pub struct KnownDump<'a> {
    /// The dump.
    pub dump: Dump<'a>,
    /// The bytes of its part of the file, if that can't be read at places and was read whole to find how the dump is read.
    pub kept: Option<Vec<u8>>,
}

impl<'a> KnownDump<'a> {
    /// A dump that is read as the words say.
    pub fn given(dump: Dump<'a>) -> KnownDump<'a>
        ensures dump { result.dump ≡ dump.entry }
        ensures kept { result.kept ≡ None }
    {
        KnownDump { dump, kept: None }
    }
}

impl<'a> Sought<'a> {
    /// The dump, as its headers show it. `None` if its place can't be counted.
    fn told(&self, told: &Detected) -> Option<Dump<'a>>
        ensures dump { IfSome result (λ dump. dump ≡ told_dump self.now told.now) }
        ensures none { result ≡ None → 2 ^ 64 ≤ self.now.part.start + told.now.start }
    {
        let part = FilePart {
            start: self.part.start.checked_add(told.start)?,
            length: Some(told.length),
        };
        Some(Dump {
            numbers: Numbers {
                pebs: self.pebs,
                ..Numbers::of(&told.geometry)
            },
            part,
            oob: told.oob,
            bad: self.bad,
            counts_before: true,
        })
    }
}

/// What is printed for a file whose headers show nothing: the line of the cause, after a side; or that memory ran out.
fn undetected(alloc: Global, side: &str, cause: Undetected) -> Unread
    ensures { Tells (λ o. Gives o (says (undetected_side_line side.now cause) 1)) result }
{
    match undetected_side_line(alloc, side, cause) {
        Ok(line) => Unread::Told(Outcome::saying(line, FAILED)),
        Err(AllocError) => Unread::Memory,
    }
}

/// Whether the words give no part of a file.
fn is_all_of_file(part: FilePart) -> bool
    ensures { result ≡ is_all_of_file part }
{
    part.start == 0 && part.length.is_none()
}

/// Whether a file is split: its images are apart from each other, and the words give no part of it.
fn is_split(part: FilePart, images: &Images) -> bool
    ensures { result ≡ is_split part images.now }
{
    is_all_of_file(part) && images.are_apart
}

/// What is printed for a file that is split: the line of its images, after a side; or that memory ran out.
fn several(alloc: Global, side: &str, images: &Images) -> Unread
    ensures { Tells (λ o. Gives o (says (images_side_line side.now images.now.spans.items) 1)) result }
{
    match images_side_line(alloc, side, images.spans.as_slice()) {
        Ok(line) => Unread::Told(Outcome::saying(line, FAILED)),
        Err(AllocError) => Unread::Memory,
    }
}

/// What is found first in a part of a file.
///
/// # Errors
///
/// The line of the images of the file, after a side, if it is split; or that memory ran out.
fn first_of(alloc: Global, found: &Found, part: FilePart, side: &str) -> Result<Detected, Unread>
    requires { found.now.geometries.items ≢ [] }
    ensures first { IfOk result (λ told. told ≡ slice_index_or found.now.geometries.items 0 told) }
    ensures whole { IfOk result (λ _. IsFalse (is_split part found.now.images)) }
    ensures split { OnErr result (IsTrue (is_split part found.now.images)) }
    ensures line { IfErr result (Tells (λ o. Gives o (says (images_side_line side.now found.now.images.spans.items) 1))) }
{
    if is_split(part, &found.images) {
        return Err(several(alloc, side, &found.images));
    }
    Ok(found.geometries[0])
}

/// What the headers of a source over a part of a file show first.
///
/// # Errors
///
/// The line of the file, if a read failed; that of the cause for which they show nothing, after a side, or of the images of the file, if
/// it is split; or that memory ran out.
fn first_told<S: BlockSource>(
    alloc: Global,
    source: &mut S,
    part: FilePart,
    path: &str,
    side: &str,
) -> Result<Detected, Unread>
    ensures narrows { Narrows (S.agrees source.old) (S.agrees source.new) }
    ensures known { IfOk result (λ _. S.known source.new ≡ S.known source.old) }
    ensures first { IfOk result (λ told. IsToldFirst part (S.agrees source.new) told) }
    ensures nothing { IfErr result (Tells (Works (S.known source.old) (S.known source.new) path.now (TellsNothing part side.now (S.known source.old) (S.agrees source.new)))) }
{
    match detect_from(alloc, source) {
        Ok(found) => first_of(alloc, &found, part, side),
        Err(DetectError::Undetected(cause)) => Err(undetected(alloc, side, cause)),
        Err(DetectError::Read(_)) => Err(unread_file(alloc, path, ToolError::Read)),
        Err(DetectError::Memory) => Err(Unread::Memory),
    }
}

/// The dump of a file, as its headers show it.
///
/// # Errors
///
/// The line of a file that can't be read, or that memory ran out.
fn dump_told<'a>(
    alloc: Global,
    sought: &Sought<'a>,
    told: &Detected,
    path: &str,
) -> Result<Dump<'a>, Unread>
    ensures dump { IfOk result (λ dump. dump ≡ told_dump sought.now told.now) }
    ensures unread { IfErr result (Tells (λ o. Gives o (says (file_line (codes "cannot read ") path.now) 1))) }
{
    match sought.told(told) {
        Some(dump) => Ok(dump),
        // No file has more bytes than can be counted.
        None => Err(unread_file(alloc, path, ToolError::Read)),
    }
}

/// Keeps only a part of bytes.
fn keep_part(bytes: &mut Vec<u8>, start: u64, length: u64)
    ensures { bytes.new.items ≡ take length (drop start bytes.old.items) }
{
    let len = bytes.len() as u64;
    let start = start.min(len);
    let count = length.min(len - start) as usize;
    let start = start as usize;
    bytes.as_mut_slice().copy_within(start..start + count, 0);
    bytes.truncate(count);
}

/// How a dump that is read at places is read: as the headers of the source show first.
///
/// # Errors
///
/// The line of the file, if a read failed; that of the cause for which they show nothing, after a side; or that memory ran out.
fn seek_at_places<'a, S: BlockSource>(
    alloc: Global,
    sought: &Sought<'a>,
    source: &mut S,
    path: &str,
    side: &str,
) -> Result<KnownDump<'a>, Unread>
    ensures narrows { Narrows (S.agrees source.old) (S.agrees source.new) }
    ensures known { IfOk result (λ _. S.known source.new ≡ S.known source.old) }
    ensures told { IfOk result (λ known. (told : Detected) × IsToldFirst sought.now.part (S.agrees source.new) told × (known.dump ≡ told_dump sought.now told)) }
    ensures kept { IfOk result (λ known. known.kept ≡ None) }
    ensures nothing { IfErr result (Tells (λ o. Works (S.known source.old) (S.known source.new) path.now (TellsNothing sought.now.part side.now (S.known source.old) (S.agrees source.new)) o ⊎ Gives o (says (file_line (codes "cannot read ") path.now) 1))) }
{
    let told = first_told(alloc, source, sought.part, path, side)?;
    Ok(KnownDump::given(dump_told(alloc, sought, &told, path)?))
}

/// How a dump is read, if the part of its file in which its headers are looked for was read whole.
///
/// # Errors
///
/// Those of [`seek_at_places`].
fn seek_whole<'a>(
    alloc: Global,
    sought: &Sought<'a>,
    file: ImageFile,
    path: &str,
    side: &str,
) -> Result<KnownDump<'a>, Unread>
    ensures told { IfOk result (λ known. (told : Detected) × IsToldFirst sought.now.part (holds file.bytes.items) told × (known.dump ≡ told_dump sought.now told) × IsSomeAnd known.kept (λ bytes. bytes.items ≡ take told.length (drop told.start file.bytes.items))) }
    ensures nothing { IfErr result (Tells (λ o. TellsNothing sought.now.part side.now (memory file.bytes.items) (holds file.bytes.items) o ⊎ Gives o (says (file_line (codes "cannot read ") path.now) 1))) }
{
    let mut bytes = file.bytes;
    let mut source = MemorySource::new(bytes.as_slice());
    let told = first_told(alloc, &mut source, sought.part, path, side)?;
    let dump = dump_told(alloc, sought, &told, path)?;
    keep_part(&mut bytes, told.start, told.length);
    Ok(KnownDump {
        dump,
        kept: Some(bytes),
    })
}

/// How a dump without a geometry in the words is read: as its headers show first.
///
/// # Errors
///
/// The line of a file that can't be read, or that doesn't have the part in which they are looked for; that of the cause for which
/// they show nothing, after a side; or that memory ran out.
fn seek_dump<'a, D: Disk + Eprint>(
    disk: &D,
    alloc: Global,
    sought: &Sought<'a>,
    path: &str,
    side: &str,
) -> Result<KnownDump<'a>, Unread>
    ensures dump { IfOk result (λ known. IsDump (D.files disk.now) path.now (asked.Sought sought.now) known.dump) }
    ensures kept { IfOk result (λ known. ForSome known.kept (λ bytes. IsPartOf (D.files disk.now) known.dump path.now bytes.items)) }
    ensures opens { D.opens disk.now path.now ≡ true → IfSome ((D.files disk.now).holds path.now) (λ all. all ≢ [] → misfit_of (greatest_dump sought.now.part) (length all) ≡ None → IfOk result (λ known. known.kept ≡ None)) }
    ensures untold { IfErr result (Tells (IsUntoldDump (D.files disk.now) path.now side.now (asked.Sought sought.now))) }
{
    let frame = frame_of(alloc, &Dump::greatest(sought.part))?;
    match open_dump(disk, alloc, &frame, path)? {
        OpenImage::AtPlaces(mut file) => {
            let len = file.source.len();
            let found = seek_at_places(alloc, sought, &mut file.source, path, side);
            remark_part(disk, path, sought.part, len, &found);
            found
        }
        OpenImage::Whole(file) => {
            let len = file.bytes.len() as u64;
            let found = seek_whole(alloc, sought, file, path, side);
            remark_part(disk, path, sought.part, len, &found);
            found
        }
    }
}

/// How a dump is read: as the words say, or if they give no geometry, as its headers show first.
///
/// # Errors
///
/// If the words give no geometry: the line of a file that can't be read, or that doesn't have the part in which its headers are
/// looked for; that of the cause for which they show nothing, after a side; or that memory ran out.
pub fn find_dump<'a, D: Disk + Eprint>(
    disk: &D,
    alloc: Global,
    asked: &Asked<'a>,
    path: &str,
    side: &str,
) -> Result<KnownDump<'a>, Unread>
    ensures dump { IfOk result (λ known. IsDump (D.files disk.now) path.now asked.now known.dump) }
    ensures kept { IfOk result (λ known. ForSome known.kept (λ bytes. IsPartOf (D.files disk.now) known.dump path.now bytes.items)) }
    ensures untold { IfErr result (Tells (IsUntoldDump (D.files disk.now) path.now side.now asked.now)) }
{
    match asked {
        Asked::Given(dump) => Ok(KnownDump::given(*dump)),
        Asked::Sought(sought) => seek_dump(disk, alloc, sought, path, side),
    }
}

/// Opens the image of a path, as [`open_dump`] does. What is kept of its part isn't read again.
///
/// # Errors
///
/// Those of [`open_dump`].
pub fn open_known<'f, D: Disk>(
    disk: &D,
    alloc: Global,
    frame: &'f Frame<'_>,
    kept: Option<Vec<u8>>,
    path: &str,
) -> Result<OpenImage<DumpSource<'f, D::Placed>>, Unread>
    requires kept { ForSome kept (λ bytes. IsPartOf (D.files disk.now) frame.now.dump path.now bytes.items) }
    ensures opened { IfOk result (IsOpened (λ s. IsUnreadOf (seen frame.now.dump (D.files disk.now)) path.now (⟦<Seen<'static, D::Placed> as PlacedFile>⟧.bytes s.file) s.failures) (D.files disk.now) path.now frame.now.dump) }
    ensures opens { kept ≡ None → D.opens disk.now path.now ≡ true → IfSome ((D.files disk.now).holds path.now) (λ all. all ≢ [] → misfit_of frame.now.dump (length all) ≡ None → IsOkAnd result IsAtPlaces) }
    ensures unread { IfErr result (Tells (IsUnseen (D.files disk.now) frame.now.dump path.now)) }
{
    match kept {
        Some(bytes) => Ok(OpenImage::Whole(see_kept(alloc, frame, bytes, path)?)),
        None => open_dump(disk, alloc, frame, path),
    }
}

/// Opens the image of a path, as [`open_beside`] does. What is kept of its part isn't read again.
///
/// # Errors
///
/// Those of [`open_dump`].
pub fn open_known_beside<'f, D: Disk>(
    disk: &D,
    alloc: Global,
    frame: &'f Frame<'_>,
    kept: Option<Vec<u8>>,
    paths: &Paths<'_>,
) -> Result<OpenImage<DumpSource<'f, D::Placed>>, Unread>
    requires kept { ForSome kept (λ bytes. IsPartOf (D.files disk.now) frame.now.dump paths.now.image.now bytes.items) }
    ensures opened { IfOk result (IsOpened (λ s. IsUnreadOf (seen frame.now.dump (D.files disk.now)) paths.now.image.now (⟦<Seen<'static, D::Placed> as PlacedFile>⟧.bytes s.file) s.failures) (D.files disk.now) paths.now.image.now frame.now.dump) }
    ensures apart { IfOk result (WhereAtPlaces (paths.now.image.now ≢ paths.now.out.now)) }
    ensures opens { kept ≡ None → D.opens disk.now paths.now.image.now ≡ true → paths.now.image.now ≢ paths.now.out.now → IfSome ((D.files disk.now).holds paths.now.image.now) (λ all. all ≢ [] → misfit_of frame.now.dump (length all) ≡ None → IsOkAnd result IsAtPlaces) }
    ensures unread { IfErr result (Tells (IsUnseen (D.files disk.now) frame.now.dump paths.now.image.now)) }
{
    match kept {
        Some(bytes) => Ok(OpenImage::Whole(see_kept(alloc, frame, bytes, paths.image)?)),
        None => open_beside(disk, alloc, frame, paths.image, paths.out),
    }
}
