//! Image files that are opened: to be read at places if they can be, and read whole if not.

ghost use Rattle.std.specs.Prelude.{◌≡◌, ◌≢◌, ◌*◌, ◌≤◌, ℕ, [], IfErr, IfOk, IfSome, IsOkAnd, List, MatchResult, None, Some, length, option_map, true};
ghost use Rattle.ubi_media.specs.Limits.{first_broken};
ghost use Rattle.ubi_files.specs.BadBlocks.{bad_marks};
ghost use Rattle.ubi_files.specs.Disk.{Files};
ghost use Rattle.ubi_files.specs.Dump.{blocks_before, marks_of, misfit_of, raw_size, seen, viewed, with_first};
ghost use Rattle.ubi_files.specs.Numbers.{sizes_of};
ghost use Rattle.ubi_files.specs.Opened.{IsAtPlaces, IsOpened, IsUnreadOf, WhereAtPlaces};
ghost use Rattle.ubi_files.specs.OverFile.{IsUnread, IsUnseen};
ghost use Rattle.ubi_files.specs.Told.{Tells};

use crate::bad_blocks::bad_marks;
use crate::behind::Behind;
use crate::disk::Disk;
use crate::dump::Dump;
use crate::file_row::SizedFile;
use crate::image_file::{ImageFile, Unread, allowed_geometry};
use crate::masked::Masked;
use crate::pages::Pages;
use crate::part::Part;
use crate::view::{Misfit, misfit_of};
use crate::whole_dump::{load_seen, unseen};
use std::alloc::{AllocError, Global};
use ubi_media::Geometry;
use ubi_scan::{FileSource, PlacedFile};

/// What is known of a dump before it is opened: its geometry, which breaks no limit, and which eraseblocks are bad.
#[derive(Drop)]
pub struct Frame<'a> {
    /// The dump, with what the words say of how it is read.
    pub dump: Dump<'a>,
    /// The geometry of its device.
    pub geometry: Geometry,
    /// How many eraseblocks of the file lie before the part, if it begins with one.
    pub before: u64,
    /// Whether each eraseblock of the device is bad, or lies before the part; none does from where the marks end.
    pub marks: Vec<bool>,
    ghost limits: { first_broken (sizes_of dump.numbers) ≡ None },
    ghost sizes: { geometry ≡ sizes_of dump.numbers },
    ghost led: { before ≡ blocks_before dump },
    ghost few: { before * geometry.peb_size ≤ dump.part.start },
    ghost marked: { marks.items ≡ marks_of dump },
}

/// How many bytes of the file an eraseblock has, if `oob` out-of-band bytes follow each page.
fn raw_size(geometry: &Geometry, oob: u32) -> u64
    ensures raw { (dump : Dump) → sizes_of dump.numbers ≡ geometry.now → dump.oob ≡ oob → result ≡ raw_size dump }
    ensures least { geometry.now.peb_size ≤ result }
    ensures some { 1 ≤ result }
{
    let page = u64::from(geometry.page());
    u64::from(geometry.peb_size()) / page * (page + u64::from(oob))
}

/// How many eraseblocks of the file lie before the part of a dump, if they count and the part begins with one.
fn blocks_before(geometry: &Geometry, dump: &Dump<'_>) -> u64
    ensures before { sizes_of dump.now.numbers ≡ geometry.now → result ≡ blocks_before dump.now }
    ensures few { result * geometry.now.peb_size ≤ dump.now.part.start }
{
    let Dump {
        part,
        oob,
        counts_before,
        ..
    } = *dump;
    let raw = raw_size(geometry, oob);
    if counts_before && part.start % raw == 0 {
        part.start / raw
    } else {
        0
    }
}

impl Frame<'_> {
    /// How many bytes of the file an eraseblock has, with its out-of-band bytes.
    pub fn raw_size(&self) -> u64
        ensures size { result ≡ raw_size self.now.dump }
        ensures some { 1 ≤ result }
    {
        raw_size(&self.geometry, self.dump.oob)
    }
}

/// The marks of the bad eraseblocks of a device with `pebs` of them, with the first `before` marked too.
fn marks_of(
    alloc: Global,
    pebs: u32,
    before: u64,
    bad: Option<&str>,
) -> Result<Vec<bool>, AllocError>
    ensures { (dump : Dump) → dump.bad ≡ bad.entry → (sizes_of dump.numbers).pebs ≡ pebs → blocks_before dump ≡ before → IfOk result (λ marks. marks.items ≡ marks_of dump) }
{
    let first = u64::from(pebs).min(before) as usize;
    match bad {
        Some(list) => marks_behind(alloc, pebs, first, list),
        None => Vec::from_elem(alloc, true, first),
    }
}

/// The marks of a list of bad eraseblocks, with the first ones marked too.
fn marks_behind(alloc: Global, pebs: u32, first: usize, list: &str) -> Result<Vec<bool>, AllocError>
    requires { first ≤ pebs }
    ensures { IfOk result (λ marks. marks.items ≡ with_first first (bad_marks pebs list.now)) }
{
    let mut marks = bad_marks(alloc, pebs, list.as_bytes())?;
    mark_first(marks.as_mut_slice(), first);
    Ok(marks)
}

/// Marks the first eraseblocks.
fn mark_first(marks: &mut [bool], first: usize)
    requires { first ≤ length marks.old }
    ensures { marks.new ≡ with_first first marks.old }
{
    marks[..first].fill(true);
}

/// What is known of a dump before it is opened.
///
/// # Errors
///
/// The line of the first limit that its numbers break, or that memory ran out.
pub fn frame_of<'a>(alloc: Global, dump: &Dump<'a>) -> Result<Frame<'a>, Unread>
    ensures dump { IfOk result (λ frame. frame.dump ≡ dump.now) }
    ensures broken { (path : List ℕ) → IfErr result (Tells (IsUnread dump.now.numbers path)) }
{
    let geometry = allowed_geometry(alloc, dump.numbers)?;
    let before = blocks_before(&geometry, dump);
    let marks = marks_of(alloc, geometry.pebs(), before, dump.bad)?;
    Ok(Frame {
        dump: *dump,
        geometry,
        before,
        marks,
    })
}

/// An image that is read at places, and the geometry that the words give it.
#[derive(Drop)]
pub struct PlacedImage<S> {
    /// The geometry of its device.
    pub geometry: Geometry,
    /// The source over its file.
    pub source: S,
}

/// An image file that was opened.
#[derive(Drop)]
pub enum OpenImage<S> {
    /// One that is read at places.
    AtPlaces(PlacedImage<S>),
    /// One that was read whole, since it can't be read at places.
    Whole(ImageFile),
}

/// A file that is read at places, as it is seen: the pages of a part of it, with 0xFF in place of bad eraseblocks and of those before the
/// part.
pub type Seen<'f, F> = Masked<'f, Behind<Pages<Part<F>>>>;

/// A source over the file of a dump, as it is seen.
pub type DumpSource<'f, F> = FileSource<Seen<'f, F>>;

/// A source over the file of a dump, if that can be seen so.
///
/// # Errors
///
/// Why it can't.
fn placed<'f, F: PlacedFile + Drop>(
    frame: &'f Frame<'_>,
    file: SizedFile<F>,
) -> Result<PlacedImage<DumpSource<'f, F>>, Misfit>
    ensures fits { MatchResult result (λ _. misfit_of frame.now.dump file.len ≡ None) (λ m. misfit_of frame.now.dump file.len ≡ Some m) }
    ensures geometry { IfOk result (λ image. image.geometry ≡ sizes_of frame.now.dump.numbers) }
    ensures unread { IfOk result (λ image. image.source.failures ≡ 0) }
    ensures held { IfOk result (λ image. ⟦<Seen<'static, F> as PlacedFile>⟧.bytes image.source.file ≡ option_map (viewed frame.now.dump) (F.bytes file.file)) }
{
    let geometry = frame.geometry;
    let Dump { part, oob, .. } = frame.dump;
    let len = file.len();
    if let Some(misfit) = misfit_of(part, geometry.page(), oob, len) {
        return Err(misfit);
    }
    let part_len = part.length.unwrap_or(len - part.start);
    let part = Part::of(file, part.start, part_len);
    let pages = Pages::of(part, geometry.page(), oob);
    let behind = Behind::of(pages, frame.before * u64::from(geometry.peb_size()));
    let len = behind.len();
    let seen = Masked::new(behind, geometry.peb_size(), frame.marks.as_slice());
    Ok(PlacedImage {
        geometry,
        source: FileSource::of(seen, len),
    })
}

/// The image of a file that was opened at places.
///
/// # Errors
///
/// The line of why it can't be seen so, or that memory ran out.
fn at_places<'f, F: PlacedFile + Drop>(
    alloc: Global,
    frame: &'f Frame<'_>,
    file: SizedFile<F>,
) -> Result<OpenImage<DumpSource<'f, F>>, Unread>
    ensures opened { (d : Files) (path : List ℕ) → F.bytes file.file ≡ d.holds path → IfOk result (IsOpened (λ s. IsUnreadOf (seen frame.now.dump d) path (⟦<Seen<'static, F> as PlacedFile>⟧.bytes s.file) s.failures) d path frame.now.dump) }
    ensures opens { misfit_of frame.now.dump file.len ≡ None → IsOkAnd result IsAtPlaces }
    ensures unread { (d : Files) (path : List ℕ) → F.bytes file.file ≡ d.holds path → IfErr result (Tells (IsUnseen d frame.now.dump path)) }
{
    match placed(frame, file) {
        Ok(image) => Ok(OpenImage::AtPlaces(image)),
        Err(misfit) => Err(unseen(alloc, misfit)),
    }
}

/// Opens the image of a path, whose frame is known.
///
/// # Errors
///
/// The line of a file that can't be read, or of why it can't be seen so; or that memory ran out.
pub fn open_dump<'f, D: Disk>(
    disk: &D,
    alloc: Global,
    frame: &'f Frame<'_>,
    path: &str,
) -> Result<OpenImage<DumpSource<'f, D::Placed>>, Unread>
    ensures opened { IfOk result (IsOpened (λ s. IsUnreadOf (seen frame.now.dump (D.files disk.now)) path.now (⟦<Seen<'static, D::Placed> as PlacedFile>⟧.bytes s.file) s.failures) (D.files disk.now) path.now frame.now.dump) }
    ensures opens { D.opens disk.now path.now ≡ true → IfSome ((D.files disk.now).holds path.now) (λ all. all ≢ [] → misfit_of frame.now.dump (length all) ≡ None → IsOkAnd result IsAtPlaces) }
    ensures unread { IfErr result (Tells (IsUnseen (D.files disk.now) frame.now.dump path.now)) }
{
    match disk.placed_at(path) {
        // Of some of its own files the system tells no size.
        Some(file) if file.len() > 0 => at_places(alloc, frame, file),
        _ => Ok(OpenImage::Whole(load_seen(disk, alloc, frame, path)?)),
    }
}

/// Opens the image of a path, as [`open_dump`] does, to be read while a file is written at another. If both may be one
/// file, it is read whole.
///
/// # Errors
///
/// Those of [`open_dump`].
pub fn open_beside<'f, D: Disk>(
    disk: &D,
    alloc: Global,
    frame: &'f Frame<'_>,
    path: &str,
    out: &str,
) -> Result<OpenImage<DumpSource<'f, D::Placed>>, Unread>
    ensures opened { IfOk result (IsOpened (λ s. IsUnreadOf (seen frame.now.dump (D.files disk.now)) path.now (⟦<Seen<'static, D::Placed> as PlacedFile>⟧.bytes s.file) s.failures) (D.files disk.now) path.now frame.now.dump) }
    ensures apart { IfOk result (WhereAtPlaces (path.now ≢ out.now)) }
    ensures opens { D.opens disk.now path.now ≡ true → path.now ≢ out.now → IfSome ((D.files disk.now).holds path.now) (λ all. all ≢ [] → misfit_of frame.now.dump (length all) ≡ None → IsOkAnd result IsAtPlaces) }
    ensures unread { IfErr result (Tells (IsUnseen (D.files disk.now) frame.now.dump path.now)) }
{
    match disk.placed_beside(path, out) {
        Some(file) if file.len() > 0 => at_places(alloc, frame, file),
        _ => Ok(OpenImage::Whole(load_seen(disk, alloc, frame, path)?)),
    }
}
