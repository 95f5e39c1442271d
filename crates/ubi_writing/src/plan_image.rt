//! The image of a plan, and what headers in its bad eraseblocks name.

ghost use Rattle.std.specs.Prelude.{◌≡◌, ◌≢◌, ◌<◌, ◌≤◌, IfErr, IfOk, codes, length};
ghost use Rattle.ubi_change.specs.Listed.{hidden_in};
ghost use Rattle.ubi_files.specs.Answer.{Gives, says};
ghost use Rattle.ubi_files.specs.Dump.{seen};
ghost use Rattle.ubi_files.specs.Lines.{file_line};
ghost use Rattle.ubi_files.specs.Opened.{IsOpened, IsUnreadOf, WhereAtPlaces};
ghost use Rattle.ubi_files.specs.OverFile.{IsUnseen};
ghost use Rattle.ubi_files.specs.Told.{Tells};
ghost use Rattle.ubi_scan.specs.Source.{Narrows, WhereHeld, blocks_in, blocks_of};
ghost use Rattle.ubi_writing.specs.PlanImage.{IsHiddenAt, bare};

use std::alloc::Global;
use ubi_change::{Hidden, find_hidden};
use ubi_files::{
    Disk, Dump, DumpSource, Frame, OpenImage, Seen, ToolError, Unread, mask, open_beside,
    unread_file,
};
use ubi_media::Geometry;
use ubi_scan::{BlockSource, MemorySource, PlacedFile, StreamError, block_count};
use ubi_volume::is_blank_part;

/// An image that was opened for a plan.
#[derive(Drop)]
pub struct PlanImage<S> {
    /// The image, in which bad eraseblocks read 0xFF.
    pub image: OpenImage<S>,
    /// What headers in bad eraseblocks name. A kernel that doesn't know that these eraseblocks are bad reads them.
    pub hidden: Hidden,
}

/// A dump whose bad eraseblocks are read as they are.
pub fn bare<'a>(dump: &Dump<'a>) -> Dump<'a>
    ensures { result ≡ bare dump.now }
{
    Dump { bad: None, ..*dump }
}

/// Whether an eraseblock is listed and holds something; not if it can't be read.
fn is_held<S: BlockSource>(
    geometry: &Geometry,
    source: &mut S,
    marks: &[bool],
    p: u32,
    buffer: &mut [u8],
) -> bool
    requires inside { p < blocks_in geometry.now (S.known source.old) }
    requires room { length buffer.old ≡ geometry.now.peb_size }
    ensures { blocks_in geometry.now (S.known source.new) ≡ blocks_in geometry.now (S.known source.old) }
{
    match marks.get(p as usize) {
        Some(true) => matches!(is_blank_part(source, geometry, p, 0, buffer), Ok(false)),
        _ => false,
    }
}

/// Says how many of the listed eraseblocks of a source hold something, if some do: who listed them may not have marked them on the chip.
fn remark_listed<R: Eprint, S: BlockSource>(
    rt: &R,
    alloc: Global,
    geometry: &Geometry,
    source: &mut S,
    marks: &[bool],
    path: &str,
) {
    let Ok(mut buffer) = Vec::from_elem(alloc, 0u8, geometry.peb_size() as usize) else {
        return;
    };
    let Ok(count) = block_count(geometry, source.len()) else {
        return;
    };
    let (mut held, mut first) = (0u32, 0);
    for p in 0..count {
        if is_held(geometry, source, marks, p, buffer.as_mut_slice()) {
            held = held.saturating_add(1);
            first = if held == 1 { p } else { first };
        }
    }
    if held > 0 {
        let _ = rt.eprintln(format_args!(
            "bad eraseblocks of {path} hold something, {held} in all, {first} first: a kernel goes on using those that aren't marked bad on the chip"
        ));
    }
}

/// What headers in bad eraseblocks of a source name.
///
/// # Errors
///
/// The line of a file that can't be read, or that memory ran out.
fn hidden_from<S: BlockSource>(
    alloc: Global,
    geometry: &Geometry,
    source: &mut S,
    marks: &[bool],
    path: &str,
) -> Result<Hidden, Unread>
    ensures known { IfOk result (λ _. S.known source.new ≡ S.known source.old) }
    ensures narrows { Narrows (S.agrees source.old) (S.agrees source.new) }
    ensures hidden { IfOk result (λ h. WhereHeld (S.agrees source.new) (λ bytes. h ≡ hidden_in geometry.now (blocks_of geometry.now bytes) marks.now)) }
    ensures unread { IfErr result (Tells (λ o. Gives o (says (file_line (codes "cannot read ") path.now) 1))) }
{
    match find_hidden(alloc, geometry, source, marks) {
        Ok(hidden) => Ok(hidden),
        Err(StreamError::Memory) => Err(Unread::Memory),
        Err(_) => Err(unread_file(alloc, path, ToolError::Read)),
    }
}

/// What headers in bad eraseblocks of an image in memory name.
///
/// # Errors
///
/// As [`hidden_from`].
fn hidden_whole<D: Disk + Eprint>(
    disk: &D,
    alloc: Global,
    geometry: &Geometry,
    image: &[u8],
    marks: &[bool],
    path: &str,
) -> Result<Hidden, Unread>
    ensures hidden { IfOk result (λ h. h ≡ hidden_in geometry.now (blocks_of geometry.now image.now) marks.now) }
    ensures unread { IfErr result (Tells (λ o. Gives o (says (file_line (codes "cannot read ") path.now) 1))) }
{
    let mut source = MemorySource::new(image);
    let hidden = hidden_from(alloc, geometry, &mut source, marks, path)?;
    remark_listed(disk, alloc, geometry, &mut source, marks, path);
    Ok(hidden)
}

/// What is known of a dump before its image is opened for a plan.
#[derive(Drop)]
pub struct PlanFrame<'a> {
    /// The frame of the dump.
    pub frame: Frame<'a>,
    /// That of the dump with its bad eraseblocks as they are.
    pub bare: Frame<'a>,
}

/// Opens the image of a path for a plan, as [`open_beside`] does, and looks at its bad eraseblocks.
///
/// # Errors
///
/// Those of [`open_beside`].
pub fn open_plan_image<'f, D: Disk + Eprint>(
    disk: &D,
    alloc: Global,
    plan: &'f PlanFrame<'_>,
    path: &str,
    out: &str,
) -> Result<PlanImage<DumpSource<'f, D::Placed>>, Unread>
    requires { plan.now.bare.dump ≡ bare plan.now.frame.dump }
    ensures opened { IfOk result (λ opened. IsOpened (λ s. IsUnreadOf (seen plan.now.frame.dump (D.files disk.now)) path.now (⟦<Seen<'static, D::Placed> as PlacedFile>⟧.bytes s.file) s.failures) (D.files disk.now) path.now plan.now.frame.dump opened.image) }
    ensures apart { IfOk result (λ opened. WhereAtPlaces (path.now ≢ out.now) opened.image) }
    ensures hidden { IfOk result (λ opened. IsHiddenAt (D.files disk.now) plan.now.frame.dump path.now opened.hidden) }
    ensures unread { IfErr result (Tells (IsUnseen (D.files disk.now) plan.now.frame.dump path.now)) }
{
    let PlanFrame { frame, bare } = plan;
    let marks = frame.marks.as_slice();
    let geometry = frame.geometry;
    match open_beside(disk, alloc, bare, path, out)? {
        OpenImage::AtPlaces(mut file) => {
            let hidden = hidden_from(alloc, &geometry, &mut file.source, marks, path)?;
            remark_listed(disk, alloc, &geometry, &mut file.source, marks, path);
            let image = open_beside(disk, alloc, frame, path, out)?;
            Ok(PlanImage { image, hidden })
        }
        OpenImage::Whole(file) => {
            let mut file = file;
            let hidden = hidden_whole(disk, alloc, &geometry, file.bytes.as_slice(), marks, path)?;
            mask(file.bytes.as_mut_slice(), geometry.peb_size(), marks);
            Ok(PlanImage {
                image: OpenImage::Whole(file),
                hidden,
            })
        }
    }
}
