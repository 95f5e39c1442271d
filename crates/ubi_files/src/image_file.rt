//! The image file that the words of a command name.

ghost use Rattle.std.specs.Io.KnownBytes.{Consumes};
ghost use Rattle.std.specs.Prelude.{◌≡◌, ◌+◌, ◌*◌, ◌≤◌, IfErr, IfOk, IfSome, List, MatchResult, None, OnErr, codes, vec_len, ℕ};
ghost use Rattle.ubi_media.specs.Limits.{first_broken};
ghost use Rattle.ubi_scan.specs.Image.{seen_of};
ghost use Rattle.ubi_files.specs.Answer.{Gives, says};
ghost use Rattle.ubi_files.specs.Disk.{IsJudgedOf};
ghost use Rattle.ubi_files.specs.Lines.{file_line, geometry_line};
ghost use Rattle.ubi_files.specs.Numbers.{sizes_of};
ghost use Rattle.ubi_files.specs.OverFile.{IsRead, IsUnread};
ghost use Rattle.ubi_files.specs.Told.{Tells};
ghost use Rattle.ubi_files.specs.Read.{TakesAtMost};
ghost use Rattle.ubi_files.specs.declared.image_file.Unread.TheVariants.{Memory, Told};
ghost use Rattle.ubi_files.specs.declared.image_file.Unread.{Unread};

use crate::disk::{Disk, WholeFile};
use crate::lines::{file_line, geometry_line};
use crate::numbers::{Numbers, geometry_of};
use crate::outcome::{FAILED, Outcome, ToolError, WRONG_WORDS};
use crate::read::read_limited;
use std::alloc::{AllocError, Global};
use std::io::Read;
use ubi_media::{Geometry, GeometryError};

/// An image, and the geometry that the words give it.
#[derive(Drop)]
pub struct ImageFile {
    /// The geometry of its device.
    pub geometry: Geometry,
    /// Its bytes, at most one more than the device has.
    pub bytes: Vec<u8>,
}

/// Why an image can't be opened.
#[derive(Drop)]
pub enum Unread {
    /// What is answered instead: the line of a geometry or of a file.
    Told(Outcome),
    /// Memory ran out.
    Memory,
}

impl Unread {
    /// What a command then answers.
    ///
    /// # Errors
    ///
    /// Memory ran out.
    pub fn answer(self) -> Result<Outcome, AllocError>
        ensures { MatchResult result (λ o. self ≡ Told o) (λ _. self ≡ Memory) }
    {
        match self {
            Unread::Told(outcome) => Ok(outcome),
            Unread::Memory => Err(AllocError),
        }
    }
}

impl From<AllocError> for Unread {
    ghost from_gives = { λ _ e. e ≡ Unread.Memory };

    fn from(_: AllocError) -> Unread {
        Unread::Memory
    }
}

/// Those bytes of an image that are judged: all of them, or the first ones, up to one more than a device of the geometry has.
fn read_judged<F: Read>(
    alloc: Global,
    file: &mut WholeFile<F>,
    geometry: &Geometry,
) -> Result<Vec<u8>, ToolError>
    ensures bytes { IfOk result (λ v. IfSome (F.remaining file.old.reader) (λ xs. v.items ≡ seen_of geometry.now xs)) }
    ensures few { IfOk result (λ v. vec_len v ≤ geometry.now.pebs * geometry.now.peb_size + 1) }
    ensures rest { IfOk result (λ v. Consumes (F.remaining file.old.reader) (F.remaining file.new.reader) v.items) }
    ensures taken { OnErr result (TakesAtMost (geometry.now.pebs * geometry.now.peb_size + 1) (F.remaining file.old.reader) (F.remaining file.new.reader)) }
{
    let expected = file.expected;
    let device = u64::from(geometry.pebs()) * u64::from(geometry.peb_size());
    read_limited(alloc, &mut file.reader, device + 1, expected)
}

/// Those bytes of an image file that are judged.
fn read_image<D: Disk>(
    disk: &D,
    alloc: Global,
    geometry: &Geometry,
    path: &str,
) -> Result<Vec<u8>, ToolError>
    ensures few { IfOk result (λ v. vec_len v ≤ geometry.now.pebs * geometry.now.peb_size + 1) }
    ensures named { IfOk result (λ v. IsJudgedOf (D.files disk.now) path.now geometry.now v.items) }
{
    read_judged(alloc, &mut disk.whole(path)?, geometry)
}

/// The line of a geometry that breaks a limit.
pub fn limit_line(alloc: Global, limit: GeometryError) -> Result<Outcome, AllocError>
    ensures { IfOk result (λ o. Gives o (says (geometry_line limit) 2)) }
{
    Ok(Outcome::saying(geometry_line(alloc, limit)?, WRONG_WORDS))
}

/// The line of a file that can't be read.
pub fn unread_line(alloc: Global, path: &str) -> Result<Outcome, AllocError>
    ensures { IfOk result (λ o. Gives o (says (file_line (codes "cannot read ") path.now) 1)) }
{
    Ok(Outcome::saying(file_line(alloc, "cannot read ", path)?, FAILED))
}

/// What is answered for a file that couldn't be read: its line, or that memory ran out.
pub fn unread_file(alloc: Global, path: &str, error: ToolError) -> Unread
    ensures line { Tells (λ o. Gives o (says (file_line (codes "cannot read ") path.now) 1)) result }
    ensures memory { error ≡ ToolError.Memory → result ≡ Memory }
{
    if error == ToolError::Memory {
        return Unread::Memory;
    }
    match unread_line(alloc, path) {
        Ok(outcome) => Unread::Told(outcome),
        Err(AllocError) => Unread::Memory,
    }
}

/// The geometry of the numbers.
///
/// # Errors
///
/// The line of the first limit that they break, or that memory ran out.
pub fn allowed_geometry(alloc: Global, numbers: Numbers) -> Result<Geometry, Unread>
    ensures limits { IfOk result (λ g. first_broken (sizes_of numbers) ≡ None) }
    ensures sizes { IfOk result (λ g. g ≡ sizes_of numbers) }
    ensures broken { (path : List ℕ) → IfErr result (Tells (IsUnread numbers path)) }
{
    match geometry_of(numbers) {
        Ok(geometry) => Ok(geometry),
        Err(limit) => Err(Unread::Told(limit_line(alloc, limit)?)),
    }
}

/// Reads the image of a path, once its geometry is known to break no limit.
///
/// # Errors
///
/// The line of the first limit that the numbers break; that of a file that can't be read; or that memory ran out.
pub fn load<D: Disk>(
    disk: &D,
    alloc: Global,
    numbers: Numbers,
    path: &str,
) -> Result<ImageFile, Unread>
    ensures geometry { IfOk result (λ f. f.geometry ≡ sizes_of numbers) }
    ensures read { IfOk result (λ f. IsRead (sizes_of numbers) f.bytes.items) }
    ensures named { IfOk result (λ f. IsJudgedOf (D.files disk.now) path.now (sizes_of numbers) f.bytes.items) }
    ensures unread { IfErr result (Tells (IsUnread numbers path.now)) }
{
    let geometry = allowed_geometry(alloc, numbers)?;
    match read_image(disk, alloc, &geometry, path) {
        Ok(bytes) => Ok(ImageFile { geometry, bytes }),
        Err(error) => Err(unread_file(alloc, path, error)),
    }
}
