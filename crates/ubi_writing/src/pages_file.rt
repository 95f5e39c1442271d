//! Pages that are written to a file.

ghost use Rattle.std.specs.Io.KnownBytes.{Appends};
ghost use Rattle.std.specs.Prelude.{◌≡◌, IsSome, None, OnOk, Some, length, true};
ghost use Rattle.ubi_change.specs.Laying.{StaysOpen};
ghost use Rattle.ubi_files.specs.Disk.{OthersStay, Receives, fresh};
ghost use Rattle.ubi_files.specs.Late.{contents_of};
ghost use Rattle.ubi_scan.specs.Source.{Narrows, WhereHeld};
ghost use Rattle.ubi_writing.specs.Pages.{IsSoundPages, pages_made};

use crate::pages::Pages;
use std::marker::Brand;
use ubi_dumps::{Output, keep_file};
use ubi_files::{Disk, LateFile, Target, ToolError};
use ubi_scan::BlockSource;

/// Writes all pages to a file, which is opened anew, even if there are none.
fn write_late<D: Disk, T: BlockSource, K: Target>(
    late: &mut LateFile<'_, '_, D, K>,
    pages: &mut Pages<T>,
) -> Result<(), ToolError>
    requires file { late.old.file ≡ None }
    requires sound { IsSoundPages (T.known pages.old.contents).size (T.agrees pages.old.contents) (length pages.old.buffer.items) pages.old.made }
    ensures made { pages.new.made ≡ pages.old.made }
    ensures contents { StaysOpen (T.known pages.old.contents) (T.known pages.new.contents) }
    ensures sound { IsSoundPages (T.known pages.new.contents).size (T.agrees pages.new.contents) (length pages.new.buffer.items) pages.new.made }
    ensures narrows { Narrows (T.agrees pages.old.contents) (T.agrees pages.new.contents) }
    ensures received { OnOk result (WhereHeld (T.agrees pages.new.contents) (λ bytes. Appends (fresh K.files) (contents_of (fresh K.files) (λ f. D.Output.contents f.writer) late.new.file) (pages_made pages.new.made bytes))) }
    ensures opened { OnOk result (IsSome late.new.file) }
{
    pages.write_to(late)?;
    match late.finish() {
        Ok(()) => Ok(()),
        Err(_) => Err(ToolError::Write),
    }
}

/// Writes all pages to the file at a path, and closes it. Returns the disk.
fn write_at<'a, D: Disk, T: BlockSource, K: Target>(
    disk: &'a mut D,
    pages: &mut Pages<T>,
    output: Output<'_>,
) -> (&'a mut D, Result<(), ToolError>)
    requires sound { IsSoundPages (T.known pages.old.contents).size (T.agrees pages.old.contents) (length pages.old.buffer.items) pages.old.made }
    requires same { disk.ghost_name ≡ K.disk }
    requires named { output.path.now ≡ K.path }
    requires files { D.files disk.old ≡ K.files }
    requires allowed { K.may_open ≡ true }
    ensures same { result.0.ghost_name ≡ K.disk }
    ensures made { pages.new.made ≡ pages.old.made }
    ensures contents { StaysOpen (T.known pages.old.contents) (T.known pages.new.contents) }
    ensures sound { IsSoundPages (T.known pages.new.contents).size (T.agrees pages.new.contents) (length pages.new.buffer.items) pages.new.made }
    ensures narrows { Narrows (T.agrees pages.old.contents) (T.agrees pages.new.contents) }
    ensures received { OnOk result.1 (WhereHeld (T.agrees pages.new.contents) (λ bytes. Receives K.files (D.files result.0.now) K.path (Some (pages_made pages.new.made bytes)))) }
    ensures others { OthersStay K.files (D.files result.0.now) K.path }
{
    let mut late: LateFile<'a, '_, D, K> = LateFile::new(disk, output.path, true);
    let work = write_late(&mut late, pages);
    let (disk, file) = late.into_parts();
    keep_file(disk, file);
    (disk, work)
}

/// Writes all pages to the file at a path, which is opened anew, and closes it.
///
/// # Errors
///
/// `Write` if the file can't be written, or if the pages couldn't be made, since a read of contents failed or memory ran out.
pub fn write_pages_file<D: Disk, T: BlockSource>(
    disk: &mut D,
    pages: &mut Pages<T>,
    output: Output<'_>,
) -> Result<(), ToolError>
    requires { IsSoundPages (T.known pages.old.contents).size (T.agrees pages.old.contents) (length pages.old.buffer.items) pages.old.made }
    ensures made { pages.new.made ≡ pages.old.made }
    ensures contents { StaysOpen (T.known pages.old.contents) (T.known pages.new.contents) }
    ensures sound { IsSoundPages (T.known pages.new.contents).size (T.agrees pages.new.contents) (length pages.new.buffer.items) pages.new.made }
    ensures narrows { Narrows (T.agrees pages.old.contents) (T.agrees pages.new.contents) }
    ensures received { OnOk result (WhereHeld (T.agrees pages.new.contents) (λ bytes. Receives (D.files disk.old) (D.files disk.new) output.entry.path.now (Some (pages_made pages.new.made bytes)))) }
    ensures others { OthersStay (D.files disk.old) (D.files disk.new) output.entry.path.now }
{
    let (_, work) = write_at::<D, T, Brand>(disk, pages, output);
    work
}
