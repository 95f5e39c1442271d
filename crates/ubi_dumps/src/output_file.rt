//! The output file that the words of a command name.

ghost use Rattle.std.specs.Io.KnownBytes.{Appends};
ghost use Rattle.std.specs.Option.{ForSome};
ghost use Rattle.std.specs.Prelude.{◌≡◌, IfOk, IsSome, None, OnErr, OnOk, Some, codes, true};
ghost use Rattle.ubi_files.specs.Answer.{Gives, says};
ghost use Rattle.ubi_files.specs.Disk.{AllStay, IsKept, OthersStay, Receives, Stays, fresh};
ghost use Rattle.ubi_files.specs.Late.{contents_of};
ghost use Rattle.ubi_files.specs.Lines.{file_line};
ghost use Rattle.ubi_dumps.specs.FileAnswers.{WritesFile};

use std::alloc::{AllocError, Global};
use std::marker::Brand;
use ubi_files::{Disk, FAILED, LateFile, Outcome, OutputFile, Target, ToolError, file_line};
use ubi_volume::write_all;

/// The line of a file that can't be written.
pub fn unwritten_line(alloc: Global, path: &str) -> Result<Outcome, AllocError>
    ensures { IfOk result (λ o. Gives o (says (file_line (codes "cannot write ") path.now) 1)) }
{
    Ok(Outcome::saying(file_line(alloc, "cannot write ", path)?, FAILED))
}

/// Closes a file, if it was opened.
pub fn keep_file<D: Disk>(disk: &mut D, file: Option<OutputFile<'_, D::Output>>)
    ensures kept { ForSome file.entry (λ f. IsKept (D.files disk.old) (D.files disk.new) f.path.now (D.Output.contents f.writer)) }
    ensures none { file.entry ≡ None → disk.new ≡ disk.old }
{
    if let Some(file) = file {
        disk.keep(file);
    }
}

/// Writes all of the bytes to a file, which is opened anew, even if there are none.
fn write_late<D: Disk, K: Target>(
    late: &mut LateFile<'_, '_, D, K>,
    bytes: &[u8],
) -> Result<(), ToolError>
    requires { late.old.file ≡ None }
    ensures received { OnOk result (Appends (fresh K.files) (contents_of (fresh K.files) (λ f. D.Output.contents f.writer) late.new.file) bytes.now) }
    ensures opened { OnOk result (IsSome late.new.file) }
{
    let Ok(()) = write_all(late, bytes) else {
        return Err(ToolError::Write);
    };
    match late.finish() {
        Ok(()) => Ok(()),
        Err(_) => Err(ToolError::Write),
    }
}

/// Where an output is written.
#[derive(Clone, Copy)]
pub struct Output<'a> {
    /// The path of its file.
    pub path: &'a str,
}

/// Writes bytes to the file of an output, and closes it. Returns the disk.
fn write_to<'a, D: Disk, K: Target>(
    disk: &'a mut D,
    bytes: &[u8],
    output: Output<'_>,
) -> (&'a mut D, Result<(), ToolError>)
    requires same { disk.ghost_name ≡ K.disk }
    requires named { output.path.now ≡ K.path }
    requires files { D.files disk.old ≡ K.files }
    requires allowed { K.may_open ≡ true }
    ensures same { result.0.ghost_name ≡ K.disk }
    ensures received { OnOk result.1 (Receives K.files (D.files result.0.now) K.path (Some bytes.now)) }
    ensures others { OthersStay K.files (D.files result.0.now) K.path }
{
    let mut late: LateFile<'a, '_, D, K> = LateFile::new(disk, output.path, true);
    let work = write_late(&mut late, bytes);
    let (disk, file) = late.into_parts();
    keep_file(disk, file);
    (disk, work)
}

/// Writes bytes to the file of an output, which is opened anew, and closes it.
pub fn write_bytes<D: Disk>(disk: &mut D, bytes: &[u8], output: Output<'_>) -> Result<(), ToolError>
    ensures received { OnOk result (Receives (D.files disk.old) (D.files disk.new) output.entry.path.now (Some bytes.now)) }
    ensures others { OthersStay (D.files disk.old) (D.files disk.new) output.entry.path.now }
{
    let (_, work) = write_to::<D, Brand>(disk, bytes, output);
    work
}

/// Writes the file of an outcome, if it has one, and answers with the outcome, or with the line of a file that can't be
/// written. No file is opened for an outcome without one, nor one that may be the file at `read`.
pub fn write_outcome<D: Disk>(
    disk: &mut D,
    alloc: Global,
    outcome: Outcome,
    path: &str,
    read: &str,
) -> Result<Outcome, AllocError>
    ensures answer { IfOk result (WritesFile path.now (D.files disk.old) (D.files disk.new) outcome) }
    ensures others { OthersStay (D.files disk.old) (D.files disk.new) path.now }
    ensures read { Stays (D.files disk.old) (D.files disk.new) read.now }
    ensures memory { OnErr result (AllStay (D.files disk.old) (D.files disk.new)) }
{
    let Some(bytes) = &outcome.file else {
        return Ok(outcome);
    };
    // Made before the file is opened, so that nothing is written if memory runs out.
    let unwritten = unwritten_line(alloc, path)?;
    if disk.may_be_one(read, path) {
        return Ok(unwritten);
    }
    match write_bytes(disk, bytes.as_slice(), Output { path }) {
        Ok(()) => Ok(outcome),
        Err(_) => Ok(unwritten),
    }
}
