//! The command `rename`: the plan of a rename of a volume, and the image after its first steps.

ghost use Rattle.std.specs.Prelude.{◌≡◌, [], IfErr, IfOk, Some};
ghost use Rattle.ubi_scan.specs.Image.{image_of};
ghost use Rattle.ubi_scan.specs.Source.{Narrows};
ghost use Rattle.ubi_files.specs.AfterRun.{WhereNotDone, after_run};
ghost use Rattle.ubi_writing.specs.Rename.{IsRenameFault, Renames, RenamesFrom, rename_line};

use crate::plan::{carry_out, not_blank_line, with_file};
use std::alloc::{AllocError, Global};
use std::io::Write;
use ubi_change::{Avoided, PlanError, RenameRefusal, plan_rename_from};
use ubi_compose::shown_name;
use ubi_files::{FAILED, Outcome, ToolError, refused};
use ubi_media::Geometry;
use ubi_scan::{BlockSource, MemorySource};

/// The line of a rename that isn't planned.
///
/// # Errors
///
/// Memory ran out, now or for the plan.
fn rename_line(alloc: Global, cause: RenameRefusal) -> Result<Vec<u8>, AllocError>
    ensures { IfOk result (λ text. rename_line cause ≡ Some text.items) }
{
    match cause {
        RenameRefusal::Memory => Err(AllocError),
        _ => refused(alloc, &cause),
    }
}

/// Plans the rename of a volume of a source to the name that a word shows, byte by byte, or as `\x` and two hexadecimal
/// digits. The plan touches none of the eraseblocks that are to be avoided. It answers with the lines of all steps, writes the
/// image after the first `stop` of them (after all, if there are no more or `stop` is left out), and adds the pages that these
/// program to `pages`. At most one eraseblock of contents is held.
///
/// If the word shows no name, nothing is read. If it shows none, or no rename can be planned, it answers with the line of the
/// first cause, and nothing is written. What is written is accepted as an image whatever `stop` is, and means the old or the
/// renamed.
///
/// # Errors
///
/// `Read` if a read failed, and `Write` if a write failed: the writer then received the first of the bytes, or none.
/// `Memory` if memory ran out; then nothing is written.
pub fn run_rename_from<S: BlockSource, W: Write>(
    alloc: Global,
    geometry: &Geometry,
    source: &mut S,
    avoided: &Avoided<'_>,
    id: u32,
    word: &[u8],
    stop: Option<u32>,
    writer: &mut W,
    pages: &mut Vec<u8>,
) -> Result<Outcome, ToolError>
    requires { pages.old.items ≡ [] }
    ensures known { S.known source.new ≡ after_run (S.known source.old) result }
    ensures narrows { Narrows (S.agrees source.old) (S.agrees source.new) }
    ensures ok { IfOk result (RenamesFrom avoided.now id word.now stop geometry.now (S.known source.old) (S.agrees source.new) pages.new.items (W.contents writer.old) (W.contents writer.new)) }
    ensures untouched { WhereNotDone (writer.new ≡ writer.old) result }
    ensures err { IfErr result (IsRenameFault avoided.now id word.now stop geometry.now (S.known source.old) (S.agrees source.new) (W.contents writer.old) (W.contents writer.new)) }
{
    let Some(name) = shown_name(word) else {
        let line = rename_line(alloc, RenameRefusal::BadName)?;
        return Ok(Outcome::saying(line, FAILED));
    };
    match plan_rename_from(alloc, geometry, source, avoided, id, name.as_bytes()) {
        Ok(steps) => carry_out(
            alloc,
            geometry,
            source,
            steps.as_slice(),
            stop,
            writer,
            pages,
        ),
        Err(PlanError::NotBlank(p)) => Ok(Outcome::saying(not_blank_line(alloc, p)?, FAILED)),
        Err(PlanError::Refused(cause)) => {
            Ok(Outcome::saying(rename_line(alloc, cause)?, FAILED))
        }
        Err(PlanError::Read(_)) => Err(ToolError::Read),
    }
}

/// Plans the rename of a volume to the name that a word shows, as [`run_rename_from`] does. It answers with the lines of all
/// steps, and as the file the image after the first `stop` of them (after all, if there are no more or `stop` is left out).
///
/// If the word shows no name, or no rename can be planned, it answers with the line of the first cause, and no file. The
/// file is accepted as an image whatever `stop` is, and means the old or the renamed.
///
/// # Errors
///
/// Memory ran out.
pub fn run_rename(
    alloc: Global,
    geometry: &Geometry,
    image: &[u8],
    id: u32,
    word: &[u8],
    stop: Option<u32>,
) -> Result<Outcome, AllocError>
    ensures { IfOk result (Renames (image_of geometry.now image.now) id word.now stop) }
{
    let mut file = Vec::new(alloc);
    let mut source = MemorySource::new(image);
    let nothing = Avoided::nothing();
    let mut pages = Vec::new(alloc);
    let work = run_rename_from(
        alloc,
        geometry,
        &mut source,
        &nothing,
        id,
        word,
        stop,
        &mut file,
        &mut pages,
    );
    with_file(work, file)
}
