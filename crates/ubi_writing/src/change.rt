//! The command `change`: the plan of an atomic change of an image, and the image after its first steps.

ghost use Rattle.std.specs.Prelude.{◌≡◌, [], IfErr, IfOk, Some};
ghost use Rattle.ubi_scan.specs.Image.{image_of};
ghost use Rattle.ubi_scan.specs.Source.{Narrows};
ghost use Rattle.ubi_files.specs.AfterRun.{WhereNotDone, after_run};
ghost use Rattle.ubi_writing.specs.Change.{Changes, ChangesFrom, IsChangeFault, cause_line};

use crate::plan::{carry_out, not_blank_line, with_file};
use std::alloc::{AllocError, Global};
use std::io::Write;
use ubi_change::{Avoided, ChangeRefusal, PlanError, plan_change_from};
use ubi_files::{FAILED, Outcome, ToolError, refused};
use ubi_media::Geometry;
use ubi_scan::{BlockSource, MemorySource};

/// The line of a change that isn't planned.
///
/// # Errors
///
/// Memory ran out, now or for the plan.
fn cause_line(alloc: Global, cause: ChangeRefusal) -> Result<Vec<u8>, AllocError>
    ensures { IfOk result (λ text. cause_line cause ≡ Some text.items) }
{
    match cause {
        ChangeRefusal::Memory => Err(AllocError),
        _ => refused(alloc, &cause),
    }
}

/// New bytes for a logical eraseblock of a volume.
#[derive(Clone, Copy)]
pub struct NewBytes<'a> {
    /// The number of the volume.
    pub id: u32,
    /// The number of the logical eraseblock.
    pub lnum: u32,
    /// The bytes.
    pub bytes: &'a [u8],
}

/// Plans the change of a logical eraseblock of a dynamic volume of a source. The plan touches none of the eraseblocks that
/// are to be avoided. It answers with the lines of all steps, writes the image after the first `stop` of them (after all, if
/// there are no more or `stop` is left out), and adds the pages that these program to `pages`. At most one eraseblock of
/// contents is held.
///
/// If no change can be planned, it answers with the line of the first cause, and nothing is written. What is written is
/// accepted as an image whatever `stop` is, and means the old or the new.
///
/// # Errors
///
/// `Read` if a read failed, and `Write` if a write failed: the writer then received the first of the bytes, or none.
/// `Memory` if memory ran out; then nothing is written.
pub fn run_change_from<S: BlockSource, W: Write>(
    alloc: Global,
    geometry: &Geometry,
    source: &mut S,
    avoided: &Avoided<'_>,
    new: &NewBytes<'_>,
    stop: Option<u32>,
    writer: &mut W,
    pages: &mut Vec<u8>,
) -> Result<Outcome, ToolError>
    requires { pages.old.items ≡ [] }
    ensures known { S.known source.new ≡ after_run (S.known source.old) result }
    ensures narrows { Narrows (S.agrees source.old) (S.agrees source.new) }
    ensures ok { IfOk result (ChangesFrom avoided.now new.now.id new.now.lnum new.now.bytes.now stop geometry.now (S.known source.old) (S.agrees source.new) pages.new.items (W.contents writer.old) (W.contents writer.new)) }
    ensures untouched { WhereNotDone (writer.new ≡ writer.old) result }
    ensures err { IfErr result (IsChangeFault avoided.now new.now.id new.now.lnum new.now.bytes.now stop geometry.now (S.known source.old) (S.agrees source.new) (W.contents writer.old) (W.contents writer.new)) }
{
    let NewBytes { id, lnum, bytes } = *new;
    match plan_change_from(alloc, geometry, source, avoided, id, lnum, bytes) {
        Ok(steps) => carry_out(
            alloc,
            geometry,
            source,
            steps.as_slice(),
            stop,
            writer,
            pages,
        ),
        Err(PlanError::NotBlank(p)) => Ok(Outcome::saying(not_blank_line(alloc, p)?, FAILED)),
        Err(PlanError::Refused(cause)) => { Ok(Outcome::saying(cause_line(alloc, cause)?, FAILED)) }
        Err(PlanError::Read(_)) => Err(ToolError::Read),
    }
}

/// Plans the change of a logical eraseblock of a dynamic volume. It answers with the lines of all steps, and as the file
/// the image after the first `stop` of them (after all, if there are no more or `stop` is left out).
///
/// If no change can be planned, it answers with the line of the first cause, and no file. The file is accepted as an
/// image whatever `stop` is, and means the old or the new.
///
/// # Errors
///
/// Memory ran out.
pub fn run_change(
    alloc: Global,
    geometry: &Geometry,
    image: &[u8],
    id: u32,
    lnum: u32,
    new: &[u8],
    stop: Option<u32>,
) -> Result<Outcome, AllocError>
    ensures { IfOk result (Changes (image_of geometry.now image.now) id lnum new.now stop) }
{
    let new = NewBytes {
        id,
        lnum,
        bytes: new,
    };
    let mut file = Vec::new(alloc);
    let mut source = MemorySource::new(image);
    let nothing = Avoided::nothing();
    let mut pages = Vec::new(alloc);
    let work = run_change_from(
        alloc,
        geometry,
        &mut source,
        &nothing,
        &new,
        stop,
        &mut file,
        &mut pages,
    );
    with_file(work, file)
}
