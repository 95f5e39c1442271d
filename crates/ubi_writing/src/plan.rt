//! What a command that plans steps answers: their lines, and the image after the first of them, written to a writer.

ghost use Rattle.std.specs.Prelude.{◌≡◌, ◌≢◌, ◌∷◌, ◌++◌, [], IfErr, IfOk, Ok, OnOk, take};
ghost use Rattle.std.specs.List.{flat_map};
ghost use Rattle.ubi_change.specs.Fitting.{AllWithin};
ghost use Rattle.ubi_change.specs.Pages.{programmed};
ghost use Rattle.ubi_scan.specs.Image.{IsWholeSize};
ghost use Rattle.ubi_scan.specs.Source.{Narrows, blocks_in};
ghost use Rattle.ubi_files.specs.AfterRun.{WhereNotDone, after_run};
ghost use Rattle.ubi_files.specs.Answer.{Gives, says};
ghost use Rattle.ubi_writing.specs.Plan.{IsCarryFault, cut_text, not_blank_line, plan_lines, step_line, step_words, steps_done};
ghost use Rattle.ubi_writing.specs.inner.Planning.{AreCut, HasFile};
ghost use Rattle.ubi_volume.specs.Wrote.{All, Wrote};

use std::alloc::{AllocError, Global};
use std::io::Write;
use ubi_change::{ChangeRefusal, HeldSteps, PlanError, Step, write_after};
use ubi_files::{DONE, Outcome, ToolError, put_number, put_word, refused};
use ubi_media::Geometry;
use ubi_scan::{BlockSource, StreamError};

/// Adds what a step does, and to which eraseblock and page.
fn put_step(text: &mut Vec<u8>, step: &Step) -> Result<(), AllocError>
    ensures { OnOk result (text.new.items ≡ text.old.items ++ step_words step.now) }
{
    match step {
        Step::Erase { pnum } => put_number(text, "erase block=", u64::from(*pnum)),
        Step::Program { pnum, page, .. } => {
            put_number(text, "program block=", u64::from(*pnum))?;
            put_number(text, " page=", u64::from(*page))
        }
    }
}

/// Adds the lines of steps, in order.
pub fn put_steps(text: &mut Vec<u8>, steps: &[Step]) -> Result<(), AllocError>
    ensures { OnOk result (text.new.items ≡ text.old.items ++ flat_map step_line steps.now) }
{
    for step in steps {
        put_step(text, step)?;
        put_word(text, "\n")?;
    }
    Ok(())
}

/// Adds the lines of a plan: how many steps it has, and each of them.
fn put_plan(text: &mut Vec<u8>, steps: &[Step]) -> Result<(), AllocError>
    ensures { OnOk result (text.new.items ≡ text.old.items ++ plan_lines steps.now) }
{
    put_number(text, "steps ", steps.len() as u64)?;
    put_word(text, "\n")?;
    put_steps(text, steps)
}

/// Adds the page that a step programs, if it programs one.
fn put_page(pages: &mut Vec<u8>, step: &Step) -> Result<(), AllocError>
    ensures { OnOk result (pages.new.items ≡ pages.old.items ++ programmed (step.now ∷ [])) }
{
    match step {
        Step::Program { bytes, .. } => pages.extend_from_slice(bytes.as_slice()),
        Step::Erase { .. } => Ok(()),
    }
}

/// Adds the pages that steps program, in order.
fn put_pages(pages: &mut Vec<u8>, steps: &[Step]) -> Result<(), AllocError>
    ensures { OnOk result (pages.new.items ≡ pages.old.items ++ programmed steps.now) }
{
    for step in steps {
        put_page(pages, step)?;
    }
    Ok(())
}

/// How many steps are done: as many as are asked for, or all if there are no more, or if no number is given.
fn steps_done(steps: &[Step], stop: Option<u32>) -> usize
    ensures { result ≡ steps_done steps.now stop }
{
    match stop {
        Some(stop) => steps.len().min(stop as usize),
        None => steps.len(),
    }
}

/// Writes the image of a source after the first `stop` steps of a plan (after all, if there are no more or `stop` is left
/// out), and answers with the lines of all steps. The pages that these steps program are added to `pages`. At most
/// one eraseblock of contents is held.
///
/// Space for the answer and the pages is reserved before the first byte is written.
///
/// # Errors
///
/// `Read` if a read failed, and `Write` if a write failed: the writer then received the first of the bytes.
/// `Memory` if memory ran out; then nothing is written.
pub fn carry_out<S: BlockSource, W: Write>(
    alloc: Global,
    geometry: &Geometry,
    source: &mut S,
    steps: &[Step],
    stop: Option<u32>,
    writer: &mut W,
    pages: &mut Vec<u8>,
) -> Result<Outcome, ToolError>
    requires whole { IsWholeSize geometry.now (S.known source.old).size }
    requires within { AllWithin geometry.now (blocks_in geometry.now (S.known source.old)) steps.now }
    ensures known { S.known source.new ≡ after_run (S.known source.old) result }
    ensures narrows { Narrows (S.agrees source.old) (S.agrees source.new) }
    ensures answer { IfOk result (λ o. Gives o (says (plan_lines steps.now) 0)) }
    ensures pages { OnOk result (pages.new.items ≡ pages.old.items ++ programmed (take (steps_done steps.now stop) steps.now)) }
    ensures written { IfOk result (λ _. Wrote (S.agrees source.new) (W.contents writer.old) (W.contents writer.new) (cut_text geometry.now steps.now (steps_done steps.now stop)) All 0 (S.known source.old).size) }
    ensures cut { IfOk result (λ _. AreCut geometry.now (S.agrees source.new) steps.now (steps_done steps.now stop)) }
    ensures untouched { WhereNotDone (writer.new ≡ writer.old) result }
    ensures err { IfErr result (IsCarryFault geometry.now (S.agrees source.new) steps.now (steps_done steps.now stop) (W.contents writer.old) (W.contents writer.new)) }
{
    let count = steps_done(steps, stop);
    let mut text = Vec::new(alloc);
    put_plan(&mut text, steps)?;
    put_pages(pages, &steps[..count])?;
    let mut buffer = Vec::from_elem(alloc, 0u8, geometry.peb_size() as usize)?;
    let mut done = HeldSteps {
        steps: &steps[..count],
    };
    match write_after(geometry, source, &mut done, buffer.as_mut_slice(), writer) {
        Ok(_) => Ok(Outcome::saying(text, DONE)),
        Err(StreamError::Read(_, _)) => Err(ToolError::Read),
        Err(StreamError::Write(_)) => Err(ToolError::Write),
        // Nothing is refused any more, and all memory has been allocated.
        Err(StreamError::Refused(_) | StreamError::Memory) => unreachable!(),
    }
}

/// The line of a listed eraseblock that isn't blank, for which nothing is planned.
///
/// # Errors
///
/// Memory ran out.
pub fn not_blank_line(alloc: Global, p: u32) -> Result<Vec<u8>, AllocError>
    ensures { IfOk result (λ text. text.items ≡ not_blank_line p) }
{
    refused(alloc, &PlanError::<ChangeRefusal>::NotBlank(p))
}

/// An outcome with what was written for it as its file, if the work was done.
///
/// # Errors
///
/// Memory ran out: while the work was done, or for the file.
pub fn with_file(work: Result<Outcome, ToolError>, file: Vec<u8>) -> Result<Outcome, AllocError>
    requires { IfErr work (λ e. e ≢ ToolError.Read) }
    ensures { IfOk result (λ o. (done : Outcome) × (work ≡ Ok done) × HasFile done file.items o) }
{
    match work {
        Ok(done) if done.status == DONE => Ok(Outcome {
            file: Some(file),
            ..done
        }),
        Ok(refused) => Ok(refused),
        // A vector takes all bytes, unless it can't grow.
        Err(ToolError::Write | ToolError::Memory) => Err(AllocError),
        // Reading memory doesn't fail.
        Err(ToolError::Read) => unreachable!(),
    }
}
