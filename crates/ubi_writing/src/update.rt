//! Edits of whole volumes that are asked for by name: their plan, and the image after its first steps.

ghost use Rattle.std.specs.List.{flat_map};
ghost use Rattle.std.specs.Prelude.{◌≡◌, ◌<◌, ◌+◌, ◌++◌, ◌∷◌, [], ℕ, IfErr, IfOk, IfSome, List, OnOk, Some, codes, length, map, slice_get};
ghost use Rattle.ubi_scan.specs.Image.{IsWholeSize, image_of};
ghost use Rattle.ubi_scan.specs.Source.{Narrows, WhereHeld};
ghost use Rattle.ubi_change.specs.Laying.{StaysOpen};
ghost use Rattle.ubi_change.specs.Steps.{after_text};
ghost use Rattle.ubi_change.specs.UpdatePlan.{FitsUpdate, IsLaidFrom, in_order, plan_groups};
ghost use Rattle.ubi_change.specs.declared.step.Step.{Step};
ghost use Rattle.ubi_volume.specs.Wrote.{All, Wrote};
ghost use Rattle.ubi_files.specs.Answer.{Gives, says};
ghost use Rattle.ubi_files.specs.AfterRun.{WhereNotDone, after_run};
ghost use Rattle.ubi_files.specs.Lines.{refused_line};
ghost use Rattle.ubi_writing.specs.Pages.{IsReadyFor, IsSoundPages, made_steps, pages_made};
ghost use Rattle.ubi_writing.specs.Plan.{IsWriteFault, step_line, steps_done};
ghost use Rattle.ubi_writing.specs.Asks.{asked_edits};
ghost use Rattle.ubi_writing.specs.Update.{AreEditsOf, IsUpdateFault, UpdatesFrom, all_replaced, asked_words, no_edit_line, replaced_by, replaced_words, unfit_text, unread_contents_line, update_line, volume_line, written_lines};
ghost use Rattle.ubi_writing.specs.inner.Editing.{AreStepCounts, AreNoEdits, IsFaultOf, IsHeldPlan, IsToldOf, IsUnreadImage, WritesNothing, after_edits};
ghost use Rattle.ubi_files.specs.declared.outcome.ToolError.{ToolError};
ghost use Rattle.ubi_writing.specs.declared.asks.Ask.{Ask};
ghost use Rattle.ubi_writing.specs.declared.pages.Made.{Made};
ghost use Rattle.ubi_writing.specs.declared.update.NoEdits.{NoEdits};

use crate::asks::{Ask, Edits, Unasked, add_written, edits_for, named_by};
use crate::pages::{Made, MadeEdits, Pages};
use crate::plan::{not_blank_line, put_steps};
use std::alloc::{AllocError, Global};
use std::fmt;
use std::io::Write;
use ubi_change::{
    Avoided, Edit, UpdateError, UpdatePlan, UpdateRefusal, plan_update_from, write_after,
};
use ubi_dumps::put_shown;
use ubi_files::{
    DONE, FAILED, Outcome, ToolError, put_number, put_word, refusal_line, refused, unread_line,
};
use ubi_laid::Part;
use ubi_media::Geometry;
use ubi_scan::{BlockSource, StreamError};
use ubi_table::Table;
use ubi_volume::survey_from;

/// The volume that the one of an edit replaces; a new one replaces none. `None` if the edit writes no volume.
fn replaced_by(edit: &Edit) -> Option<Option<u32>>
    ensures { result ≡ replaced_by edit.now }
{
    match edit {
        Edit::Replace(id, _) => Some(Some(*id)),
        Edit::Create(_) => Some(None),
        Edit::Rename(..) | Edit::Resize(..) | Edit::Remove(_) => None,
    }
}

/// The volumes that those of edits replace, in their order.
///
/// # Errors
///
/// Memory ran out.
fn all_replaced(alloc: Global, edits: &[Edit]) -> Result<Vec<Option<u32>>, AllocError>
    ensures { IfOk result (λ olds. olds.items ≡ all_replaced edits.now) }
{
    let mut olds = Vec::new(alloc);
    for i in 0..edits.len() {
        if let Some(old) = replaced_by(&edits[i]) {
            olds.push(old)?;
        }
    }
    Ok(olds)
}

/// Adds what a volume replaces.
fn put_replaced(text: &mut Vec<u8>, old: Option<u32>) -> Result<(), AllocError>
    ensures { OnOk result (text.new.items ≡ text.old.items ++ replaced_words old) }
{
    match old {
        Some(id) => put_number(text, " replaces ", u64::from(id)),
        None => put_word(text, " new"),
    }
}

/// Adds the line of a volume that is written.
fn put_volume(
    alloc: Global,
    text: &mut Vec<u8>,
    lebs: usize,
    part: &Part,
    old: Option<u32>,
) -> Result<(), AllocError>
    ensures { OnOk result (text.new.items ≡ text.old.items ++ volume_line lebs part.now old) }
{
    put_number(text, "volume ", u64::from(part.id))?;
    put_replaced(text, old)?;
    put_number(text, " lebs=", lebs as u64)?;
    put_word(text, " name=")?;
    put_shown(alloc, text, part.entry.name.as_bytes())?;
    put_word(text, "\n")
}

/// The lines of the volumes that a plan writes.
///
/// # Errors
///
/// Memory ran out.
fn written_lines(alloc: Global, plan: &UpdatePlan, edits: &[Edit]) -> Result<Vec<u8>, AllocError>
    ensures { IfOk result (λ text. text.items ≡ written_lines plan.now.layings.items plan.now.parts.items (all_replaced edits.now)) }
{
    let olds = all_replaced(alloc, edits)?;
    let parts = plan.parts();
    let mut text = Vec::new(alloc);
    for i in 0..parts.len().min(olds.len()) {
        let part = &parts[i];
        put_volume(alloc, &mut text, plan.leb_count(part.id), part, olds[i])?;
    }
    Ok(text)
}

/// The words of a refusal, by what is printed for its cause.
///
/// # Errors
///
/// Memory ran out.
fn refused_words<C: fmt::Display>(alloc: Global, cause: &C) -> Result<Vec<u8>, AllocError>
    ensures { IfOk result (λ words. IfSome (C.output cause.now) (λ text. words.items ≡ codes "refused " ++ text)) }
{
    Ok(format!(in alloc; "refused {cause}")?.into_bytes())
}

/// Adds the name under which something is asked, if anything is.
fn put_asked(
    alloc: Global,
    text: &mut Vec<u8>,
    asked: &Edits<'_>,
    i: usize,
) -> Result<(), AllocError>
    ensures { OnOk result (text.new.items ≡ text.old.items ++ asked_words (asked_edits asked.now) i) }
{
    if let Some(ask) = asked.asks.get(i) {
        put_word(text, " name=")?;
        return put_word(text, ask.name());
    }
    match asked.volumes.get(i - asked.asks.len()) {
        Some(volume) => {
            put_word(text, " name=")?;
            put_shown(alloc, text, volume.entry.name.as_bytes())
        }
        None => Ok(()),
    }
}

/// The line of a cause, with the name under which something is asked.
///
/// # Errors
///
/// Memory ran out.
fn named_line<C: fmt::Display>(
    alloc: Global,
    asked: &Edits<'_>,
    i: usize,
    cause: &C,
) -> Result<Vec<u8>, AllocError>
    ensures { IfOk result (λ line. IfSome (C.output cause.now) (λ text. line.items ≡ refused_line (text ++ asked_words (asked_edits asked.now) i))) }
{
    let mut text = refused_words(alloc, cause)?;
    put_asked(alloc, &mut text, asked, i)?;
    put_word(&mut text, "\n")?;
    Ok(text)
}

/// The line of edits that aren't planned.
///
/// # Errors
///
/// Memory ran out, now or for the plan.
fn update_line(
    alloc: Global,
    asked: &Edits<'_>,
    cause: UpdateRefusal,
) -> Result<Vec<u8>, AllocError>
    ensures { IfOk result (λ text. update_line (asked_edits asked.now) cause ≡ Some text.items) }
{
    match cause {
        UpdateRefusal::Memory => Err(AllocError),
        UpdateRefusal::Edit(i, fault) => named_line(alloc, asked, i, &fault),
        _ => refused(alloc, &cause),
    }
}

/// What is wrong with the value of a word.
fn unfit_text(ask: &Ask<'_>) -> &'static str
    ensures { result.now ≡ unfit_text ask.now }
{
    match ask {
        Ask::Resize(_) => "U9 BadSize",
        Ask::Rename(_) | Ask::Remove(_) | Ask::Contents(..) => "N1 BadName",
    }
}

/// The line of what stands for no edit.
///
/// # Errors
///
/// Memory ran out.
fn no_edit_line(
    alloc: Global,
    table: &Table,
    asked: &Edits<'_>,
    i: usize,
) -> Result<Vec<u8>, AllocError>
    requires { i < length asked.now.asks.now }
    ensures { IfOk result (λ line. (ask : Ask) → slice_get asked.now.asks.now i ≡ Some ask → line.items ≡ no_edit_line table.now (asked_edits asked.now) i ask) }
{
    let ask = &asked.asks[i];
    let cause = match named_by(table, ask.name()) {
        Some(_) => unfit_text(ask),
        None => "U1 NoVolume",
    };
    named_line(alloc, asked, i, &cause)
}

/// Why there are no edits to plan.
#[derive(Drop)]
enum NoEdits {
    /// The image is refused, or what is asked stands for no edit: the line that says so.
    Told(Vec<u8>),
    /// A read failed, or memory ran out.
    Fault(ToolError),
}

impl From<AllocError> for NoEdits {
    ghost from_gives = { λ _ e. e ≡ NoEdits.Fault ToolError.Memory };

    fn from(_: AllocError) -> NoEdits {
        NoEdits::Fault(ToolError::Memory)
    }
}

/// Why an image can't be read for edits.
///
/// # Errors
///
/// Memory ran out, before or now.
fn unread(alloc: Global, error: StreamError) -> NoEdits
    requires { WritesNothing error }
    ensures { IsUnreadImage error result }
{
    match error {
        StreamError::Refused(cause) => match refusal_line(alloc, cause) {
            Ok(line) => NoEdits::Told(line),
            Err(AllocError) => NoEdits::Fault(ToolError::Memory),
        },
        StreamError::Read(_, _) => NoEdits::Fault(ToolError::Read),
        StreamError::Memory => NoEdits::Fault(ToolError::Memory),
        // Nothing is written.
        StreamError::Write(_) => unreachable!(),
    }
}

/// The edits that are asked for, of the image of a source.
///
/// # Errors
///
/// The line of an image that is refused, or of what stands for no edit; or a read failed, or memory ran out.
fn edits_from<S: BlockSource>(
    alloc: Global,
    geometry: &Geometry,
    source: &mut S,
    asked: &Edits<'_>,
) -> Result<Vec<Edit>, NoEdits>
    ensures known { S.known source.new ≡ after_edits (S.known source.old) result }
    ensures narrows { Narrows (S.agrees source.old) (S.agrees source.new) }
    ensures edits { IfOk result (λ edits. WhereHeld (S.agrees source.new) (λ bytes. AreEditsOf (image_of geometry.now bytes) (asked_edits asked.now) edits.items)) }
    ensures refused { IfErr result (AreNoEdits geometry.now (S.known source.old) (S.agrees source.new) (asked_edits asked.now)) }
{
    let surveyed = match survey_from(alloc, geometry, source) {
        Ok(surveyed) => surveyed,
        Err(error) => return Err(unread(alloc, error)),
    };
    let table = surveyed.table();
    match edits_for(alloc, table, asked.asks) {
        Ok(mut edits) => {
            add_written(table, &mut edits, asked.volumes)?;
            Ok(edits)
        }
        Err(Unasked::NoEdit(i)) => Err(NoEdits::Told(no_edit_line(alloc, table, asked, i)?)),
        Err(Unasked::Memory) => Err(NoEdits::Fault(ToolError::Memory)),
    }
}

/// What is answered if the contents of the i-th of the volumes that are written can't be read. Their files have these paths.
///
/// # Errors
///
/// Memory ran out.
fn unread_contents(alloc: Global, paths: &[&str], i: usize) -> Result<Outcome, AllocError>
    ensures { IfOk result (λ o. Gives o (says (unread_contents_line (map (λ p. p.now) paths.now) i) 1)) }
{
    let path = match paths.get(i) {
        Some(path) => path,
        None => "",
    };
    unread_line(alloc, path)
}

/// What is answered for edits that aren't planned.
///
/// # Errors
///
/// A read of the image failed, or memory ran out.
fn unplanned(alloc: Global, asked: &Edits<'_>, error: UpdateError) -> Result<Outcome, ToolError>
    ensures ok { IfOk result (IsToldOf (asked_edits asked.now) error) }
    ensures err { IfErr result (λ e. IsFaultOf error e) }
{
    match error {
        UpdateError::Refused(cause) => {
            Ok(Outcome::saying(update_line(alloc, asked, cause)?, FAILED))
        }
        UpdateError::NotBlank(p) => Ok(Outcome::saying(not_blank_line(alloc, p)?, FAILED)),
        UpdateError::Beyond(_) => Ok(Outcome::saying(refused(alloc, &error)?, FAILED)),
        UpdateError::Contents(i) => Ok(unread_contents(alloc, asked.paths, i)?),
        UpdateError::Read(_) => Err(ToolError::Read),
    }
}

/// How many steps a plan of edits has, in all and in each group.
#[derive(Drop)]
struct Counted {
    counts: Vec<usize>,
    total: usize,
}

impl Counted {
    /// Adds a group with so many steps.
    ///
    /// # Errors
    ///
    /// Memory ran out.
    fn add(&mut self, count: usize) -> Result<(), AllocError>
        ensures counts { OnOk result (self.new.counts.items ≡ self.old.counts.items ++ (count ∷ [])) }
        ensures total { OnOk result (self.new.total ≡ self.old.total + count) }
    {
        self.counts.push(count)?;
        let Some(total) = self.total.checked_add(count) else {
            return Err(AllocError);
        };
        self.total = total;
        Ok(())
    }
}

/// Counts the steps of a plan.
///
/// # Errors
///
/// Memory ran out.
fn count_steps(alloc: Global, geometry: &Geometry, plan: &UpdatePlan) -> Result<Counted, AllocError>
    requires { (n : ℕ) × FitsUpdate geometry.now n plan.now }
    ensures counted { IfOk result (λ counted. (bytes : List ℕ) → IsLaidFrom geometry.now bytes plan.now → AreStepCounts (plan_groups geometry.now plan.now bytes) counted) }
    ensures groups { IfOk result (λ counted. length counted.counts.items ≡ length plan.now.layings.items + 2) }
{
    let mut counted = Counted {
        counts: Vec::new(alloc),
        total: 0,
    };
    for k in 0..plan.group_count() {
        let group = plan.outline(alloc, geometry, k)?;
        counted.add(group.len())?;
    }
    Ok(counted)
}

/// Adds the lines of the steps of a plan.
///
/// # Errors
///
/// Memory ran out.
fn put_plan(
    alloc: Global,
    text: &mut Vec<u8>,
    geometry: &Geometry,
    plan: &UpdatePlan,
) -> Result<(), AllocError>
    requires { (n : ℕ) × FitsUpdate geometry.now n plan.now }
    ensures { OnOk result ((bytes : List ℕ) → IsLaidFrom geometry.now bytes plan.now
        → text.new.items ≡ text.old.items ++ flat_map step_line (in_order (plan_groups geometry.now plan.now bytes))) }
{
    for k in 0..plan.group_count() {
        let group = plan.outline(alloc, geometry, k)?;
        put_steps(text, group.as_slice())?;
    }
    Ok(())
}

/// How many of some steps are done: as many as are asked for, or all if there are no more, or if no number is given.
fn done_of(total: usize, stop: Option<u32>) -> usize
    ensures { (steps : List Step) → total ≡ length steps → result ≡ steps_done steps stop }
{
    match stop {
        Some(stop) => total.min(stop as usize),
        None => total,
    }
}

/// Makes the pages those of a plan whose first steps are carried out, and answers with the given lines and then those of all steps.
///
/// # Errors
///
/// Memory ran out.
fn hold_plan<T: BlockSource>(
    alloc: Global,
    geometry: &Geometry,
    plan: UpdatePlan,
    lines: Vec<u8>,
    stop: Option<u32>,
    pages: &mut Pages<T>,
) -> Result<Vec<u8>, AllocError>
    requires fits { FitsUpdate geometry.now (T.known pages.old.contents).size plan }
    requires laid { WhereHeld (T.agrees pages.old.contents) (λ bytes. IsLaidFrom geometry.now bytes plan) }
    requires nothing { pages.old.made ≡ Made.Nothing }
    ensures contents { pages.new.contents ≡ pages.old.contents }
    ensures ready { OnOk result (IsReadyFor geometry.now (T.known pages.new.contents).size (T.agrees pages.new.contents) (length pages.new.buffer.items) pages.new.made) }
    ensures sound { IsSoundPages (T.known pages.new.contents).size (T.agrees pages.new.contents) (length pages.new.buffer.items) pages.new.made }
    ensures held { IfOk result (λ text. IsHeldPlan geometry.now plan stop (T.agrees pages.new.contents) lines.items pages.new.made text.items) }
{
    let Counted { counts, total } = count_steps(alloc, geometry, &plan)?;
    let mut text = lines;
    put_number(&mut text, "steps ", total as u64)?;
    put_word(&mut text, "\n")?;
    put_plan(alloc, &mut text, geometry, &plan)?;
    pages.buffer = Vec::from_elem(alloc, 0u8, geometry.peb_size() as usize)?;
    pages.made = Made::Edits(MadeEdits {
        geometry: *geometry,
        plan,
        counts,
        stop: done_of(total, stop),
    });
    Ok(text)
}

/// Writes the image of a source after the first steps of a plan of edits, and answers with the lines of the plan.
///
/// # Errors
///
/// `Read` if a read of the image failed. `Write` if a write failed, or if steps couldn't be made, since a read of contents failed or
/// memory ran out: the writer then received the first of the bytes. `Memory` if memory ran out; then nothing is written.
fn write_planned<S: BlockSource, T: BlockSource, W: Write>(
    alloc: Global,
    geometry: &Geometry,
    source: &mut S,
    text: Vec<u8>,
    writer: &mut W,
    pages: &mut Pages<T>,
) -> Result<Outcome, ToolError>
    requires whole { IsWholeSize geometry.now (S.known source.old).size }
    requires ready { IsReadyFor geometry.now (T.known pages.old.contents).size (T.agrees pages.old.contents) (length pages.old.buffer.items) pages.old.made }
    ensures known { S.known source.new ≡ after_run (S.known source.old) result }
    ensures narrows { Narrows (S.agrees source.old) (S.agrees source.new) }
    ensures contents { StaysOpen (T.known pages.old.contents) (T.known pages.new.contents) }
    ensures agrees { Narrows (T.agrees pages.old.contents) (T.agrees pages.new.contents) }
    ensures ready { IsReadyFor geometry.now (T.known pages.new.contents).size (T.agrees pages.new.contents) (length pages.new.buffer.items) pages.new.made }
    ensures same { made_steps pages.new.made ≡ made_steps pages.old.made }
    ensures answer { IfOk result (λ o. Gives o (says text.items 0)) }
    ensures written { WhereHeld (T.agrees pages.new.contents) (λ bytes. IfOk result (λ _. Wrote (S.agrees source.new) (W.contents writer.old) (W.contents writer.new) (after_text geometry.now (made_steps pages.old.made bytes)) All 0 (S.known source.old).size)) }
    ensures untouched { WhereNotDone (writer.new ≡ writer.old) result }
    ensures err { WhereHeld (T.agrees pages.new.contents) (λ bytes. IfErr result (IsWriteFault (S.agrees source.new) (after_text geometry.now (made_steps pages.old.made bytes)) (W.contents writer.old) (W.contents writer.new))) }
{
    let mut block = Vec::from_elem(alloc, 0u8, geometry.peb_size() as usize)?;
    match write_after(geometry, source, pages, block.as_mut_slice(), writer) {
        Ok(_) => Ok(Outcome::saying(text, DONE)),
        Err(StreamError::Read(_, _)) => Err(ToolError::Read),
        Err(StreamError::Write(_)) => Err(ToolError::Write),
        // Nothing is refused any more, and all memory has been allocated.
        Err(StreamError::Refused(_) | StreamError::Memory) => unreachable!(),
    }
}

/// Plans edits of whole volumes of a source in one commit. The plan touches none of the eraseblocks that are to be avoided. It answers
/// with a line for each volume that is written, and the lines of all steps; it writes the image after the first `stop` of them (after
/// all, if there are no more or `stop` is left out), and makes `pages` the pages that these program. The contents are read from the source
/// of the pages: once for the plan, and once for the image, an eraseblock at a time.
///
/// If nothing can be planned, it answers with the line of the first cause, and nothing is written. What is written is accepted as an
/// image whatever `stop` is, and means the old, or what the edits make of it.
///
/// # Errors
///
/// `Read` if a read of the image failed, and `Write` if a write failed, or if contents couldn't be read again or memory ran out while the
/// image was written: the writer then received the first of the bytes, or none. `Memory` if memory ran out before; then nothing is written.
pub fn run_update_from<S: BlockSource, T: BlockSource, W: Write>(
    alloc: Global,
    geometry: &Geometry,
    source: &mut S,
    avoided: &Avoided<'_>,
    asked: &Edits<'_>,
    stop: Option<u32>,
    writer: &mut W,
    pages: &mut Pages<T>,
) -> Result<Outcome, ToolError>
    requires { pages.old.made ≡ Made.Nothing }
    ensures known { S.known source.new ≡ after_run (S.known source.old) result }
    ensures narrows { Narrows (S.agrees source.old) (S.agrees source.new) }
    ensures contents { StaysOpen (T.known pages.old.contents) (T.known pages.new.contents) }
    ensures sound { IsSoundPages (T.known pages.new.contents).size (T.agrees pages.new.contents) (length pages.new.buffer.items) pages.new.made }
    ensures ok { WhereHeld (T.agrees pages.new.contents) (λ bytes. IfOk result (UpdatesFrom avoided.now (asked_edits asked.now) bytes stop geometry.now (S.known source.old) (S.agrees source.new) (pages_made pages.new.made bytes) (W.contents writer.old) (W.contents writer.new))) }
    ensures untouched { WhereNotDone (writer.new ≡ writer.old) result }
    ensures err { WhereHeld (T.agrees pages.new.contents) (λ bytes. IfErr result (IsUpdateFault avoided.now (asked_edits asked.now) bytes stop geometry.now (S.known source.old) (S.agrees source.new) (W.contents writer.old) (W.contents writer.new))) }
{
    let edits = match edits_from(alloc, geometry, source, asked) {
        Ok(edits) => edits,
        Err(NoEdits::Told(line)) => return Ok(Outcome::saying(line, FAILED)),
        Err(NoEdits::Fault(error)) => return Err(error),
    };
    let edits = edits.as_slice();
    let plan = match plan_update_from(
        alloc,
        geometry,
        source,
        avoided,
        &mut pages.contents,
        edits,
    ) {
        Ok(plan) => plan,
        Err(error) => return unplanned(alloc, asked, error),
    };
    let lines = written_lines(alloc, &plan, edits)?;
    let text = hold_plan(alloc, geometry, plan, lines, stop, pages)?;
    write_planned(alloc, geometry, source, text, writer, pages)
}
