//! The commands that plan steps, over files: the image after the steps, and the pages that they program.

ghost use Rattle.std.specs.Option.{ForSome};
ghost use Rattle.std.specs.Prelude.{◌≡◌, ◌≢◌, ◌⊎◌, ◌%◌, All, IfErr, IfOk, IfSome, IsFalse, IsTrue, None, OnErr, Some, codes, length, true};
ghost use Rattle.ubi_writing.specs.Change.{ChangesFrom, HasPlan};
ghost use Rattle.ubi_files.specs.Disk.{AllStay, Files, OthersStay, OthersStayBeside, Receives, Stays};
ghost use Rattle.ubi_files.specs.Answer.{Gives, says};
ghost use Rattle.ubi_files.specs.Dump.{begins_with_block, raw_size, seen};
ghost use Rattle.ubi_files.specs.Opened.{IsOpened, IsUnreadOf};
ghost use Rattle.ubi_files.specs.OverFile.{OfFile, OfImage};
ghost use Rattle.ubi_dumps.specs.Asked.{ReadsAll};
ghost use Rattle.ubi_writing.specs.Outputs.{KeepsImage, KeepsPart, OnGrid, PlanStays, WithList, WritesPlan, avoided, start_line};
ghost use Rattle.ubi_writing.specs.Rename.{HasRename, RenamesFrom};
ghost use Rattle.ubi_dumps.specs.Ended.{Works};
ghost use Rattle.ubi_writing.specs.inner.Replaced.{FinishesAtOnce};
ghost use Rattle.ubi_change.specs.Laying.{StaysOpen};
ghost use Rattle.ubi_writing.specs.PlanImage.{WithHidden, bare};
ghost use Rattle.ubi_writing.specs.Pages.{IsSoundPages, pages_made};
ghost use Rattle.ubi_writing.specs.declared.pages.Made.{Made};
ghost use Rattle.ubi_files.specs.Lines.{file_line};
ghost use Rattle.ubi_files.specs.Told.{Tells};
ghost use Rattle.ubi_writing.specs.Asks.{value_in};
ghost use Rattle.ubi_writing.specs.Contents.{OfConfig, OfContents, all_asked_edits, config_path};
ghost use Rattle.ubi_writing.specs.Update.{HasUpdate, UpdatesFrom};
ghost use Rattle.ubi_writing.specs.inner.Planning.{NamesNoBlocks, TheseStay, Plans};
ghost use Rattle.ubi_scan.specs.Source.{Narrows, WhereHeld};

use crate::all_asked::{gather_asked, lent_paths};
use crate::asks::{Ask, Edits};
use crate::change::NewBytes;
use crate::contents::Contents;
use crate::orders::{Change, Plan, Rename, Update};
use crate::pages::Pages;
use crate::pages_file::write_pages_file;
use crate::plan_image::{PlanFrame, PlanImage, bare, open_plan_image};
use crate::writers::{Way, Writing, replaced, write_opened};
use std::alloc::{AllocError, Global};
use std::marker::Brand;
use ubi_change::Avoided;
use ubi_dumps::{Opening, Output, Paths, opening_of, unwritten_line};
use ubi_files::{
    DONE, Disk, Dump, DumpSource, FAILED, FileRow, Frame, HeldFile, OpenImage, Outcome, Seen,
    Target, ToolError, Unread, frame_of, load, nothing, put_number, put_word, unread_line,
};
use ubi_media::Geometry;
use ubi_scan::{BlockSource, FileSource, MemorySource, PlacedFile};

/// What is printed for a device whose bad eraseblocks aren't listed.
const NO_LIST: &str =
    "error: '--bad <LIST>' is needed for a device: the numbers of its bad eraseblocks, or '' for none

For more information, try '--help'.
";

/// Whether a plan needs a list of bad eraseblocks that it doesn't have; if so, that is printed to standard error.
fn lacks_list<D: Disk + Eprint>(disk: &D, dump: &Dump<'_>, image: &str) -> bool
    ensures bad { result ≡ true → dump.now.bad ≡ None }
    ensures device { result ≡ true → (D.files disk.now).holds image.now ≡ None }
{
    let lacks = dump.bad.is_none() && disk.is_flash(image);
    if lacks {
        let _ = disk.eprint(NO_LIST);
    }
    lacks
}

/// The first of the files that a plan has read, beside the image, that may be the one at a path.
fn read_at<'a, D: Disk>(disk: &D, reads: &[&'a str], path: &str) -> Option<&'a str>
    ensures { result ≡ None → All (λ f. f.now ≢ path.now) reads.now }
{
    for read in reads {
        if disk.may_be_one(read, path) {
            return Some(read);
        }
    }
    None
}

/// Whether the pages may be written to a path: it may not be a file that a plan has read or written.
fn may_write_pages<D: Disk>(disk: &D, plan: &Plan<'_>, reads: &[&str], pages: &str) -> bool
    ensures out { result ≡ true → pages.now ≢ plan.now.paths.out.now }
    ensures image { result ≡ true → pages.now ≢ plan.now.paths.image.now }
    ensures reads { result ≡ true → All (λ f. f.now ≢ pages.now) reads.now }
{
    let Paths { image, out } = plan.paths;
    read_at(disk, reads, pages).is_none()
        && !disk.may_be_one(image, pages)
        && !disk.may_be_one(out, pages)
}

/// How the output of a plan is opened, which may be the image; not at all if it could be another file that was read for the plan.
fn opening_for<D: Disk + Eprint>(
    disk: &D,
    dump: &Dump<'_>,
    plan: &Plan<'_>,
    reads: &[&str],
) -> Opening
    ensures late { result ≡ Opening.Late → plan.now.paths.image.now ≢ plan.now.paths.out.now }
    ensures all { result ≡ Opening.AtOnce → ReadsAll (D.files disk.now) dump.now plan.now.paths.image.now }
    ensures reads { result ≢ Opening.Never → All (λ f. f.now ≢ plan.now.paths.out.now) reads.now }
{
    let out = plan.paths.out;
    match read_at(disk, reads, out) {
        Some(read) => {
            let _ = disk.eprintln(format_args!("{out}: it may be {read}, which is read"));
            Opening::Never
        }
        None => opening_of(disk, dump, &plan.paths, true),
    }
}

/// Writes the pages of a plan to a path, and says whether they were written. They aren't if it may be a file that the plan reads or
/// writes.
fn put_pages<D: Disk + Eprint, T: BlockSource>(
    disk: &mut D,
    plan: &Plan<'_>,
    reads: &[&str],
    pages: &mut Pages<T>,
    path: &str,
) -> bool
    requires { IsSoundPages (T.known pages.old.contents).size (T.agrees pages.old.contents) (length pages.old.buffer.items) pages.old.made }
    ensures made { pages.new.made ≡ pages.old.made }
    ensures contents { StaysOpen (T.known pages.old.contents) (T.known pages.new.contents) }
    ensures sound { IsSoundPages (T.known pages.new.contents).size (T.agrees pages.new.contents) (length pages.new.buffer.items) pages.new.made }
    ensures narrows { Narrows (T.agrees pages.old.contents) (T.agrees pages.new.contents) }
    ensures written { result ≡ true → WhereHeld (T.agrees pages.new.contents) (λ bytes. Receives (D.files disk.old) (D.files disk.new) path.now (Some (pages_made pages.new.made bytes))) }
    ensures apart { result ≡ true → path.now ≢ plan.now.paths.out.now }
    ensures others { OthersStay (D.files disk.old) (D.files disk.new) path.now }
    ensures out { Stays (D.files disk.old) (D.files disk.new) plan.now.paths.out.now }
    ensures image { Stays (D.files disk.old) (D.files disk.new) plan.now.paths.image.now }
    ensures reads { TheseStay (D.files disk.old) (D.files disk.new) reads.now }
{
    if !may_write_pages(disk, plan, reads, path) {
        let _ = disk.eprintln(format_args!("{path}: it may be a file that is read or written"));
        return false;
    }
    write_pages_file(disk, pages, Output { path }).is_ok()
}

/// Writes the pages of a plan that was carried out to a path, and answers with its outcome; or with the line of a file
/// that can't be written, such as one that the plan has read or written.
fn write_pages<D: Disk + Eprint, T: BlockSource>(
    disk: &mut D,
    outcome: Outcome,
    plan: &Plan<'_>,
    reads: &[&str],
    pages: &mut Pages<T>,
    path: &str,
    unwritten: Outcome,
) -> Outcome
    requires { IsSoundPages (T.known pages.old.contents).size (T.agrees pages.old.contents) (length pages.old.buffer.items) pages.old.made }
    ensures made { pages.new.made ≡ pages.old.made }
    ensures contents { StaysOpen (T.known pages.old.contents) (T.known pages.new.contents) }
    ensures sound { IsSoundPages (T.known pages.new.contents).size (T.agrees pages.new.contents) (length pages.new.buffer.items) pages.new.made }
    ensures narrows { Narrows (T.agrees pages.old.contents) (T.agrees pages.new.contents) }
    ensures answer { ((result ≡ outcome) × WhereHeld (T.agrees pages.new.contents) (λ bytes. Receives (D.files disk.old) (D.files disk.new) path.now (Some (pages_made pages.new.made bytes)))) ⊎ (result ≡ unwritten) }
    ensures others { OthersStay (D.files disk.old) (D.files disk.new) path.now }
    ensures out { Stays (D.files disk.old) (D.files disk.new) plan.now.paths.out.now }
    ensures image { Stays (D.files disk.old) (D.files disk.new) plan.now.paths.image.now }
    ensures reads { TheseStay (D.files disk.old) (D.files disk.new) reads.now }
{
    if put_pages(disk, plan, reads, pages, path) {
        outcome
    } else {
        unwritten
    }
}

/// Does the work of a plan over an image that was opened: writes the image after its steps, if that may be opened, and then the pages, if
/// there is a path for them. `reads` has the paths of the other files that were read for it.
fn plan_late<D: Disk + Eprint, T: BlockSource>(
    disk: &mut D,
    alloc: Global,
    opened: OpenImage<DumpSource<'_, D::Placed>>,
    plan: &Plan<'_>,
    reads: &[&str],
    may_open: bool,
    command: &Writing<'_>,
    pages: &mut Pages<T>,
) -> Result<Outcome, AllocError>
    requires nothing { pages.old.made ≡ Made.Nothing }
    requires image { may_open ≡ true → plan.now.paths.image.now ≢ plan.now.paths.out.now }
    requires reads { may_open ≡ true → All (λ f. f.now ≢ plan.now.paths.out.now) reads.now }
    ensures answer { (d : Files) (dump : Dump) → IsOpened (λ s. IsUnreadOf (seen dump d) plan.now.paths.image.now (⟦<Seen<'static, D::Placed> as PlacedFile>⟧.bytes s.file) s.failures) d plan.now.paths.image.now dump opened.entry → IfOk result (OfFile d dump plan.now.paths.image.now (Plans plan.now (D.files disk.old) (D.files disk.new) command.now (T.agrees pages.new.contents))) }
    ensures stays { PlanStays (D.files disk.old) (D.files disk.new) plan.now }
    ensures image { Stays (D.files disk.old) (D.files disk.new) plan.now.paths.image.now }
    ensures reads { TheseStay (D.files disk.old) (D.files disk.new) reads.now }
    ensures contents { StaysOpen (T.known pages.old.contents) (T.known pages.new.contents) }
    ensures sound { IsSoundPages (T.known pages.new.contents).size (T.agrees pages.new.contents) (length pages.new.buffer.items) pages.new.made }
    ensures memory { OnErr result (AllStay (D.files disk.old) (D.files disk.new)) }
{
    let way = Way {
        paths: plan.paths,
        may_open,
        is_watched: false,
    };
    let Some(path) = plan.pages else {
        return write_opened(disk, alloc, opened, &way, command, pages);
    };
    // Made before a file is opened, so that nothing is written if memory runs out.
    let unwritten = unwritten_line(alloc, path)?;
    let outcome = write_opened(disk, alloc, opened, &way, command, pages)?;
    if outcome.status != DONE {
        return Ok(outcome);
    }
    Ok(write_pages(disk, outcome, plan, reads, pages, path, unwritten))
}

/// What is answered if a file of a plan fails. It is made before a file is written, so that nothing is if memory runs out.
#[derive(Drop)]
struct PlanFaults {
    /// The answer if the image can't be read.
    unread: Outcome,
    /// The answer if the output can't be written.
    unwritten: Outcome,
    /// The answer if the pages can't be written, if there is a path for them.
    unpaged: Outcome,
}

/// What is answered if a file of a plan fails.
///
/// # Errors
///
/// Memory ran out.
fn plan_faults(alloc: Global, plan: &Plan<'_>) -> Result<PlanFaults, AllocError>
    ensures unread { IfOk result (λ faults. Gives faults.unread (says (file_line (codes "cannot read ") plan.now.paths.image.now) 1)) }
    ensures unwritten { IfOk result (λ faults. Gives faults.unwritten (says (file_line (codes "cannot write ") plan.now.paths.out.now) 1)) }
    ensures unpaged { IfOk result (λ faults. ForSome plan.now.pages (λ path. Gives faults.unpaged (says (file_line (codes "cannot write ") path.now) 1))) }
{
    Ok(PlanFaults {
        unread: unread_line(alloc, plan.paths.image)?,
        unwritten: unwritten_line(alloc, plan.paths.out)?,
        unpaged: unwritten_line(alloc, plan.pages.unwrap_or(""))?,
    })
}

/// Writes the pages of a plan that is done, if there is a path for them, and then gives the output all of its bytes at once.
fn finish_at_once<D: Disk + Eprint, T: BlockSource>(
    disk: &mut D,
    alloc: Global,
    outcome: Outcome,
    plan: &Plan<'_>,
    reads: &[&str],
    pages: &mut Pages<T>,
    bytes: &[u8],
    faults: PlanFaults,
) -> Outcome
    requires sound { IsSoundPages (T.known pages.old.contents).size (T.agrees pages.old.contents) (length pages.old.buffer.items) pages.old.made }
    requires done { outcome.status ≡ 0 }
    requires unwritten { Gives faults.unwritten (says (file_line (codes "cannot write ") plan.now.paths.out.now) 1) }
    requires unpaged { ForSome plan.now.pages (λ path. Gives faults.unpaged (says (file_line (codes "cannot write ") path.now) 1)) }
    requires reads { All (λ f. f.now ≢ plan.now.paths.out.now) reads.now }
    ensures made { pages.new.made ≡ pages.old.made }
    ensures contents { StaysOpen (T.known pages.old.contents) (T.known pages.new.contents) }
    ensures sound { IsSoundPages (T.known pages.new.contents).size (T.agrees pages.new.contents) (length pages.new.buffer.items) pages.new.made }
    ensures narrows { Narrows (T.agrees pages.old.contents) (T.agrees pages.new.contents) }
    ensures answer { WhereHeld (T.agrees pages.new.contents) (λ held. FinishesAtOnce (D.files disk.old) (D.files disk.new) plan.now (pages_made pages.new.made held) bytes.now outcome result) }
    ensures others { OthersStayBeside (D.files disk.old) (D.files disk.new) plan.now.paths.out.now plan.now.pages }
    ensures kept { KeepsImage (D.files disk.old) (D.files disk.new) plan.now.paths.image.now result }
    ensures image { plan.now.paths.image.now ≢ plan.now.paths.out.now → Stays (D.files disk.old) (D.files disk.new) plan.now.paths.image.now }
    ensures reads { TheseStay (D.files disk.old) (D.files disk.new) reads.now }
{
    let PlanFaults {
        unpaged,
        unwritten,
        ..
    } = faults;
    let out = plan.paths.out;
    match plan.pages {
        None => replaced(disk, alloc, outcome, bytes, out, unwritten),
        Some(path) => {
            if !put_pages(disk, plan, reads, pages, path) {
                return unpaged;
            }
            replaced(disk, alloc, outcome, bytes, out, unwritten)
        }
    }
}

/// Does the work of a plan over a source: writes the pages, if there is a path for them, and then gives the output all of its bytes at
/// once.
fn plan_at_once<D: Disk + Eprint, S: BlockSource, T: BlockSource, K: Target>(
    disk: &mut D,
    alloc: Global,
    geometry: &Geometry,
    source: &mut S,
    plan: &Plan<'_>,
    reads: &[&str],
    command: &Writing<'_>,
    faults: PlanFaults,
    pages: &mut Pages<T>,
) -> Result<Outcome, AllocError>
    requires nothing { pages.old.made ≡ Made.Nothing }
    requires files { D.files disk.old ≡ K.files }
    requires unread { Gives faults.unread (says (file_line (codes "cannot read ") plan.now.paths.image.now) 1) }
    requires unwritten { Gives faults.unwritten (says (file_line (codes "cannot write ") plan.now.paths.out.now) 1) }
    requires unpaged { ForSome plan.now.pages (λ path. Gives faults.unpaged (says (file_line (codes "cannot write ") path.now) 1)) }
    requires reads { All (λ f. f.now ≢ plan.now.paths.out.now) reads.now }
    ensures narrows { Narrows (S.agrees source.old) (S.agrees source.new) }
    ensures answer { IfOk result (Works (S.known source.old) (S.known source.new) plan.now.paths.image.now (Plans plan.now (D.files disk.old) (D.files disk.new) command.now (T.agrees pages.new.contents) geometry.now (S.known source.old) (S.agrees source.new))) }
    ensures stays { PlanStays (D.files disk.old) (D.files disk.new) plan.now }
    ensures kept { IfOk result (KeepsImage (D.files disk.old) (D.files disk.new) plan.now.paths.image.now) }
    ensures reads { TheseStay (D.files disk.old) (D.files disk.new) reads.now }
    ensures contents { StaysOpen (T.known pages.old.contents) (T.known pages.new.contents) }
    ensures sound { IsSoundPages (T.known pages.new.contents).size (T.agrees pages.new.contents) (length pages.new.buffer.items) pages.new.made }
    ensures memory { OnErr result (AllStay (D.files disk.old) (D.files disk.new)) }
{
    let mut held: HeldFile<K> = HeldFile::new(alloc);
    match command.answer(alloc, geometry, source, &mut held, pages) {
        Ok(outcome) => {
            if outcome.status != DONE {
                return Ok(outcome);
            }
            Ok(finish_at_once(
                disk,
                alloc,
                outcome,
                plan,
                reads,
                pages,
                held.bytes(),
                faults,
            ))
        }
        Err(ToolError::Read) => Ok(faults.unread),
        // Not all bytes were made, or kept.
        Err(ToolError::Write) => Ok(faults.unwritten),
        Err(ToolError::Memory) => Err(AllocError),
    }
}

/// Does the work of a plan over a source, as [`plan_at_once`] does.
fn plan_into<D: Disk + Eprint, S: BlockSource, T: BlockSource>(
    disk: &mut D,
    alloc: Global,
    geometry: &Geometry,
    source: &mut S,
    plan: &Plan<'_>,
    reads: &[&str],
    command: &Writing<'_>,
    pages: &mut Pages<T>,
) -> Result<Outcome, AllocError>
    requires nothing { pages.old.made ≡ Made.Nothing }
    requires reads { All (λ f. f.now ≢ plan.now.paths.out.now) reads.now }
    ensures narrows { Narrows (S.agrees source.old) (S.agrees source.new) }
    ensures answer { IfOk result (Works (S.known source.old) (S.known source.new) plan.now.paths.image.now (Plans plan.now (D.files disk.old) (D.files disk.new) command.now (T.agrees pages.new.contents) geometry.now (S.known source.old) (S.agrees source.new))) }
    ensures stays { PlanStays (D.files disk.old) (D.files disk.new) plan.now }
    ensures kept { IfOk result (KeepsImage (D.files disk.old) (D.files disk.new) plan.now.paths.image.now) }
    ensures reads { TheseStay (D.files disk.old) (D.files disk.new) reads.now }
    ensures contents { StaysOpen (T.known pages.old.contents) (T.known pages.new.contents) }
    ensures sound { IsSoundPages (T.known pages.new.contents).size (T.agrees pages.new.contents) (length pages.new.buffer.items) pages.new.made }
    ensures memory { OnErr result (AllStay (D.files disk.old) (D.files disk.new)) }
{
    let faults = plan_faults(alloc, plan)?;
    plan_at_once::<D, S, T, Brand>(
        disk, alloc, geometry, source, plan, reads, command, faults, pages,
    )
}

/// Does the work of a plan over an image that was opened, whose output gets all of its bytes at once, after the pages.
fn plan_over<D: Disk + Eprint, T: BlockSource>(
    disk: &mut D,
    alloc: Global,
    opened: OpenImage<DumpSource<'_, D::Placed>>,
    plan: &Plan<'_>,
    reads: &[&str],
    command: &Writing<'_>,
    pages: &mut Pages<T>,
) -> Result<Outcome, AllocError>
    requires nothing { pages.old.made ≡ Made.Nothing }
    requires reads { All (λ f. f.now ≢ plan.now.paths.out.now) reads.now }
    ensures answer { (d : Files) (dump : Dump) → IsOpened (λ s. IsUnreadOf (seen dump d) plan.now.paths.image.now (⟦<Seen<'static, D::Placed> as PlacedFile>⟧.bytes s.file) s.failures) d plan.now.paths.image.now dump opened.entry → IfOk result (OfFile d dump plan.now.paths.image.now (Plans plan.now (D.files disk.old) (D.files disk.new) command.now (T.agrees pages.new.contents))) }
    ensures stays { PlanStays (D.files disk.old) (D.files disk.new) plan.now }
    ensures kept { IfOk result (KeepsImage (D.files disk.old) (D.files disk.new) plan.now.paths.image.now) }
    ensures reads { TheseStay (D.files disk.old) (D.files disk.new) reads.now }
    ensures contents { StaysOpen (T.known pages.old.contents) (T.known pages.new.contents) }
    ensures sound { IsSoundPages (T.known pages.new.contents).size (T.agrees pages.new.contents) (length pages.new.buffer.items) pages.new.made }
    ensures memory { OnErr result (AllStay (D.files disk.old) (D.files disk.new)) }
{
    let image = plan.paths.image;
    match opened {
        OpenImage::AtPlaces(mut file) => {
            let geometry = file.geometry;
            let source = &mut file.source;
            let work = plan_into(disk, alloc, &geometry, source, plan, reads, command, pages);
            command.remark(disk, alloc, &geometry, source, image, &work);
            work
        }
        OpenImage::Whole(file) => {
            let geometry = file.geometry;
            let mut source = MemorySource::new(file.bytes.as_slice());
            let work = plan_into(
                disk,
                alloc,
                &geometry,
                &mut source,
                plan,
                reads,
                command,
                pages,
            );
            command.remark(disk, alloc, &geometry, &mut source, image, &work);
            work
        }
    }
}

/// Does the work of a plan over the image of a dump that was opened: writes the image after its steps, and the pages, if there is a path
/// for them. If the output may be the image, it gets all of its bytes at once, after the pages. `reads` has the paths of the other files
/// that were read for the plan.
fn write_plan<D: Disk + Eprint, T: BlockSource>(
    disk: &mut D,
    alloc: Global,
    asked: &Dump<'_>,
    opened: OpenImage<DumpSource<'_, D::Placed>>,
    plan: &Plan<'_>,
    reads: &[&str],
    command: &Writing<'_>,
    pages: &mut Pages<T>,
) -> Result<Outcome, AllocError>
    requires { pages.old.made ≡ Made.Nothing }
    ensures answer { (d : Files) (dump : Dump) → IsOpened (λ s. IsUnreadOf (seen dump d) plan.now.paths.image.now (⟦<Seen<'static, D::Placed> as PlacedFile>⟧.bytes s.file) s.failures) d plan.now.paths.image.now dump opened.entry → IfOk result (OfFile d dump plan.now.paths.image.now (Plans plan.now (D.files disk.old) (D.files disk.new) command.now (T.agrees pages.new.contents))) }
    ensures stays { PlanStays (D.files disk.old) (D.files disk.new) plan.now }
    ensures image { IfOk result (KeepsImage (D.files disk.old) (D.files disk.new) plan.now.paths.image.now) }
    ensures part { KeepsPart (D.files disk.old) (D.files disk.new) asked.now plan.now.paths.image.now }
    ensures reads { TheseStay (D.files disk.old) (D.files disk.new) reads.now }
    ensures contents { StaysOpen (T.known pages.old.contents) (T.known pages.new.contents) }
    ensures sound { IsSoundPages (T.known pages.new.contents).size (T.agrees pages.new.contents) (length pages.new.buffer.items) pages.new.made }
    ensures memory { OnErr result (AllStay (D.files disk.old) (D.files disk.new)) }
{
    match opening_for(disk, asked, plan, reads) {
        Opening::AtOnce => plan_over(disk, alloc, opened, plan, reads, command, pages),
        Opening::Late => plan_late(disk, alloc, opened, plan, reads, true, command, pages),
        Opening::Never => plan_late(disk, alloc, opened, plan, reads, false, command, pages),
    }
}

/// The line of a part that doesn't begin with an eraseblock of the file.
fn start_line(alloc: Global, raw: u64, rest: u64) -> Result<Vec<u8>, AllocError>
    ensures { (dump : Dump) → raw_size dump ≡ raw → dump.part.start % raw ≡ rest → IfOk result (λ line. line.items ≡ start_line dump) }
{
    let mut text = Vec::from_slice(alloc, b"refused F11 Start")?;
    put_number(&mut text, " peb=", raw)?;
    put_number(&mut text, " rest=", rest)?;
    put_word(&mut text, "\n")?;
    Ok(text)
}

/// What is answered if the part of a dump doesn't begin with an eraseblock of the file: no plan names its eraseblocks.
fn off_grid(alloc: Global, frame: &Frame<'_>) -> Result<Option<Outcome>, AllocError>
    ensures on { IfOk result (λ o. o ≡ None → IsTrue (begins_with_block frame.now.dump)) }
    ensures off { IfOk result (λ o. IfSome o (λ outcome. IsFalse (begins_with_block frame.now.dump) × Gives outcome (says (start_line frame.now.dump) 1))) }
{
    let raw = frame.raw_size();
    let rest = frame.dump.part.start % raw;
    if rest == 0 {
        return Ok(None);
    }
    Ok(Some(Outcome::saying(start_line(alloc, raw, rest)?, FAILED)))
}

/// What is known of a dump before it is opened, if a plan can name its eraseblocks.
///
/// # Errors
///
/// What is answered if none can: nothing, for a device whose bad eraseblocks aren't listed; or the line of a limit that the numbers break,
/// or of a part that doesn't begin with an eraseblock. Or that memory ran out.
fn plan_frame<'a, D: Disk + Eprint>(
    disk: &D,
    alloc: Global,
    dump: &Dump<'a>,
    image: &str,
) -> Result<PlanFrame<'a>, Unread>
    ensures dump { IfOk result (λ frame. frame.frame.dump ≡ dump.now) }
    ensures bare { IfOk result (λ frame. frame.bare.dump ≡ bare dump.now) }
    ensures grid { IfOk result (λ _. IsTrue (begins_with_block dump.now)) }
    ensures unplanned { IfErr result (Tells (NamesNoBlocks (D.files disk.now) dump.now image.now)) }
{
    if lacks_list(disk, dump, image) {
        return Err(Unread::Told(nothing(alloc)));
    }
    let frame = frame_of(alloc, dump)?;
    match off_grid(alloc, &frame)? {
        Some(outcome) => Err(Unread::Told(outcome)),
        None => {
            let bare = frame_of(alloc, &bare(dump))?;
            Ok(PlanFrame { frame, bare })
        }
    }
}

/// Changes one file into another, with the bytes of a third, which is read before anything is written.
pub fn change_file<D: Disk + Eprint>(
    disk: &mut D,
    alloc: Global,
    dump: &Dump<'_>,
    asked: &Change<'_>,
) -> Result<Outcome, AllocError>
    ensures answer { IfOk result (WithList (D.files disk.old) (D.files disk.new) dump.now.bad asked.now.plan.paths.image.now (OnGrid (D.files disk.old) (D.files disk.new) dump.now asked.now.plan.paths.image.now (WithHidden (D.files disk.old) dump.now asked.now.plan.paths.image.now (λ hidden. OfFile (D.files disk.old) dump.now asked.now.plan.paths.image.now (λ s k agrees. OfImage (D.files disk.old) dump.now.numbers asked.now.from.now (λ f. WritesPlan asked.now.plan.paths.out.now asked.now.plan.pages (D.files disk.old) (D.files disk.new) (ChangesFrom (avoided dump.now asked.now.plan hidden) asked.now.id asked.now.lnum f.bytes asked.now.plan.stop s k agrees) (HasPlan (avoided dump.now asked.now.plan hidden) asked.now.id asked.now.lnum f.bytes s k agrees))))))) }
    ensures stays { PlanStays (D.files disk.old) (D.files disk.new) asked.now.plan }
    ensures image { IfOk result (KeepsImage (D.files disk.old) (D.files disk.new) asked.now.plan.paths.image.now) }
    ensures part { KeepsPart (D.files disk.old) (D.files disk.new) dump.now asked.now.plan.paths.image.now }
    ensures from { Stays (D.files disk.old) (D.files disk.new) asked.now.from.now }
    ensures memory { OnErr result (AllStay (D.files disk.old) (D.files disk.new)) }
{
    let Paths { image, out } = asked.plan.paths;
    let frame = match plan_frame(disk, alloc, dump, image) {
        Ok(frame) => frame,
        Err(unplanned) => return unplanned.answer(),
    };
    let PlanImage {
        image: opened,
        hidden,
    } = match open_plan_image(disk, alloc, &frame, image, out) {
        Ok(opened) => opened,
        Err(unread) => return unread.answer(),
    };
    let file = match load(disk, alloc, dump.numbers, asked.from) {
        Ok(file) => file,
        Err(unread) => return unread.answer(),
    };
    let avoided = Avoided::new(
        frame.frame.marks.as_slice(),
        asked.plan.keeps_blank,
        hidden.above(),
        hidden.ends(),
    );
    let new = NewBytes {
        id: asked.id,
        lnum: asked.lnum,
        bytes: file.bytes.as_slice(),
    };
    let command = Writing::Change(new, &avoided, asked.plan.stop);
    let reads = [asked.from];
    let mut pages = Pages::of(alloc, MemorySource::new(&[]));
    write_plan(
        disk,
        alloc,
        dump,
        opened,
        &asked.plan,
        &reads,
        &command,
        &mut pages,
    )
}

/// Renames a volume of one file, and writes the result to another.
pub fn rename_file<D: Disk + Eprint>(
    disk: &mut D,
    alloc: Global,
    dump: &Dump<'_>,
    asked: &Rename<'_>,
) -> Result<Outcome, AllocError>
    ensures answer { IfOk result (WithList (D.files disk.old) (D.files disk.new) dump.now.bad asked.now.plan.paths.image.now (OnGrid (D.files disk.old) (D.files disk.new) dump.now asked.now.plan.paths.image.now (WithHidden (D.files disk.old) dump.now asked.now.plan.paths.image.now (λ hidden. OfFile (D.files disk.old) dump.now asked.now.plan.paths.image.now (λ s k agrees. WritesPlan asked.now.plan.paths.out.now asked.now.plan.pages (D.files disk.old) (D.files disk.new) (RenamesFrom (avoided dump.now asked.now.plan hidden) asked.now.id asked.now.name.now asked.now.plan.stop s k agrees) (HasRename (avoided dump.now asked.now.plan hidden) asked.now.id asked.now.name.now s k agrees)))))) }
    ensures stays { PlanStays (D.files disk.old) (D.files disk.new) asked.now.plan }
    ensures image { IfOk result (KeepsImage (D.files disk.old) (D.files disk.new) asked.now.plan.paths.image.now) }
    ensures part { KeepsPart (D.files disk.old) (D.files disk.new) dump.now asked.now.plan.paths.image.now }
    ensures memory { OnErr result (AllStay (D.files disk.old) (D.files disk.new)) }
{
    let Paths { image, out } = asked.plan.paths;
    let frame = match plan_frame(disk, alloc, dump, image) {
        Ok(frame) => frame,
        Err(unplanned) => return unplanned.answer(),
    };
    let PlanImage {
        image: opened,
        hidden,
    } = match open_plan_image(disk, alloc, &frame, image, out) {
        Ok(opened) => opened,
        Err(unread) => return unread.answer(),
    };
    let avoided = Avoided::new(
        frame.frame.marks.as_slice(),
        asked.plan.keeps_blank,
        hidden.above(),
        hidden.ends(),
    );
    let word = asked.name.as_bytes();
    let command = Writing::Rename(asked.id, word, &avoided, asked.plan.stop);
    let mut pages = Pages::of(alloc, MemorySource::new(&[]));
    write_plan(
        disk,
        alloc,
        dump,
        opened,
        &asked.plan,
        &[],
        &command,
        &mut pages,
    )
}

/// Whether bytes from a place on, as many as are counted, have this one among them.
fn have_place(start: u64, len: u64, at: u64) -> bool {
    at >= start && at - start < len
}

/// Says which of the files of contents couldn't be read while a plan was carried out, if one couldn't: it could be read at first.
fn remark_contents<D: Disk + Eprint, F: PlacedFile + Drop>(
    disk: &D,
    asked: &Edits<'_>,
    pages: &Pages<FileSource<FileRow<F>>>,
) {
    let Some(at) = pages.contents().failed_place() else {
        return;
    };
    let mut paths = asked.paths.iter();
    for ask in asked.asks {
        if let Ask::Contents(_, start, len) = ask {
            remark_unread(disk, paths.next(), have_place(*start, *len, at));
        }
    }
    for volume in asked.volumes {
        remark_unread(disk, paths.next(), have_place(volume.start, volume.len, at));
    }
}

/// Says that the file at a path can't be read, if it is so.
fn remark_unread<D: Eprint>(disk: &D, path: Option<&&str>, is_unread: bool) {
    if is_unread && let Some(path) = path {
        let _ = disk.eprintln(format_args!("{path}: it can't be read"));
    }
}

/// Edits whole volumes of one file in one commit, and writes the result to another. What is to be their contents is read from further files,
/// a logical eraseblock at a time: once for the plan, once for the image, and once for the pages.
pub fn update_file<D: Disk + Eprint>(
    disk: &mut D,
    alloc: Global,
    dump: &Dump<'_>,
    asked: &Update<'_>,
) -> Result<Outcome, AllocError>
    ensures answer { IfOk result (WithList (D.files disk.old) (D.files disk.new) dump.now.bad asked.now.plan.paths.image.now (OnGrid (D.files disk.old) (D.files disk.new) dump.now asked.now.plan.paths.image.now (WithHidden (D.files disk.old) dump.now asked.now.plan.paths.image.now (λ hidden. OfFile (D.files disk.old) dump.now asked.now.plan.paths.image.now (λ s k agrees. OfConfig (D.files disk.old) dump.now.numbers asked.now.config (λ xs. OfContents (D.files disk.old) dump.now.numbers asked.now.contents.now (config_path asked.now.config) xs (λ fs gs bytes. WritesPlan asked.now.plan.paths.out.now asked.now.plan.pages (D.files disk.old) (D.files disk.new) (UpdatesFrom (avoided dump.now asked.now.plan hidden) (all_asked_edits asked.now xs fs gs) bytes asked.now.plan.stop s k agrees) (HasUpdate (avoided dump.now asked.now.plan hidden) (all_asked_edits asked.now xs fs gs) bytes s k agrees)))))))) }
    ensures stays { PlanStays (D.files disk.old) (D.files disk.new) asked.now.plan }
    ensures image { IfOk result (KeepsImage (D.files disk.old) (D.files disk.new) asked.now.plan.paths.image.now) }
    ensures part { KeepsPart (D.files disk.old) (D.files disk.new) dump.now asked.now.plan.paths.image.now }
    ensures contents { All (λ word. Stays (D.files disk.old) (D.files disk.new) (value_in word.now)) asked.now.contents.now }
    ensures config { IfSome asked.now.config (λ path. Stays (D.files disk.old) (D.files disk.new) path.now) }
    ensures memory { OnErr result (AllStay (D.files disk.old) (D.files disk.new)) }
{
    let Paths { image, out } = asked.plan.paths;
    let frame = match plan_frame(disk, alloc, dump, image) {
        Ok(frame) => frame,
        Err(unplanned) => return unplanned.answer(),
    };
    let PlanImage {
        image: opened,
        hidden,
    } = match open_plan_image(disk, alloc, &frame, image, out) {
        Ok(opened) => opened,
        Err(unread) => return unread.answer(),
    };
    let (contents, files) = match gather_asked(disk, alloc, dump.numbers, asked) {
        Ok(gathered) => gathered,
        Err(unread) => return unread.answer(),
    };
    let Contents {
        asks,
        volumes,
        paths,
        total,
    } = contents;
    let reads = lent_paths(alloc, paths.as_slice())?;
    let edits = Edits {
        asks: asks.as_slice(),
        volumes: volumes.as_slice(),
        paths: reads.as_slice(),
    };
    let avoided = Avoided::new(
        frame.frame.marks.as_slice(),
        asked.plan.keeps_blank,
        hidden.above(),
        hidden.ends(),
    );
    let command = Writing::Update(&edits, &avoided, asked.plan.stop);
    let mut pages = Pages::of(alloc, FileSource::of(FileRow::new(files), total));
    let work = write_plan(
        disk,
        alloc,
        dump,
        opened,
        &asked.plan,
        reads.as_slice(),
        &command,
        &mut pages,
    );
    remark_contents(disk, &edits, &pages);
    work
}
