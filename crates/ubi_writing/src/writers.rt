//! The commands that read an image, and write a file meanwhile.
//!
//! The image is read at places; or whole, if it can't be read so or may also be the output.

ghost use Rattle.std.specs.Option.{ForSome};
ghost use Rattle.std.specs.Prelude.{◌≡◌, ◌≢◌, [], ℕ, Bool, Err, IfOk, List, MatchResult, Ok, OnErr, Option, Result, codes, false, is_some, length};
ghost use Rattle.ubi_scan.specs.Source.{Narrows};
ghost use Rattle.ubi_files.specs.AfterRun.{WhereNotDone, after_run};
ghost use Rattle.ubi_files.specs.Answer.{Gives, says};
ghost use Rattle.ubi_files.specs.Lines.{file_line};
ghost use Rattle.ubi_files.specs.Disk.{AllStay, Files, OthersStay, Stays, fresh};
ghost use Rattle.ubi_files.specs.Late.{contents_of};
ghost use Rattle.ubi_files.specs.Dump.{seen};
ghost use Rattle.ubi_files.specs.Kept.{IsPartOf};
ghost use Rattle.ubi_files.specs.Opened.{IsOpened, IsUnreadOf};
ghost use Rattle.ubi_dumps.specs.Ended.{IsEnded, Works};
ghost use Rattle.ubi_dumps.specs.Asked.{OfAsked};
ghost use Rattle.ubi_writing.specs.Outputs.{KeepsImage, WritesInto};
ghost use Rattle.ubi_files.specs.OverFile.{OfFile};
ghost use Rattle.ubi_writing.specs.inner.Replaced.{Replaces};
ghost use Rattle.ubi_change.specs.Laying.{StaysOpen};
ghost use Rattle.ubi_writing.specs.Pages.{IsSoundPages};
ghost use Rattle.ubi_writing.specs.Writes.{HasWork, HasWorkOf, may_replace, writes, writes_of};
ghost use Rattle.ubi_writing.specs.declared.pages.Made.{Made};
ghost use Rattle.ubi_files.specs.declared.dump.Dump.{Dump};

use crate::asks::Edits;
use crate::change::{NewBytes, run_change_from};
use crate::extract::run_extract_from;
use crate::normalise::run_normalise;
use crate::pages::Pages;
use crate::rename::run_rename_from;
use crate::update::run_update_from;
use crate::volume_key::VolumeKey;
use std::alloc::{AllocError, Global};
use std::io::Write;
use std::marker::Brand;
use ubi_change::Avoided;
use ubi_dumps::{
    Asked, KnownDump, Opening, Paths, find_dump, is_done, keep_file, open_known_beside, opening_of,
    remark_anchor, remark_passed_over, remark_start, unwritten_line,
};
use ubi_files::{
    DONE, Disk, DumpSource, HeldFile, LateFile, OpenImage, Outcome, ProgressWriter, Seen, Target,
    ToolError, frame_of, unread_line,
};
use ubi_media::Geometry;
use ubi_scan::{BlockSource, MemorySource, PlacedFile};

/// A command that reads one image, and writes a file.
#[derive(Clone, Copy)]
pub enum Writing<'a> {
    /// `normalise`: the normal image.
    Normalise,
    /// `extract`: what this volume reads.
    Extract(VolumeKey<'a>),
    /// `change`: the image after the first steps of a change; after all, if their number is left out.
    Change(NewBytes<'a>, &'a Avoided<'a>, Option<u32>),
    /// `rename`: the image after the first steps of a rename of the volume with this number; the word shows its new name.
    Rename(u32, &'a [u8], &'a Avoided<'a>, Option<u32>),
    /// `update`: the image after the first steps of what is asked of volumes, with the contents that the pages come with.
    Update(&'a Edits<'a>, &'a Avoided<'a>, Option<u32>),
}

impl Writing<'_> {
    /// Whether it has a use for an output that is the image.
    fn may_replace(&self) -> bool
        ensures { result ≡ may_replace self.now }
    {
        match self {
            Writing::Extract(_) => false,
            Writing::Normalise | Writing::Change(..) | Writing::Rename(..) | Writing::Update(..) =>
                true,
        }
    }

    /// Does its work over a source, to a writer. If it plans, `pages` become the pages that the plan programs.
    ///
    /// # Errors
    ///
    /// `Read` if a read failed, and `Write` if a write failed. `Memory` if memory ran out.
    pub fn answer<S: BlockSource, T: BlockSource, W: Write>(
        &self,
        alloc: Global,
        geometry: &Geometry,
        source: &mut S,
        writer: &mut W,
        pages: &mut Pages<T>,
    ) -> Result<Outcome, ToolError>
        requires { pages.old.made ≡ Made.Nothing }
        ensures known { S.known source.new ≡ after_run (S.known source.old) result }
        ensures narrows { Narrows (S.agrees source.old) (S.agrees source.new) }
        ensures answer { IfOk result (writes self.now (T.agrees pages.new.contents) pages.new.made geometry.now (S.known source.old) (S.agrees source.new) (W.contents writer.old) (W.contents writer.new)) }
        ensures contents { StaysOpen (T.known pages.old.contents) (T.known pages.new.contents) }
        ensures sound { IsSoundPages (T.known pages.new.contents).size (T.agrees pages.new.contents) (length pages.new.buffer.items) pages.new.made }
        ensures untouched { WhereNotDone (writer.new ≡ writer.old) result }
        ensures done { IfOk result (λ o. o.status ≡ 0 → HasWork self.now (T.agrees pages.new.contents) geometry.now (S.known source.old) (S.agrees source.new)) }
        ensures failed { result ≡ Err ToolError.Write → HasWork self.now (T.agrees pages.new.contents) geometry.now (S.known source.old) (S.agrees source.new) }
    {
        match self {
            Writing::Normalise => run_normalise(alloc, geometry, source, writer),
            Writing::Extract(key) => run_extract_from(alloc, geometry, source, *key, writer),
            Writing::Change(new, avoided, stop) => {
                let mut held = Vec::new(alloc);
                let answer = run_change_from(
                    alloc, geometry, source, avoided, new, *stop, writer, &mut held,
                );
                pages.hold(held);
                answer
            }
            Writing::Rename(id, word, avoided, stop) => {
                let mut held = Vec::new(alloc);
                let answer = run_rename_from(
                    alloc, geometry, source, avoided, *id, word, *stop, writer, &mut held,
                );
                pages.hold(held);
                answer
            }
            Writing::Update(asked, avoided, stop) => run_update_from(
                alloc, geometry, source, avoided, asked, *stop, writer, pages,
            ),
        }
    }

    /// Says what its answer over a source leaves out; and if it plans, whether the source has a fastmap.
    pub fn remark<R: Eprint, S: BlockSource>(
        &self,
        rt: &R,
        alloc: Global,
        geometry: &Geometry,
        source: &mut S,
        path: &str,
        work: &Result<Outcome, AllocError>,
    ) {
        if !is_done(work) {
            return;
        }
        match self {
            Writing::Normalise | Writing::Extract(_) => {
                remark_passed_over(rt, alloc, geometry, source, path);
            }
            Writing::Change(..) | Writing::Rename(..) | Writing::Update(..) => {
                remark_anchor(rt, alloc, geometry, source, path);
            }
        }
    }
}

/// The line of the file that failed.
///
/// # Errors
///
/// Memory ran out.
fn failed(error: ToolError, unread: Outcome, unwritten: Outcome) -> Result<Outcome, AllocError>
    ensures { MatchResult result (λ o. (there : Bool) → IsEnded (Err error) there unread unwritten o) (λ _. error ≡ ToolError.Memory) }
{
    match error {
        ToolError::Read => Ok(unread),
        ToolError::Write => Ok(unwritten),
        ToolError::Memory => Err(AllocError),
    }
}

/// What is answered for work that came to an outcome. If it was done and there was nothing to write, the file is opened
/// now.
fn finished<D: Disk, K: Target>(
    outcome: Outcome,
    late: &mut LateFile<'_, '_, D, K>,
    unwritten: Outcome,
) -> Outcome
    ensures answer { (unread : Outcome) → IsEnded (Ok outcome) (is_some late.new.file) unread unwritten result }
    ensures contents { contents_of (fresh K.files) (λ f. D.Output.contents f.writer) late.new.file ≡ contents_of (fresh K.files) (λ f. D.Output.contents f.writer) late.old.file }
    ensures refused { outcome.status ≢ 0 → late.new.file ≡ late.old.file }
{
    if outcome.status != DONE {
        return outcome;
    }
    match late.finish() {
        Ok(()) => outcome,
        Err(_) => unwritten,
    }
}

/// What is answered once the work is over: its outcome, or the line of the file that failed.
///
/// # Errors
///
/// Memory ran out while the work was done.
fn ended<D: Disk, K: Target>(
    answer: Result<Outcome, ToolError>,
    late: &mut LateFile<'_, '_, D, K>,
    unread: Outcome,
    unwritten: Outcome,
) -> Result<Outcome, AllocError>
    ensures answer { MatchResult result (IsEnded answer (is_some late.new.file) unread unwritten) (λ _. answer ≡ Err ToolError.Memory) }
    ensures contents { contents_of (fresh K.files) (λ f. D.Output.contents f.writer) late.new.file ≡ contents_of (fresh K.files) (λ f. D.Output.contents f.writer) late.old.file }
    ensures untouched { WhereNotDone (late.new.file ≡ late.old.file) answer }
{
    match answer {
        Ok(outcome) => Ok(finished(outcome, late, unwritten)),
        Err(error) => failed(error, unread, unwritten),
    }
}

/// What is answered if a file fails. It is made before the output is opened, so that nothing is written if memory runs out.
#[derive(Drop)]
pub struct Faults {
    /// The answer if the image can't be read.
    pub unread: Outcome,
    /// The answer if the output can't be written.
    pub unwritten: Outcome,
}

/// The file that the work of a command reads, and the one that it writes.
#[derive(Clone, Copy)]
pub struct Way<'a> {
    /// The paths of both.
    pub paths: Paths<'a>,
    /// Whether the output may be opened: it may not if it could be a file that was read, other than the image.
    pub may_open: bool,
    /// Whether progress is shown.
    pub is_watched: bool,
}

/// Does the work of a command over a source, to a file, which is opened at the first write, or once the work is done. Returns
/// the disk. (The outcome isn't in the result: beside memory, a caller learns nothing about a reference.)
fn work_late<'a, D: Disk + Eprint, S: BlockSource, T: BlockSource, K: Target>(
    disk: &'a mut D,
    alloc: Global,
    geometry: &Geometry,
    source: &mut S,
    way: &Way<'_>,
    command: &Writing<'_>,
    faults: Faults,
    pages: &mut Pages<T>,
    outcome: &mut Result<Outcome, AllocError>,
) -> &'a mut D
    requires same { disk.ghost_name ≡ K.disk }
    requires named { way.now.paths.out.now ≡ K.path }
    requires files { D.files disk.old ≡ K.files }
    requires allowed { way.now.may_open ≡ K.may_open }
    requires empty { pages.old.made ≡ Made.Nothing }
    requires unread { Gives faults.unread (says (file_line (codes "cannot read ") way.now.paths.image.now) 1) }
    requires unwritten { Gives faults.unwritten (says (file_line (codes "cannot write ") way.now.paths.out.now) 1) }
    ensures same { result.ghost_name ≡ K.disk }
    ensures narrows { Narrows (S.agrees source.old) (S.agrees source.new) }
    ensures answer { IfOk outcome.new (Works (S.known source.old) (S.known source.new) way.now.paths.image.now (WritesInto way.now.paths.out.now K.files (D.files result.now) (writes command.now (T.agrees pages.new.contents) pages.new.made geometry.now (S.known source.old) (S.agrees source.new)) (HasWork command.now (T.agrees pages.new.contents) geometry.now (S.known source.old) (S.agrees source.new)))) }
    ensures others { OthersStay K.files (D.files result.now) way.now.paths.out.now }
    ensures shut { K.may_open ≡ false → D.files result.now ≡ K.files }
    ensures contents { StaysOpen (T.known pages.old.contents) (T.known pages.new.contents) }
    ensures sound { IsSoundPages (T.known pages.new.contents).size (T.agrees pages.new.contents) (length pages.new.buffer.items) pages.new.made }
    ensures memory { OnErr outcome.new (AllStay K.files (D.files result.now)) }
{
    let Faults { unread, unwritten } = faults;
    let late: LateFile<'a, '_, D, K> = LateFile::new(disk, way.paths.out, way.may_open);
    let mut progress = ProgressWriter::new(late, source.len(), way.is_watched);
    let answer = command.answer(alloc, geometry, source, &mut progress, pages);
    progress.clear();
    let mut late = progress.into_writer();
    *outcome = ended(answer, &mut late, unread, unwritten);
    let (disk, file) = late.into_parts();
    keep_file(disk, file);
    disk
}

/// Does the work of a command over a source, to a file, which is opened at the first write, or once the work is done.
fn work_into<D: Disk + Eprint, S: BlockSource, T: BlockSource>(
    disk: &mut D,
    alloc: Global,
    geometry: &Geometry,
    source: &mut S,
    way: &Way<'_>,
    command: &Writing<'_>,
    pages: &mut Pages<T>,
) -> Result<Outcome, AllocError>
    requires { pages.old.made ≡ Made.Nothing }
    ensures narrows { Narrows (S.agrees source.old) (S.agrees source.new) }
    ensures answer { IfOk result (Works (S.known source.old) (S.known source.new) way.now.paths.image.now (WritesInto way.now.paths.out.now (D.files disk.old) (D.files disk.new) (writes command.now (T.agrees pages.new.contents) pages.new.made geometry.now (S.known source.old) (S.agrees source.new)) (HasWork command.now (T.agrees pages.new.contents) geometry.now (S.known source.old) (S.agrees source.new)))) }
    ensures others { OthersStay (D.files disk.old) (D.files disk.new) way.now.paths.out.now }
    ensures shut { way.now.may_open ≡ false → D.files disk.new ≡ D.files disk.old }
    ensures contents { StaysOpen (T.known pages.old.contents) (T.known pages.new.contents) }
    ensures sound { IsSoundPages (T.known pages.new.contents).size (T.agrees pages.new.contents) (length pages.new.buffer.items) pages.new.made }
    ensures memory { OnErr result (AllStay (D.files disk.old) (D.files disk.new)) }
{
    let faults = Faults {
        unread: unread_line(alloc, way.paths.image)?,
        unwritten: unwritten_line(alloc, way.paths.out)?,
    };
    let mut outcome = Err(AllocError);
    let _ = work_late::<D, S, T, Brand>(
        disk,
        alloc,
        geometry,
        source,
        way,
        command,
        faults,
        pages,
        &mut outcome,
    );
    outcome
}

/// Does the work of a command over an image that was opened, to a file.
pub fn write_opened<D: Disk + Eprint, T: BlockSource>(
    disk: &mut D,
    alloc: Global,
    opened: OpenImage<DumpSource<'_, D::Placed>>,
    way: &Way<'_>,
    command: &Writing<'_>,
    pages: &mut Pages<T>,
) -> Result<Outcome, AllocError>
    requires { pages.old.made ≡ Made.Nothing }
    ensures answer { (d : Files) (dump : Dump) → IsOpened (λ s. IsUnreadOf (seen dump d) way.now.paths.image.now (⟦<Seen<'static, D::Placed> as PlacedFile>⟧.bytes s.file) s.failures) d way.now.paths.image.now dump opened.entry → IfOk result (OfFile d dump way.now.paths.image.now (λ s k agrees. WritesInto way.now.paths.out.now (D.files disk.old) (D.files disk.new) (writes command.now (T.agrees pages.new.contents) pages.new.made s k agrees) (HasWork command.now (T.agrees pages.new.contents) s k agrees))) }
    ensures others { OthersStay (D.files disk.old) (D.files disk.new) way.now.paths.out.now }
    ensures shut { way.now.may_open ≡ false → D.files disk.new ≡ D.files disk.old }
    ensures contents { StaysOpen (T.known pages.old.contents) (T.known pages.new.contents) }
    ensures sound { IsSoundPages (T.known pages.new.contents).size (T.agrees pages.new.contents) (length pages.new.buffer.items) pages.new.made }
    ensures memory { OnErr result (AllStay (D.files disk.old) (D.files disk.new)) }
{
    match opened {
        OpenImage::AtPlaces(mut file) => {
            let geometry = file.geometry;
            let source = &mut file.source;
            let work = work_into(disk, alloc, &geometry, source, way, command, pages);
            command.remark(disk, alloc, &geometry, source, way.paths.image, &work);
            work
        }
        OpenImage::Whole(file) => {
            let geometry = file.geometry;
            let mut source = MemorySource::new(file.bytes.as_slice());
            let work = work_into(disk, alloc, &geometry, &mut source, way, command, pages);
            command.remark(disk, alloc, &geometry, &mut source, way.paths.image, &work);
            work
        }
    }
}

/// What is answered for work that came to an outcome, once the file at a path was given the bytes that are kept for it, if all is done.
pub fn replaced<D: Disk>(
    disk: &mut D,
    alloc: Global,
    outcome: Outcome,
    bytes: &[u8],
    out: &str,
    unwritten: Outcome,
) -> Outcome
    ensures answer { Replaces out.now (D.files disk.old) (D.files disk.new) bytes.now outcome unwritten result }
    ensures others { OthersStay (D.files disk.old) (D.files disk.new) out.now }
{
    if outcome.status != DONE {
        return outcome;
    }
    match disk.replace(alloc, out, bytes) {
        Ok(()) => outcome,
        Err(_) => unwritten,
    }
}

/// Does the work of a command over a source, and gives the file at a path all of its bytes at once.
fn work_at_once<D: Disk, S: BlockSource, T: BlockSource, K: Target>(
    disk: &mut D,
    alloc: Global,
    geometry: &Geometry,
    source: &mut S,
    paths: &Paths<'_>,
    command: &Writing<'_>,
    faults: Faults,
    pages: &mut Pages<T>,
) -> Result<Outcome, AllocError>
    requires files { D.files disk.old ≡ K.files }
    requires empty { pages.old.made ≡ Made.Nothing }
    requires unread { Gives faults.unread (says (file_line (codes "cannot read ") paths.now.image.now) 1) }
    requires unwritten { Gives faults.unwritten (says (file_line (codes "cannot write ") paths.now.out.now) 1) }
    ensures narrows { Narrows (S.agrees source.old) (S.agrees source.new) }
    ensures answer { IfOk result (Works (S.known source.old) (S.known source.new) paths.now.image.now (WritesInto paths.now.out.now (D.files disk.old) (D.files disk.new) (writes command.now (T.agrees pages.new.contents) pages.new.made geometry.now (S.known source.old) (S.agrees source.new)) (HasWork command.now (T.agrees pages.new.contents) geometry.now (S.known source.old) (S.agrees source.new)))) }
    ensures others { OthersStay (D.files disk.old) (D.files disk.new) paths.now.out.now }
    ensures kept { IfOk result (λ o. o.status ≢ 0 → D.files disk.new ≡ D.files disk.old) }
    ensures contents { StaysOpen (T.known pages.old.contents) (T.known pages.new.contents) }
    ensures sound { IsSoundPages (T.known pages.new.contents).size (T.agrees pages.new.contents) (length pages.new.buffer.items) pages.new.made }
    ensures memory { OnErr result (AllStay (D.files disk.old) (D.files disk.new)) }
{
    let Faults { unread, unwritten } = faults;
    let mut held: HeldFile<K> = HeldFile::new(alloc);
    match command.answer(alloc, geometry, source, &mut held, pages) {
        Ok(outcome) => Ok(replaced(disk, alloc, outcome, held.bytes(), paths.out, unwritten)),
        Err(ToolError::Read) => Ok(unread),
        // It takes all bytes, unless it can't grow.
        Err(ToolError::Write | ToolError::Memory) => Err(AllocError),
    }
}

/// Does the work of a command over a source, and gives the file at a path all of its bytes at once.
fn replace_into<D: Disk, S: BlockSource, T: BlockSource>(
    disk: &mut D,
    alloc: Global,
    geometry: &Geometry,
    source: &mut S,
    paths: &Paths<'_>,
    command: &Writing<'_>,
    pages: &mut Pages<T>,
) -> Result<Outcome, AllocError>
    requires { pages.old.made ≡ Made.Nothing }
    ensures narrows { Narrows (S.agrees source.old) (S.agrees source.new) }
    ensures answer { IfOk result (Works (S.known source.old) (S.known source.new) paths.now.image.now (WritesInto paths.now.out.now (D.files disk.old) (D.files disk.new) (writes command.now (T.agrees pages.new.contents) pages.new.made geometry.now (S.known source.old) (S.agrees source.new)) (HasWork command.now (T.agrees pages.new.contents) geometry.now (S.known source.old) (S.agrees source.new)))) }
    ensures others { OthersStay (D.files disk.old) (D.files disk.new) paths.now.out.now }
    ensures kept { IfOk result (λ o. o.status ≢ 0 → D.files disk.new ≡ D.files disk.old) }
    ensures contents { StaysOpen (T.known pages.old.contents) (T.known pages.new.contents) }
    ensures sound { IsSoundPages (T.known pages.new.contents).size (T.agrees pages.new.contents) (length pages.new.buffer.items) pages.new.made }
    ensures memory { OnErr result (AllStay (D.files disk.old) (D.files disk.new)) }
{
    let faults = Faults {
        unread: unread_line(alloc, paths.image)?,
        unwritten: unwritten_line(alloc, paths.out)?,
    };
    work_at_once::<D, S, T, Brand>(disk, alloc, geometry, source, paths, command, faults, pages)
}

/// Does the work of a command over an image that was opened, whose file it gives other bytes, all at once.
fn replace_opened<D: Disk + Eprint, T: BlockSource>(
    disk: &mut D,
    alloc: Global,
    opened: OpenImage<DumpSource<'_, D::Placed>>,
    paths: &Paths<'_>,
    command: &Writing<'_>,
    pages: &mut Pages<T>,
) -> Result<Outcome, AllocError>
    requires { pages.old.made ≡ Made.Nothing }
    ensures answer { (d : Files) (dump : Dump) → IsOpened (λ s. IsUnreadOf (seen dump d) paths.now.image.now (⟦<Seen<'static, D::Placed> as PlacedFile>⟧.bytes s.file) s.failures) d paths.now.image.now dump opened.entry → IfOk result (OfFile d dump paths.now.image.now (λ s k agrees. WritesInto paths.now.out.now (D.files disk.old) (D.files disk.new) (writes command.now (T.agrees pages.new.contents) pages.new.made s k agrees) (HasWork command.now (T.agrees pages.new.contents) s k agrees))) }
    ensures others { OthersStay (D.files disk.old) (D.files disk.new) paths.now.out.now }
    ensures kept { IfOk result (λ o. o.status ≢ 0 → D.files disk.new ≡ D.files disk.old) }
    ensures contents { StaysOpen (T.known pages.old.contents) (T.known pages.new.contents) }
    ensures sound { IsSoundPages (T.known pages.new.contents).size (T.agrees pages.new.contents) (length pages.new.buffer.items) pages.new.made }
    ensures memory { OnErr result (AllStay (D.files disk.old) (D.files disk.new)) }
{
    match opened {
        OpenImage::AtPlaces(mut file) => {
            let geometry = file.geometry;
            let source = &mut file.source;
            let work = replace_into(disk, alloc, &geometry, source, paths, command, pages);
            command.remark(disk, alloc, &geometry, source, paths.image, &work);
            work
        }
        OpenImage::Whole(file) => {
            let geometry = file.geometry;
            let mut source = MemorySource::new(file.bytes.as_slice());
            let work = replace_into(disk, alloc, &geometry, &mut source, paths, command, pages);
            command.remark(disk, alloc, &geometry, &mut source, paths.image, &work);
            work
        }
    }
}

/// Does the work of a command over a dump for which it is known how it is read, to a file. The pages that it gives aren't used.
fn write_dump<D: Disk + Eprint>(
    disk: &mut D,
    alloc: Global,
    known: KnownDump<'_>,
    paths: &Paths<'_>,
    command: &Writing<'_>,
    is_watched: bool,
) -> Result<Outcome, AllocError>
    requires kept { ForSome known.kept (λ bytes. IsPartOf (D.files disk.old) known.dump paths.now.image.now bytes.items) }
    ensures answer { IfOk result (λ o. (pages : List ℕ) × OfFile (D.files disk.old) known.entry.dump paths.now.image.now (λ s k agrees. WritesInto paths.now.out.now (D.files disk.old) (D.files disk.new) (writes_of command.now [] s k agrees pages) (HasWorkOf command.now [] s k agrees)) o) }
    ensures others { OthersStay (D.files disk.old) (D.files disk.new) paths.now.out.now }
    ensures image { IfOk result (KeepsImage (D.files disk.old) (D.files disk.new) paths.now.image.now) }
    ensures read { may_replace command.now ≡ false → Stays (D.files disk.old) (D.files disk.new) paths.now.image.now }
    ensures memory { OnErr result (AllStay (D.files disk.old) (D.files disk.new)) }
{
    let KnownDump { dump, kept } = known;
    let frame = match frame_of(alloc, &dump) {
        Ok(frame) => frame,
        Err(unread) => return unread.answer(),
    };
    remark_start(disk, paths.image, &frame);
    let opened = match open_known_beside(disk, alloc, &frame, kept, paths) {
        Ok(opened) => opened,
        Err(unread) => return unread.answer(),
    };
    let mut pages = Pages::of(alloc, MemorySource::new(&[]));
    match opening_of(disk, &frame.dump, paths, command.may_replace()) {
        Opening::AtOnce => replace_opened(disk, alloc, opened, paths, command, &mut pages),
        Opening::Late => {
            let way = Way {
                paths: *paths,
                may_open: true,
                is_watched,
            };
            write_opened(disk, alloc, opened, &way, command, &mut pages)
        }
        Opening::Never => {
            let way = Way {
                paths: *paths,
                may_open: false,
                is_watched,
            };
            write_opened(disk, alloc, opened, &way, command, &mut pages)
        }
    }
}

/// Does the work of a command over one file, and writes another. The file is read as the words say, or as its own headers show.
pub fn write_file<D: Disk + Eprint>(
    disk: &mut D,
    alloc: Global,
    asked: &Asked<'_>,
    paths: &Paths<'_>,
    command: &Writing<'_>,
    is_watched: bool,
) -> Result<Outcome, AllocError>
    ensures answer { IfOk result (λ o. (pages : List ℕ) × OfAsked (D.files disk.old) (D.files disk.new) asked.now paths.now.image.now (λ s k agrees. WritesInto paths.now.out.now (D.files disk.old) (D.files disk.new) (writes_of command.now [] s k agrees pages) (HasWorkOf command.now [] s k agrees)) o) }
    ensures others { OthersStay (D.files disk.old) (D.files disk.new) paths.now.out.now }
    ensures image { IfOk result (KeepsImage (D.files disk.old) (D.files disk.new) paths.now.image.now) }
    ensures read { may_replace command.now ≡ false → Stays (D.files disk.old) (D.files disk.new) paths.now.image.now }
    ensures memory { OnErr result (AllStay (D.files disk.old) (D.files disk.new)) }
{
    match find_dump(disk, alloc, asked, paths.image, "") {
        Ok(known) => write_dump(disk, alloc, known, paths, command, is_watched),
        Err(unread) => unread.answer(),
    }
}
