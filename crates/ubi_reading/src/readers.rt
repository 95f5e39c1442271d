//! The commands that read an image file, and write none.

ghost use Rattle.std.specs.Option.{ForSome};
ghost use Rattle.std.specs.Prelude.{◌≡◌, Err, IfErr, IfOk, codes};
ghost use Rattle.ubi_scan.specs.Source.{Narrows};
ghost use Rattle.ubi_files.specs.AfterRun.{IsNoWrite, after_run};
ghost use Rattle.ubi_files.specs.Answer.{Gives, says};
ghost use Rattle.ubi_files.specs.Kept.{IsPartOf};
ghost use Rattle.ubi_reading.specs.InFormat.{OfAskedIn, OfFileIn};
ghost use Rattle.ubi_dumps.specs.Read.{IsUnreadOfAsked, OfRead, OfReadAsked};
ghost use Rattle.ubi_files.specs.OverFile.{IsUnseen, OfFile};
ghost use Rattle.ubi_files.specs.Told.{Tells};
ghost use Rattle.ubi_files.specs.Lines.{file_line};
ghost use Rattle.ubi_reading.specs.Reads.{format_of, reads};

use crate::check::run_check_from;
use crate::format::{Format, told_in};
use crate::geometry::run_geometry_from;
use crate::list::run_list_from;
use crate::map::{run_map_from, run_page_from};
use crate::show::run_show_from;
use std::alloc::{AllocError, Global};
use ubi_dumps::{
    Asked, KnownDump, find_dump, is_done, open_known, remark_passed_over, remark_start,
};
use ubi_files::{Disk, FilePart, OpenImage, Outcome, ToolError, Unread, frame_of, unread_file};
use ubi_media::Geometry;
use ubi_scan::{BlockSource, MemorySource};

/// A command that reads one image, and writes no file.
#[derive(Clone, Copy)]
pub enum Reading {
    /// `geometry`: the geometries that the headers in a part of the file give, and which part is the image, whatever geometry the
    /// words give.
    Geometry(FilePart, Format),
    /// `list`: the volumes.
    List(Format),
    /// `check`: the states of the eraseblocks.
    Check(Format),
    /// `show`: the headers of the eraseblock with this number.
    Show(u32),
    /// `map`: a letter for each eraseblock.
    Map,
    /// `map` with a page that shows them, as the file of its outcome.
    Page,
}

impl Reading {
    /// The format of the answer.
    fn format(&self) -> Format
        ensures { result ≡ format_of self.now }
    {
        match self {
            Reading::Geometry(_, format) | Reading::List(format) | Reading::Check(format) => {
                *format
            }
            Reading::Show(_) | Reading::Map | Reading::Page => Format::Text,
        }
    }

    /// Does its work over a source.
    ///
    /// # Errors
    ///
    /// `Read` if a read failed. `Memory` if memory ran out.
    pub fn answer<S: BlockSource>(
        &self,
        alloc: Global,
        geometry: &Geometry,
        source: &mut S,
    ) -> Result<Outcome, ToolError>
        ensures known { S.known source.new ≡ after_run (S.known source.old) result }
        ensures narrows { Narrows (S.agrees source.old) (S.agrees source.new) }
        ensures answer { IfOk result (reads self.now geometry.now (S.known source.old) (S.agrees source.new)) }
        ensures failed { IfErr result IsNoWrite }
    {
        match self {
            Reading::Geometry(part, format) => run_geometry_from(alloc, source, *part, *format),
            Reading::List(format) => run_list_from(alloc, geometry, source, *format),
            Reading::Check(format) => run_check_from(alloc, geometry, source, *format),
            Reading::Show(block) => run_show_from(alloc, geometry, source, *block),
            Reading::Map => run_map_from(alloc, geometry, source),
            Reading::Page => run_page_from(alloc, geometry, source),
        }
    }

    /// Says what its answer over a source leaves out, if it lists volumes.
    fn remark<R: Eprint, S: BlockSource>(
        &self,
        rt: &R,
        alloc: Global,
        geometry: &Geometry,
        source: &mut S,
        path: &str,
        work: &Result<Outcome, ToolError>,
    ) {
        if matches!(self, Reading::List(_)) && is_done(work) {
            remark_passed_over(rt, alloc, geometry, source, path);
        }
    }
}

/// The outcome of work over a file.
///
/// # Errors
///
/// The line of the file, if a read failed; or that memory ran out.
fn done_over(alloc: Global, work: Result<Outcome, ToolError>, path: &str) -> Result<Outcome, Unread>
    requires { IfErr work IsNoWrite }
    ensures done { IfOk result (λ o. work ≡ Ok o) }
    ensures unread { IfErr result (Tells (λ o. (work ≡ Err ToolError.Read) × Gives o (says (file_line (codes "cannot read ") path.now) 1))) }
{
    match work {
        Ok(outcome) => Ok(outcome),
        Err(ToolError::Read) => Err(unread_file(alloc, path, ToolError::Read)),
        Err(ToolError::Memory) => Err(Unread::Memory),
        // Nothing is written.
        Err(ToolError::Write) => unreachable!(),
    }
}

/// Does the work of a command over a dump for which it is known how it is read.
///
/// # Errors
///
/// The line of a dump that can't be opened, or that memory ran out.
fn answer_dump<D: Disk + Eprint>(
    disk: &D,
    alloc: Global,
    known: KnownDump<'_>,
    image: &str,
    command: &Reading,
) -> Result<Outcome, Unread>
    requires kept { ForSome known.kept (λ bytes. IsPartOf (D.files disk.now) known.dump image.now bytes.items) }
    ensures answer { IfOk result (OfRead (D.files disk.now) known.entry.dump image.now (reads command.now)) }
    ensures unread { IfErr result (Tells (IsUnseen (D.files disk.now) known.entry.dump image.now)) }
{
    let KnownDump { dump, kept } = known;
    let frame = frame_of(alloc, &dump)?;
    remark_start(disk, image, &frame);
    match open_known(disk, alloc, &frame, kept, image)? {
        OpenImage::AtPlaces(mut file) => {
            let geometry = file.geometry;
            let work = command.answer(alloc, &geometry, &mut file.source);
            command.remark(disk, alloc, &geometry, &mut file.source, image, &work);
            done_over(alloc, work, image)
        }
        OpenImage::Whole(file) => {
            let mut source = MemorySource::new(file.bytes.as_slice());
            let work = command.answer(alloc, &file.geometry, &mut source);
            command.remark(disk, alloc, &file.geometry, &mut source, image, &work);
            done_over(alloc, work, image)
        }
    }
}

/// Does the work of a command over an image file, which is read as the words say, or as its own headers show.
///
/// # Errors
///
/// The line of a file in which no dump is found, or whose dump can't be opened; or that memory ran out.
fn answer_file<D: Disk + Eprint>(
    disk: &D,
    alloc: Global,
    asked: &Asked<'_>,
    image: &str,
    command: &Reading,
) -> Result<Outcome, Unread>
    ensures answer { IfOk result (OfReadAsked (D.files disk.now) asked.now image.now (reads command.now)) }
    ensures unread { IfErr result (Tells (IsUnreadOfAsked (D.files disk.now) (D.files disk.now) asked.now image.now)) }
{
    let known = find_dump(disk, alloc, asked, image, "")?;
    answer_dump(disk, alloc, known, image, command)
}

/// What a command answers over a dump for which it is known how it is read, in its format.
pub fn read_dump<D: Disk + Eprint>(
    disk: &D,
    alloc: Global,
    known: KnownDump<'_>,
    image: &str,
    command: &Reading,
) -> Result<Outcome, AllocError>
    requires kept { ForSome known.kept (λ bytes. IsPartOf (D.files disk.now) known.dump image.now bytes.items) }
    ensures { IfOk result (OfFileIn (format_of command.now) (D.files disk.now) known.entry.dump image.now (reads command.now)) }
{
    let work = answer_dump(disk, alloc, known, image, command);
    told_in(alloc, command.format(), work)
}

/// What a command answers over an image file, in its format. The file is read as the words say, or as its own headers show.
pub fn read_file<D: Disk + Eprint>(
    disk: &D,
    alloc: Global,
    asked: &Asked<'_>,
    image: &str,
    command: &Reading,
) -> Result<Outcome, AllocError>
    ensures { IfOk result (OfAskedIn (format_of command.now) (D.files disk.now) (D.files disk.now) asked.now image.now (reads command.now)) }
{
    let work = answer_file(disk, alloc, asked, image, command);
    told_in(alloc, command.format(), work)
}
