//! The commands that compare what two image files mean: `same` and `diff`.

ghost use Rattle.std.specs.Bool.{Decides};
ghost use Rattle.std.specs.Option.{ForSome};
ghost use Rattle.std.specs.Prelude.{◌≡◌, IfErr, IfOk, Ok};
ghost use Rattle.ubi_scan.specs.Image.{image_of};
ghost use Rattle.ubi_scan.specs.Source.{Narrows};
ghost use Rattle.ubi_volume.specs.Accepts.{Accepts};
ghost use Rattle.ubi_volume.specs.Meant.{Meant};
ghost use Rattle.ubi_compare.specs.Compared as compared;
ghost use Rattle.ubi_compare.specs.Compared.{IsCompareFault, WhereBothHeld};
ghost use Rattle.ubi_files.specs.AfterRun.{after_left, after_right};
ghost use Rattle.ubi_files.specs.Answer.{Gives, says};
ghost use Rattle.ubi_files.specs.Kept.{IsPartOf};
ghost use Rattle.ubi_files.specs.Numbers.{sizes_of};
ghost use Rattle.ubi_files.specs.OverFile.{IsUnseen};
ghost use Rattle.ubi_files.specs.Told.{Tells};
ghost use Rattle.ubi_reading.specs.Comparisons.{AnswersAny, AnswersOf, Compares, ComparesFrom, ComparesOf, comparison_format, comparison_status, differences_text, differences_told, same_told};
ghost use Rattle.ubi_reading.specs.Formats.{side_told};
ghost use Rattle.ubi_reading.specs.InFormat.{OfBothIn};
ghost use Rattle.ubi_dumps.specs.Read.{IsUnreadOfBoth, OfRead, OfReadBoth, OfReadDumps};
ghost use Rattle.ubi_dumps.specs.Lines.{unlike_line};
ghost use Rattle.ubi_dumps.specs.Ended.{IsUnreadSide, Works};
ghost use Rattle.ubi_dumps.specs.Read.{IsUnseenOfDumps};
ghost use Rattle.ubi_json.specs.Differences.{are_none};

use crate::differences::put_differences;
use crate::format::{Format, side_told, told_in};
use crate::lines::put_comparison;
use std::alloc::{AllocError, Global};
use ubi_compare::{CompareFault, Difference, Side, diff_from, same_from};
use ubi_dumps::{
    Asked, KnownDump, find_dump, open_known, remark_passed_over, remark_start, unlike_line,
};
use ubi_files::{
    DONE, Disk, Dump, FAILED, OpenImage, Outcome, SidesError, ToolError, Unread, frame_of,
    unread_file,
};
use ubi_json::{differences_line, same_line};
use ubi_media::{Geometry, Refusal};
use ubi_scan::{BlockSource, MemorySource, StreamError};

/// A command that compares what two images mean.
#[derive(Clone, Copy)]
pub enum Comparison {
    /// `same`: whether they mean the same.
    Same(Format),
    /// `diff`: where they differ.
    Diff(Format),
}

/// The status of a comparison.
fn status_of(is_same: bool) -> u8
    ensures { result ≡ comparison_status is_same }
{
    if is_same { DONE } else { FAILED }
}

/// What is printed in a format for two images that mean the same, or don't.
fn same_told(alloc: Global, format: Format, is_same: bool) -> Result<Vec<u8>, AllocError>
    ensures { IfOk result (λ text. text.items ≡ same_told format is_same) }
{
    match format {
        Format::Text => {
            let mut text = Vec::new(alloc);
            put_comparison(&mut text, is_same)?;
            Ok(text)
        }
        Format::Json => same_line(alloc, is_same),
    }
}

/// The lines of these differences of two images.
fn differences_text(alloc: Global, told: &[Difference]) -> Result<Vec<u8>, AllocError>
    ensures { IfOk result (λ text. text.items ≡ differences_text told.now) }
{
    let mut text = Vec::new(alloc);
    put_differences(alloc, &mut text, told)?;
    put_comparison(&mut text, told.is_empty())?;
    Ok(text)
}

/// What is printed in a format for these differences of two images.
fn differences_told(
    alloc: Global,
    format: Format,
    told: &[Difference],
) -> Result<Vec<u8>, AllocError>
    ensures { IfOk result (λ text. text.items ≡ differences_told format told.now) }
{
    match format {
        Format::Text => differences_text(alloc, told),
        Format::Json => differences_line(alloc, told),
    }
}

/// What is answered for two images that mean the same, or don't.
fn same_outcome(alloc: Global, format: Format, is_same: bool) -> Result<Outcome, AllocError>
    ensures { IfOk result (λ o. Gives o (says (same_told format is_same) (comparison_status is_same))) }
{
    let text = same_told(alloc, format, is_same)?;
    Ok(Outcome::saying(text, status_of(is_same)))
}

/// What is answered for two images with these differences.
fn diff_outcome(alloc: Global, format: Format, told: &[Difference]) -> Result<Outcome, AllocError>
    ensures { IfOk result (λ o. Gives o (says (differences_told format told.now) (comparison_status (are_none told.now)))) }
{
    let text = differences_told(alloc, format, told)?;
    Ok(Outcome::saying(text, status_of(told.is_empty())))
}

impl Comparison {
    /// The format of the answer.
    fn format(self) -> Format
        ensures { result ≡ comparison_format self }
    {
        match self {
            Comparison::Same(format) | Comparison::Diff(format) => format,
        }
    }

    /// What is answered for one of two images that is refused.
    fn refused(self, alloc: Global, side: Side, cause: Refusal) -> Result<Outcome, AllocError>
        ensures { IfOk result (λ o. Gives o (says (side_told (comparison_format self) side cause) 1)) }
    {
        let line = side_told(alloc, self.format(), side, cause)?;
        Ok(Outcome::saying(line, FAILED))
    }

    /// Compares two sources of one geometry, which can be surveyed.
    ///
    /// # Errors
    ///
    /// Those of [`same_from`].
    fn compare<L: BlockSource, R: BlockSource>(
        self,
        alloc: Global,
        geometry: &Geometry,
        left: &mut L,
        right: &mut R,
    ) -> Result<Outcome, CompareFault>
        ensures left { L.known left.new ≡ compared.after_left (L.known left.old) result }
        ensures right { R.known right.new ≡ compared.after_right (R.known right.old) result }
        ensures left_narrows { Narrows (L.agrees left.old) (L.agrees left.new) }
        ensures right_narrows { Narrows (R.agrees right.old) (R.agrees right.new) }
        ensures any { IfOk result (AnswersAny self) }
        ensures images { IfOk result (λ o. WhereBothHeld (L.agrees left.new) (R.agrees right.new) (λ x y. (m : Meant) × (n : Meant) × Accepts (image_of geometry.now x) m × Accepts (image_of geometry.now y) n × AnswersOf self m n o)) }
        ensures refused { IfErr result (IsCompareFault geometry.now (L.known left.old) (L.agrees left.new) (R.known right.old) (R.agrees right.new)) }
    {
        match self {
            Comparison::Same(format) => {
                let is_same = same_from(alloc, geometry, left, right)?;
                Ok(same_outcome(alloc, format, is_same)?)
            }
            Comparison::Diff(format) => {
                let told = diff_from(alloc, geometry, left, right)?;
                Ok(diff_outcome(alloc, format, told.as_slice())?)
            }
        }
    }

    /// Compares what two sources of one geometry mean, and answers that, or what is printed for the first one
    /// that is refused. One eraseblock of contents of each is held at a time.
    ///
    /// # Errors
    ///
    /// The side on which a read failed. `Memory` if memory ran out.
    pub fn answer<L: BlockSource, R: BlockSource>(
        self,
        alloc: Global,
        geometry: &Geometry,
        left: &mut L,
        right: &mut R,
    ) -> Result<Outcome, SidesError>
        ensures left { L.known left.new ≡ after_left (L.known left.old) result }
        ensures right { R.known right.new ≡ after_right (R.known right.old) result }
        ensures left_narrows { Narrows (L.agrees left.old) (L.agrees left.new) }
        ensures right_narrows { Narrows (R.agrees right.old) (R.agrees right.new) }
        ensures compared { IfOk result (ComparesFrom self geometry.now (L.known left.old) (L.agrees left.new) (R.known right.old) (R.agrees right.new)) }
        ensures compares { IfOk result (λ o. WhereBothHeld (L.agrees left.new) (R.agrees right.new) (λ x y. Compares self (image_of geometry.now x) (image_of geometry.now y) o)) }
    {
        match self.compare(alloc, geometry, left, right) {
            Ok(outcome) => Ok(outcome),
            Err(CompareFault::Left(StreamError::Refused(cause))) => {
                Ok(self.refused(alloc, Side::Left, cause)?)
            }
            Err(CompareFault::Right(StreamError::Refused(cause))) => {
                Ok(self.refused(alloc, Side::Right, cause)?)
            }
            Err(CompareFault::Left(StreamError::Read(..))) => Err(SidesError::Left),
            Err(CompareFault::Right(StreamError::Read(..))) => Err(SidesError::Right),
            Err(
                CompareFault::Left(StreamError::Memory)
                | CompareFault::Right(StreamError::Memory)
                | CompareFault::Memory,
            ) => Err(SidesError::Memory),
            // Nothing is written.
            Err(
                CompareFault::Left(StreamError::Write(_))
                | CompareFault::Right(StreamError::Write(_)),
            ) => unreachable!(),
        }
    }
}

/// The outcome of a comparison of two files.
///
/// # Errors
///
/// The line of the file of which a read failed, or that memory ran out.
fn done_over_sides(
    alloc: Global,
    work: Result<Outcome, SidesError>,
    left: &str,
    right: &str,
) -> Result<Outcome, Unread>
    ensures done { IfOk result (λ o. work ≡ Ok o) }
    ensures unread { IfErr result (Tells (IsUnreadSide work left.now right.now)) }
{
    match work {
        Ok(outcome) => Ok(outcome),
        Err(error) => match error {
            SidesError::Left => Err(unread_file(alloc, left, ToolError::Read)),
            SidesError::Right => Err(unread_file(alloc, right, ToolError::Read)),
            SidesError::Memory => Err(Unread::Memory),
        },
    }
}

/// A dump for which it is known how it is read, and the path of its file.
#[derive(Drop)]
struct KnownFile<'a, 'p> {
    /// The dump.
    known: KnownDump<'a>,
    /// The path.
    path: &'p str,
}

/// Compares what the source over the left file means with what the right dump means, which has the same geometry.
///
/// # Errors
///
/// The line of a right dump that can't be opened, or of the file of which a read failed; or that memory ran out.
fn compare_beside<D: Disk + Eprint, S: BlockSource>(
    disk: &D,
    alloc: Global,
    how: Comparison,
    source: &mut S,
    left: &str,
    right: KnownFile<'_, '_>,
) -> Result<Outcome, Unread>
    requires kept { ForSome right.known.kept (λ bytes. IsPartOf (D.files disk.now) right.known.dump right.path.now bytes.items) }
    ensures narrows { Narrows (S.agrees source.old) (S.agrees source.new) }
    ensures answer { IfOk result (λ o. (S.known source.new ≡ S.known source.old) × OfRead (D.files disk.now) right.entry.known.dump right.entry.path.now (λ s l there. ComparesOf how s (S.known source.old) (S.agrees source.new) l there) o) }
    ensures unread { IfErr result (Tells (Works (S.known source.old) (S.known source.new) left.now (IsUnseen (D.files disk.now) right.entry.known.dump right.entry.path.now))) }
{
    let KnownFile {
        known: KnownDump { dump, kept },
        path,
    } = right;
    let frame = frame_of(alloc, &dump)?;
    remark_start(disk, path, &frame);
    match open_known(disk, alloc, &frame, kept, path)? {
        OpenImage::AtPlaces(mut file) => {
            let geometry = file.geometry;
            let work = how.answer(alloc, &geometry, source, &mut file.source);
            if work.is_ok() {
                remark_passed_over(disk, alloc, &geometry, &mut file.source, path);
            }
            done_over_sides(alloc, work, left, path)
        }
        OpenImage::Whole(file) => {
            let mut beside = MemorySource::new(file.bytes.as_slice());
            let work = how.answer(alloc, &file.geometry, source, &mut beside);
            if work.is_ok() {
                remark_passed_over(disk, alloc, &file.geometry, &mut beside, path);
            }
            done_over_sides(alloc, work, left, path)
        }
    }
}

/// Compares what two dumps of one geometry mean. Both are opened before the first is judged.
///
/// # Errors
///
/// The line of a dump that can't be opened, or that memory ran out.
fn compare_dumps<D: Disk + Eprint>(
    disk: &D,
    alloc: Global,
    how: Comparison,
    left: KnownFile<'_, '_>,
    right: KnownFile<'_, '_>,
) -> Result<Outcome, Unread>
    requires left { ForSome left.known.kept (λ bytes. IsPartOf (D.files disk.now) left.known.dump left.path.now bytes.items) }
    requires right { ForSome right.known.kept (λ bytes. IsPartOf (D.files disk.now) right.known.dump right.path.now bytes.items) }
    requires alike { left.known.dump.numbers ≡ right.known.dump.numbers }
    ensures answer { IfOk result (OfReadDumps (D.files disk.now) left.entry.known.dump left.entry.path.now right.entry.known.dump right.entry.path.now (ComparesOf how)) }
    ensures unread { IfErr result (Tells (IsUnseenOfDumps (D.files disk.now) left.entry.known.dump left.entry.path.now right.entry.known.dump right.entry.path.now)) }
{
    let KnownFile {
        known: KnownDump { dump, kept },
        path,
    } = left;
    let frame = frame_of(alloc, &dump)?;
    remark_start(disk, path, &frame);
    match open_known(disk, alloc, &frame, kept, path)? {
        OpenImage::AtPlaces(mut file) => {
            let geometry = file.geometry;
            let work = compare_beside(disk, alloc, how, &mut file.source, path, right);
            if work.is_ok() {
                remark_passed_over(disk, alloc, &geometry, &mut file.source, path);
            }
            work
        }
        OpenImage::Whole(file) => {
            let mut source = MemorySource::new(file.bytes.as_slice());
            let work = compare_beside(disk, alloc, how, &mut source, path, right);
            if work.is_ok() {
                remark_passed_over(disk, alloc, &file.geometry, &mut source, path);
            }
            work
        }
    }
}

/// Whether two dumps have the same geometry.
fn are_alike(left: &Dump<'_>, right: &Dump<'_>) -> bool
    ensures { Decides result (left.now.numbers ≡ right.now.numbers) }
{
    left.numbers == right.numbers
}

/// What is printed for two dumps whose own geometries differ: the line of both; or that memory ran out.
fn unlike(alloc: Global, left: &Dump<'_>, right: &Dump<'_>) -> Unread
    ensures { Tells (λ o. Gives o (says (unlike_line (sizes_of left.now.numbers) (sizes_of right.now.numbers)) 1)) result }
{
    match unlike_line(alloc, left.numbers, right.numbers) {
        Ok(line) => Unread::Told(Outcome::saying(line, FAILED)),
        Err(AllocError) => Unread::Memory,
    }
}

/// Compares what two files mean. Each is read as the words say, or as its own headers show. Both are opened before the first is judged.
///
/// # Errors
///
/// The line of a file in which no dump is found, of two dumps whose geometries differ, or of a dump that can't be opened; or that
/// memory ran out.
fn compare_both<D: Disk + Eprint>(
    disk: &D,
    alloc: Global,
    how: Comparison,
    asked: &Asked<'_>,
    left: &str,
    right: &str,
) -> Result<Outcome, Unread>
    ensures answer { IfOk result (OfReadBoth (D.files disk.now) asked.now left.now right.now (ComparesOf how)) }
    ensures unread { IfErr result (Tells (IsUnreadOfBoth (D.files disk.now) asked.now left.now right.now)) }
{
    let here = find_dump(disk, alloc, asked, left, "left ")?;
    let there = find_dump(disk, alloc, asked, right, "right ")?;
    if !are_alike(&here.dump, &there.dump) {
        return Err(unlike(alloc, &here.dump, &there.dump));
    }
    let left = KnownFile {
        known: here,
        path: left,
    };
    let right = KnownFile {
        known: there,
        path: right,
    };
    compare_dumps(disk, alloc, how, left, right)
}

/// What comparing two files answers, in its format. Each file is read as the words say, or as its own headers show.
pub fn compare_files<D: Disk + Eprint>(
    disk: &D,
    alloc: Global,
    how: Comparison,
    asked: &Asked<'_>,
    left: &str,
    right: &str,
) -> Result<Outcome, AllocError>
    ensures { IfOk result (OfBothIn (comparison_format how) (D.files disk.now) asked.now left.now right.now (ComparesOf how)) }
{
    let work = compare_both(disk, alloc, how, asked, left, right);
    told_in(alloc, how.format(), work)
}
