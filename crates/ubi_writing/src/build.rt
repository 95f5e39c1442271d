//! The command `build`: the image that is built from a config, and from the files that it names.

ghost use Rattle.std.specs.Prelude.{◌≡◌, ◌+◌, ◌≤◌, ◌⊎◌, ◌∷◌, [], ℕ, Contains, Err, IfErr, IfOk, IsOk, IsSome, List, None, Ok, OnErr, false, map, sum_by, vec_capacity, vec_len};
ghost use Rattle.ubi_compose.specs.Building.{WhereNotBegun};
ghost use Rattle.ubi_compose.specs.Built.{HaveMeaning};
ghost use Rattle.ubi_config.specs.Config.{first_config_fault, sections_of};
ghost use Rattle.ubi_config.specs.declared.section.Section.{Section};
ghost use Rattle.ubi_writing.specs.Build.{Builds, BuildsParts, numbered_parts};
ghost use Rattle.ubi_writing.specs.inner.Gathering.{AreUnread};
ghost use Rattle.ubi_files.specs.Disk.{AllStay, OthersStay, Stays, fresh};
ghost use Rattle.ubi_files.specs.Late.{contents_of};
ghost use Rattle.ubi_writing.specs.Outputs.{OfText};
ghost use Rattle.ubi_files.specs.Row.{row_bytes};
ghost use Rattle.ubi_files.specs.declared.outcome.Outcome.{Outcome};
ghost use Rattle.ubi_writing.specs.inner.Built.{AreAnswers, IsNotBegun, IsToldOf};

use crate::compose::{meaning_line, room_line};
use crate::gathered::{ConfigPaths, Gathered, config_line, gather};
use crate::lines::{LONGEST_COUNT_LINE, put_blocks_line};
use crate::orders::NewImage;
use crate::spec_file::load_spec;
use std::alloc::{AllocError, Global};
use std::marker::Brand;
use ubi_compose::{BuildError, Recipe, RecipeError, build_to};
use ubi_config::{ConfigError, Section, parse_config};
use ubi_dumps::{keep_file, unwritten_line};
use ubi_files::{DONE, Disk, FAILED, FileRow, LateFile, Numbers, Outcome, Target, unread_line};
use ubi_media::Geometry;
use ubi_scan::{BlockSource, FileSource};

/// What can be answered for a build. It is made before the output is opened, so that nothing is written if memory runs out.
#[derive(Drop)]
struct Answers {
    /// Room for the line of a number of eraseblocks.
    line: Vec<u8>,
    /// The answer if the bytes of a volume can't be read, for each volume; and the answer for other reads.
    unread: Vec<Outcome>,
    unread_else: Outcome,
    /// The answer if the output can't be written.
    unwritten: Outcome,
    /// Whether the output may be opened: it may not if it could be the config.
    may_open: bool,
}

/// The line at a place, or another if there is none.
fn line_at(mut lines: Vec<Outcome>, place: Option<usize>, other: Outcome) -> Outcome
    ensures { Contains (other ∷ lines.items) result }
{
    match place {
        Some(place) if place < lines.len() => lines.swap_remove(place),
        _ => other,
    }
}

/// The line of the volume with a number, among those of all volumes; or another if there is none.
fn unread_of(recipe: &Recipe, id: u32, lines: Vec<Outcome>, other: Outcome) -> Outcome
    ensures { Contains (other ∷ lines.items) result }
{
    let place = recipe.parts().iter().position(|part| part.id == id);
    line_at(lines, place, other)
}

/// Opens the output of a build that was done, if no write did.
///
/// # Errors
///
/// Those of the build, and `Write` if the output can't be opened.
fn finished<D: Disk, K: Target>(
    work: Result<u64, BuildError>,
    late: &mut LateFile<'_, '_, D, K>,
) -> Result<u64, BuildError>
    ensures done { IfOk result (λ n. (work ≡ Ok n) × IsSome late.new.file) }
    ensures failed { IfErr result (λ e. (work ≡ Err e) ⊎ ((n : ℕ) × (e ≡ BuildError.Write n) × (work ≡ Ok n))) }
    ensures contents { contents_of (fresh K.files) (λ f. D.Output.contents f.writer) late.new.file ≡ contents_of (fresh K.files) (λ f. D.Output.contents f.writer) late.old.file }
    ensures untouched { IfErr result (WhereNotBegun (late.new.file ≡ late.old.file)) }
{
    let count = work?;
    match late.finish() {
        Ok(()) => Ok(count),
        Err(_) => Err(BuildError::Write(count)),
    }
}

/// What is answered for a build that ended with this result.
///
/// # Errors
///
/// Memory ran out, and nothing was written.
fn told(
    alloc: Global,
    recipe: &Recipe,
    end: Result<u64, BuildError>,
    answers: Answers,
) -> Result<Outcome, AllocError>
    requires empty { answers.line.items ≡ [] }
    requires room { vec_len answers.line + 28 ≤ vec_capacity answers.line }
    ensures told { (config out : List ℕ) (sections : List Section) → AreAnswers config out sections answers → IfOk result (IsToldOf recipe.now.sizes config out sections end) }
    ensures memory { OnErr result (IfErr end IsNotBegun) }
    ensures done { IfOk end (λ _. IsOk result) }
    ensures meaning { HaveMeaning recipe.now }
{
    let Answers {
        mut line,
        unread,
        unread_else,
        unwritten,
        ..
    } = answers;
    let peb_size = u64::from(recipe.geometry().peb_size());
    match end {
        Ok(count) => {
            put_blocks_line(&mut line, count / peb_size)?;
            Ok(Outcome::saying(line, DONE))
        }
        Err(error) => match error {
            BuildError::TooMany => Ok(Outcome::saying(room_line(alloc)?, FAILED)),
            BuildError::Memory => Err(AllocError),
            BuildError::Write(_) => Ok(unwritten),
            BuildError::Read(id, _) => Ok(unread_of(recipe, id, unread, unread_else)),
            // The source is as long as all of its files.
            BuildError::Beyond(_) => Ok(unread_else),
        },
    }
}

/// Builds the image of a recipe into a file, which is opened at the first write. Returns the disk.
fn build_into<'a, D: Disk, K: Target>(
    disk: &'a mut D,
    alloc: Global,
    recipe: &Recipe,
    source: &mut FileSource<FileRow<D::Placed>>,
    answers: Answers,
    asked: &NewImage<'_>,
    outcome: &mut Result<Outcome, AllocError>,
) -> &'a mut D
    requires same { disk.ghost_name ≡ K.disk }
    requires named { asked.now.out.now ≡ K.path }
    requires files { D.files disk.old ≡ K.files }
    requires allowed { answers.may_open ≡ K.may_open }
    requires empty { answers.line.items ≡ [] }
    requires room { vec_len answers.line + 28 ≤ vec_capacity answers.line }
    ensures same { result.ghost_name ≡ K.disk }
    ensures answer { (sections : List Section) → AreAnswers asked.now.from.now asked.now.out.now sections answers → IfOk outcome.new (BuildsParts K.files (D.files result.now) asked.now.from.now asked.now.out.now sections recipe.now (row_bytes (map (λ f. D.Placed.bytes f.file) source.old.file.files.items)) asked.now.spares) }
    ensures others { OthersStay K.files (D.files result.now) asked.now.out.now }
    ensures shut { K.may_open ≡ false → D.files result.now ≡ K.files }
    ensures memory { OnErr outcome.new (AllStay K.files (D.files result.now)) }
{
    let mut late: LateFile<'a, '_, D, K> = LateFile::new(disk, asked.out, answers.may_open);
    let work = build_to(alloc, recipe, asked.spares, source, &mut late);
    let end = finished(work, &mut late);
    let (disk, file) = late.into_parts();
    keep_file(disk, file);
    *outcome = told(alloc, recipe, end, answers);
    disk
}

/// Builds the image of the volumes that sections give.
fn build_gathered<D: Disk>(
    disk: &mut D,
    alloc: Global,
    geometry: &Geometry,
    gathered: Gathered<D::Placed>,
    asked: &NewImage<'_>,
) -> Result<Outcome, AllocError>
    requires total { gathered.total ≡ sum_by (λ x. x.len) gathered.files.items }
    ensures answer { (sections : List Section) → AreUnread asked.now.from.now sections gathered.unread.items → IfOk result (BuildsParts (D.files disk.old) (D.files disk.new) asked.now.from.now asked.now.out.now sections (numbered_parts geometry.now asked.now.image_seq gathered.parts.items) (row_bytes (map (λ f. D.Placed.bytes f.file) gathered.files.items)) asked.now.spares) }
    ensures others { OthersStay (D.files disk.old) (D.files disk.new) asked.now.out.now }
    ensures from { Stays (D.files disk.old) (D.files disk.new) asked.now.from.now }
    ensures memory { OnErr result (AllStay (D.files disk.old) (D.files disk.new)) }
{
    let Gathered {
        parts,
        files,
        total,
        unread,
    } = gathered;
    let recipe = match Recipe::new(alloc, geometry, asked.image_seq, parts) {
        Ok(recipe) => recipe,
        Err(RecipeError::Refused(cause)) => {
            return Ok(Outcome::saying(meaning_line(alloc, cause)?, FAILED));
        }
        Err(RecipeError::Memory) => return Err(AllocError),
    };
    let mut source = FileSource::of(FileRow::new(files), total);
    let answers = Answers {
        line: Vec::with_capacity(alloc, LONGEST_COUNT_LINE)?,
        unread,
        unread_else: unread_line(alloc, asked.from)?,
        unwritten: unwritten_line(alloc, asked.out)?,
        may_open: !disk.may_be_one(asked.from, asked.out),
    };
    let mut outcome = Err(AllocError);
    let _ = build_into::<D, Brand>(
        disk,
        alloc,
        &recipe,
        &mut source,
        answers,
        asked,
        &mut outcome,
    );
    outcome
}

/// Builds the image from the sections of a config.
fn build_sections<D: Disk>(
    disk: &mut D,
    alloc: Global,
    geometry: &Geometry,
    sections: &[Section],
    asked: &NewImage<'_>,
) -> Result<Outcome, AllocError>
    ensures answer { (text : List ℕ) → first_config_fault text ≡ None → sections.now ≡ sections_of text → IfOk result (Builds (D.files disk.old) (D.files disk.new) asked.now.from.now asked.now.out.now geometry.now text asked.now.spares asked.now.image_seq) }
    ensures others { OthersStay (D.files disk.old) (D.files disk.new) asked.now.out.now }
    ensures from { Stays (D.files disk.old) (D.files disk.new) asked.now.from.now }
    ensures memory { OnErr result (AllStay (D.files disk.old) (D.files disk.new)) }
{
    let paths = ConfigPaths {
        config: asked.from,
        out: asked.out,
    };
    match gather(disk, alloc, geometry, sections, paths) {
        Ok(gathered) => build_gathered(disk, alloc, geometry, gathered, asked),
        Err(unread) => unread.answer(),
    }
}

/// Builds the image from a config and from the files that it names, into another file. The files are read one logical
/// eraseblock at a time.
pub fn build_file<D: Disk>(
    disk: &mut D,
    alloc: Global,
    numbers: Numbers,
    asked: &NewImage<'_>,
) -> Result<Outcome, AllocError>
    ensures answer { IfOk result (OfText (D.files disk.old) numbers asked.now.from.now (λ s t. Builds (D.files disk.old) (D.files disk.new) asked.now.from.now asked.now.out.now s t asked.now.spares asked.now.image_seq)) }
    ensures others { OthersStay (D.files disk.old) (D.files disk.new) asked.now.out.now }
    ensures from { Stays (D.files disk.old) (D.files disk.new) asked.now.from.now }
    ensures memory { OnErr result (AllStay (D.files disk.old) (D.files disk.new)) }
{
    let file = match load_spec(disk, alloc, numbers, asked.from) {
        Ok(file) => file,
        Err(unread) => return unread.answer(),
    };
    match parse_config(alloc, file.text.as_slice()) {
        Ok(sections) => build_sections(disk, alloc, &file.geometry, sections.as_slice(), asked),
        Err(ConfigError::Refused { line, cause }) => config_line(alloc, line, cause),
        Err(ConfigError::Memory) => Err(AllocError),
    }
}
