//! The command `map`: what lies where in an image, a letter for each eraseblock, and a page that shows it.

ghost use Rattle.std.specs.Prelude.{◌≡◌, ◌≤◌, ◌++◌, IfErr, IfOk, OnErr, map, option_map, string_bytes};
ghost use Rattle.ubi_scan.specs.Image.{image_of};
ghost use Rattle.ubi_scan.specs.Source.{Narrows, WhereHeld, blocks_in, blocks_of};
ghost use Rattle.ubi_volume.specs.Places.{ArePlacesError};
ghost use Rattle.ubi_files.specs.AfterRun.{IsNoWrite, after_run};
ghost use Rattle.ubi_files.specs.Answer.{Gives, says};
ghost use Rattle.ubi_files.specs.Disk.{AllStay};
ghost use Rattle.ubi_files.specs.Lines.{refusal_line};
ghost use Rattle.ubi_map.specs.Letters.{header_letters, rows};
ghost use Rattle.ubi_map.specs.Map.{block_texts};
ghost use Rattle.ubi_reading.specs.Map.{AnswersMap, LeavesMap};
ghost use Rattle.ubi_reading.specs.Map.{IsPageOf, Maps, MapsFrom, PicturesOf, state_rows};
ghost use Rattle.ubi_reading.specs.inner.Pictured.{IsPageBy};

use crate::list::keep_volumes;
use crate::readers::{Reading, read_file};
use std::alloc::{AllocError, Global};
use ubi_dumps::{Asked, write_outcome};
use ubi_files::{DONE, Disk, FAILED, Outcome, ToolError, in_memory, refusal_line};
use ubi_map::{block_texts, header_letters, put_rows, refused_page, state_letters, surveyed_page};
use ubi_media::{Geometry, Refusal};
use ubi_scan::{BlockSource, MemorySource, StreamError, block_count};
use ubi_volume::{Surveyed, attach_places, survey_from};

/// What is answered for an image that is surveyed.
fn mapped(alloc: Global, surveyed: &Surveyed) -> Result<Outcome, AllocError>
    ensures { IfOk result (λ o. Gives o (says (state_rows surveyed.now) 0)) }
{
    let letters = state_letters(alloc, surveyed.states())?;
    let mut text = Vec::new(alloc);
    put_rows(&mut text, letters.as_bytes())?;
    Ok(Outcome::saying(text, DONE))
}

/// What is answered for eraseblocks with these letters that are refused for a cause.
fn refused_rows(alloc: Global, letters: &str, cause: Refusal) -> Result<Outcome, AllocError>
    ensures { IfOk result (λ o. Gives o (says (rows letters.now ++ refusal_line cause) 1)) }
{
    let line = refusal_line(alloc, cause)?;
    let mut text = Vec::new(alloc);
    put_rows(&mut text, letters.as_bytes())?;
    text.extend_from_slice(line.as_slice())?;
    Ok(Outcome::saying(text, FAILED))
}

/// A letter for each eraseblock of a source, by its headers alone.
///
/// # Errors
///
/// `Read` if a read failed. `Memory` if memory ran out.
fn letters_of<S: BlockSource>(
    alloc: Global,
    geometry: &Geometry,
    source: &mut S,
    count: u32,
) -> Result<String, ToolError>
    requires { count ≤ blocks_in geometry.now (S.known source.old) }
    ensures known { S.known source.new ≡ after_run (S.known source.old) result }
    ensures narrows { Narrows (S.agrees source.old) (S.agrees source.new) }
    ensures letters { IfOk result (λ letters. WhereHeld (S.agrees source.new) (λ bytes. string_bytes letters ≡ header_letters geometry.now (blocks_of geometry.now bytes) count)) }
    ensures failed { IfErr result IsNoWrite }
{
    match header_letters(alloc, geometry, source, count) {
        Ok(letters) => Ok(letters),
        Err(StreamError::Read(_, _)) => Err(ToolError::Read),
        Err(StreamError::Memory) => Err(ToolError::Memory),
        // Nothing is refused, and nothing is written.
        Err(StreamError::Refused(_) | StreamError::Write(_)) => unreachable!(),
    }
}

/// What is answered for a source that is refused for a cause.
///
/// # Errors
///
/// `Read` if a read failed. `Memory` if memory ran out.
fn refused_map<S: BlockSource>(
    alloc: Global,
    geometry: &Geometry,
    source: &mut S,
    cause: Refusal,
) -> Result<Outcome, ToolError>
    requires { ArePlacesError geometry.now (S.known source.old) (S.agrees source.old) (StreamError.Refused cause) }
    ensures known { S.known source.new ≡ after_run (S.known source.old) result }
    ensures narrows { Narrows (S.agrees source.old) (S.agrees source.new) }
    ensures mapped { IfOk result (MapsFrom geometry.now (S.known source.old) (S.agrees source.new)) }
    ensures maps { IfOk result (λ o. WhereHeld (S.agrees source.new) (λ bytes. Maps (image_of geometry.now bytes) o)) }
    ensures failed { IfErr result IsNoWrite }
{
    match block_count(geometry, source.len()) {
        Ok(count) => {
            let letters = letters_of(alloc, geometry, source, count)?;
            Ok(refused_rows(alloc, letters.as_str(), cause)?)
        }
        Err(size) => Ok(Outcome::saying(refusal_line(alloc, size)?, FAILED)),
    }
}

/// Shows what lies where in a source: a letter for the state of each eraseblock, in rows. If the image is refused, the letters come from
/// the headers alone, and the line of the refusal follows them. One eraseblock is held at a time.
///
/// # Errors
///
/// `Read` if a read failed. `Memory` if memory ran out.
pub fn run_map_from<S: BlockSource>(
    alloc: Global,
    geometry: &Geometry,
    source: &mut S,
) -> Result<Outcome, ToolError>
    ensures known { S.known source.new ≡ after_run (S.known source.old) result }
    ensures narrows { Narrows (S.agrees source.old) (S.agrees source.new) }
    ensures mapped { IfOk result (MapsFrom geometry.now (S.known source.old) (S.agrees source.new)) }
    ensures maps { IfOk result (λ o. WhereHeld (S.agrees source.new) (λ bytes. Maps (image_of geometry.now bytes) o)) }
    ensures failed { IfErr result IsNoWrite }
{
    match survey_from(alloc, geometry, source) {
        Ok(surveyed) => Ok(mapped(alloc, &surveyed)?),
        Err(StreamError::Refused(cause)) => refused_map(alloc, geometry, source, cause),
        Err(StreamError::Read(_, _)) => Err(ToolError::Read),
        Err(StreamError::Memory) => Err(ToolError::Memory),
        // Nothing is written.
        Err(StreamError::Write(_)) => unreachable!(),
    }
}

/// Shows what lies where in an image, as [`run_map_from`] does for a source.
///
/// # Errors
///
/// Memory ran out.
pub fn run_map(alloc: Global, geometry: &Geometry, image: &[u8]) -> Result<Outcome, AllocError>
    ensures { IfOk result (Maps (image_of geometry.now image.now)) }
{
    in_memory(run_map_from(alloc, geometry, &mut MemorySource::new(image)))
}

/// The first eraseblocks of a source, each as the lines of its headers.
///
/// # Errors
///
/// `Read` if a read failed. `Memory` if memory ran out.
fn texts_of<S: BlockSource>(
    alloc: Global,
    geometry: &Geometry,
    source: &mut S,
    count: u32,
) -> Result<Vec<String>, ToolError>
    requires { count ≤ blocks_in geometry.now (S.known source.old) }
    ensures known { S.known source.new ≡ after_run (S.known source.old) result }
    ensures narrows { Narrows (S.agrees source.old) (S.agrees source.new) }
    ensures texts { IfOk result (λ texts. WhereHeld (S.agrees source.new) (λ bytes. map string_bytes texts.items ≡ block_texts geometry.now (blocks_of geometry.now bytes) count)) }
    ensures failed { IfErr result IsNoWrite }
{
    match block_texts(alloc, geometry, source, count) {
        Ok(texts) => Ok(texts),
        Err(StreamError::Read(_, _)) => Err(ToolError::Read),
        Err(StreamError::Memory) => Err(ToolError::Memory),
        // Nothing is refused, and nothing is written.
        Err(StreamError::Refused(_) | StreamError::Write(_)) => unreachable!(),
    }
}

/// The page of a source that is surveyed, by the lines of its eraseblocks' headers and their letters.
///
/// # Errors
///
/// `Read` if a read failed. `Memory` if memory ran out.
fn surveyed_page_from<S: BlockSource>(
    alloc: Global,
    geometry: &Geometry,
    source: &mut S,
    texts: &[String],
    letters: &str,
    surveyed: &Surveyed,
) -> Result<Vec<u8>, ToolError>
    ensures known { S.known source.new ≡ after_run (S.known source.old) result }
    ensures narrows { Narrows (S.agrees source.old) (S.agrees source.new) }
    ensures page { IfOk result (λ page. WhereHeld (S.agrees source.new) (λ bytes. IsPageBy (image_of geometry.now bytes) (map string_bytes texts.now) letters.now surveyed.now page.items)) }
    ensures failed { IfErr result IsNoWrite }
{
    match attach_places(alloc, geometry, source) {
        Ok(places) => {
            let mut buffer = Vec::from_elem(alloc, 0u8, geometry.peb_size() as usize)?;
            let mut listed = Vec::new(alloc);
            keep_volumes(
                &mut listed,
                geometry,
                source,
                &places,
                buffer.as_mut_slice(),
            )?;
            let volumes = listed.as_slice();
            Ok(surveyed_page(alloc, geometry, texts, surveyed, volumes)?)
        }
        Err(StreamError::Refused(cause)) => Ok(refused_page(
            alloc, geometry, texts, letters, cause,
        )?),
        Err(StreamError::Read(_, _)) => Err(ToolError::Read),
        Err(StreamError::Memory) => Err(ToolError::Memory),
        // Nothing is written.
        Err(StreamError::Write(_)) => unreachable!(),
    }
}

/// The page of a source, with what it means or why it is refused. `None` if the source doesn't have the size of an image.
///
/// # Errors
///
/// `Read` if a read failed. `Memory` if memory ran out.
fn page_from<S: BlockSource>(
    alloc: Global,
    geometry: &Geometry,
    source: &mut S,
) -> Result<Option<Vec<u8>>, ToolError>
    ensures known { S.known source.new ≡ after_run (S.known source.old) result }
    ensures narrows { Narrows (S.agrees source.old) (S.agrees source.new) }
    ensures page { IfOk result (λ page. WhereHeld (S.agrees source.new) (λ bytes. IsPageOf (image_of geometry.now bytes) (option_map (λ v. v.items) page))) }
    ensures failed { IfErr result IsNoWrite }
{
    let count = match block_count(geometry, source.len()) {
        Ok(count) => count,
        Err(_) => return Ok(None),
    };
    let texts = texts_of(alloc, geometry, source, count)?;
    let texts = texts.as_slice();
    let letters = letters_of(alloc, geometry, source, count)?;
    let letters = letters.as_str();
    match survey_from(alloc, geometry, source) {
        Ok(surveyed) => {
            let page = surveyed_page_from(alloc, geometry, source, texts, letters, &surveyed)?;
            Ok(Some(page))
        }
        Err(StreamError::Refused(cause)) => {
            let page = refused_page(alloc, geometry, texts, letters, cause)?;
            Ok(Some(page))
        }
        Err(StreamError::Read(_, _)) => Err(ToolError::Read),
        Err(StreamError::Memory) => Err(ToolError::Memory),
        // Nothing is written.
        Err(StreamError::Write(_)) => unreachable!(),
    }
}

/// Shows what [`run_map_from`] shows, and makes a page of it, with the headers of each eraseblock, and what `check` and `list`
/// print for the image, or why it is refused. If the source doesn't have the size of an image, there is no page. The page is held
/// whole.
///
/// # Errors
///
/// `Read` if a read failed. `Memory` if memory ran out.
pub fn run_page_from<S: BlockSource>(
    alloc: Global,
    geometry: &Geometry,
    source: &mut S,
) -> Result<Outcome, ToolError>
    ensures known { S.known source.new ≡ after_run (S.known source.old) result }
    ensures narrows { Narrows (S.agrees source.old) (S.agrees source.new) }
    ensures answer { IfOk result (PicturesOf geometry.now (S.known source.old) (S.agrees source.new)) }
    ensures failed { IfErr result IsNoWrite }
{
    let mut outcome = run_map_from(alloc, geometry, source)?;
    let page = page_from(alloc, geometry, source)?;
    outcome.file = page;
    Ok(outcome)
}

/// Shows what lies where in an image file, and writes a page of it, if one is asked for. The file is read as the words say, or as
/// its own headers show.
pub fn map_file<D: Disk + Eprint>(
    disk: &mut D,
    alloc: Global,
    asked: &Asked<'_>,
    image: &str,
    page: Option<&str>,
) -> Result<Outcome, AllocError>
    ensures answer { IfOk result (AnswersMap (D.files disk.old) (D.files disk.new) asked.now image.now page.entry) }
    ensures leaves { LeavesMap (D.files disk.old) (D.files disk.new) image.now page.entry }
    ensures memory { OnErr result (AllStay (D.files disk.old) (D.files disk.new)) }
{
    match page {
        None => read_file(disk, alloc, asked, image, &Reading::Map),
        Some(path) => {
            let outcome = read_file(disk, alloc, asked, image, &Reading::Page)?;
            write_outcome(disk, alloc, outcome, path, image)
        }
    }
}
