//! The command `extract`: what a volume of an image reads.

ghost use Rattle.std.specs.Prelude.{◌≡◌, IfErr, IfOk};
ghost use Rattle.std.specs.Result.{result_map_both};
ghost use Rattle.ubi_scan.specs.Image.{image_of};
ghost use Rattle.ubi_scan.specs.Source.{Narrows, WhereHeld};
ghost use Rattle.ubi_files.specs.AfterRun.{WhereNotDone, after_run};
ghost use Rattle.ubi_writing.specs.Extract.{Extracts, ExtractsFrom, IsExtractError, RefusesToRead, read_refusal};
ghost use Rattle.ubi_writing.specs.inner.Extracting.{IsExtractFault};
ghost use Rattle.ubi_writing.specs.inner.Extracting.{IsHidden};
ghost use Rattle.ubi_volume.specs.Places.{ArePlacesOf};

use crate::lines::{LONGEST_COUNT_LINE, put_bytes_line};
use crate::volume_key::VolumeKey;
use std::alloc::Global;
use std::io::Write;
use ubi_files::{DONE, FAILED, Outcome, ToolError, refusal_line, refused};
use ubi_media::Geometry;
use ubi_scan::{BlockSource, MemorySource, StreamError};
use ubi_volume::{Places, ReadError, attach_places, write_places};

/// What is answered for a volume that isn't read.
///
/// # Errors
///
/// A fault of the machine, which has no line.
fn unread(alloc: Global, error: ReadError) -> Result<Outcome, ToolError>
    ensures ok { IfOk result (RefusesToRead error) }
    ensures err { IfErr result (IsHidden error) }
{
    match error {
        ReadError::Write(_) => Err(ToolError::Write),
        ReadError::Memory => Err(ToolError::Memory),
        _ => Ok(Outcome::saying(refused(alloc, &error)?, FAILED)),
    }
}

/// Writes what a volume of a source reads, by its places, and answers how many bytes that is; or answers with the line of
/// the refusal to read it, and then nothing is written.
///
/// # Errors
///
/// `Read` if a read failed, and `Write` if a write failed: the writer then received the first of the bytes.
/// `Memory` if memory ran out; then nothing is written.
fn extract_from_places<S: BlockSource, W: Write>(
    alloc: Global,
    geometry: &Geometry,
    source: &mut S,
    places: &Places,
    key: VolumeKey<'_>,
    writer: &mut W,
) -> Result<Outcome, ToolError>
    requires places { ArePlacesOf geometry.now (S.known source.old) (S.agrees source.old) places.now }
    ensures known { S.known source.new ≡ after_run (S.known source.old) result }
    ensures narrows { Narrows (S.agrees source.old) (S.agrees source.new) }
    ensures ok { IfOk result (ExtractsFrom geometry.now (S.known source.old) (S.agrees source.new) (W.contents writer.old) (W.contents writer.new)) }
    ensures image { IfOk result (λ o. WhereHeld (S.agrees source.new) (λ bytes. Extracts (image_of geometry.now bytes) key.entry (W.contents writer.old) (W.contents writer.new) o)) }
    ensures untouched { WhereNotDone (writer.new ≡ writer.old) result }
    ensures err { IfErr result (IsExtractFault geometry.now (S.known source.old) (S.agrees source.new) key.entry (W.contents writer.old) (W.contents writer.new)) }
{
    // Reserved before the first byte is written.
    let mut line = Vec::with_capacity(alloc, LONGEST_COUNT_LINE)?;
    let mut buffer = Vec::from_elem(alloc, 0u8, geometry.peb_size() as usize)?;
    let Some(id) = key.number_in(places.table()) else {
        return unread(alloc, ReadError::NoVolume);
    };
    let extent = match places.extent(id) {
        Ok(extent) => extent,
        Err(error) => return unread(alloc, error),
    };
    let room = buffer.as_mut_slice();
    match write_places(geometry, source, places, id, extent, room, writer) {
        Ok(count) => {
            put_bytes_line(&mut line, count)?;
            Ok(Outcome::saying(line, DONE))
        }
        Err(StreamError::Read(_, _)) => Err(ToolError::Read),
        Err(StreamError::Write(_)) => Err(ToolError::Write),
        // Nothing is refused any more, and all memory has been allocated.
        Err(StreamError::Refused(_) | StreamError::Memory) => unreachable!(),
    }
}

/// Writes what a volume of a source reads, and answers how many bytes that is. At most one eraseblock of contents is held.
///
/// If the image is refused, or the volume doesn't exist or can't be read, it answers with the line of the refusal, and
/// then nothing is written. Space for the answer is reserved before the first byte is written.
///
/// # Errors
///
/// `Read` if a read failed, and `Write` if a write failed: the writer then received the first of the bytes, or none.
/// `Memory` if memory ran out; then nothing is written.
pub fn run_extract_from<S: BlockSource, W: Write>(
    alloc: Global,
    geometry: &Geometry,
    source: &mut S,
    key: VolumeKey<'_>,
    writer: &mut W,
) -> Result<Outcome, ToolError>
    ensures known { S.known source.new ≡ after_run (S.known source.old) result }
    ensures narrows { Narrows (S.agrees source.old) (S.agrees source.new) }
    ensures ok { IfOk result (ExtractsFrom geometry.now (S.known source.old) (S.agrees source.new) (W.contents writer.old) (W.contents writer.new)) }
    ensures image { IfOk result (λ o. WhereHeld (S.agrees source.new) (λ bytes. Extracts (image_of geometry.now bytes) key.entry (W.contents writer.old) (W.contents writer.new) o)) }
    ensures untouched { WhereNotDone (writer.new ≡ writer.old) result }
    ensures err { IfErr result (IsExtractFault geometry.now (S.known source.old) (S.agrees source.new) key.entry (W.contents writer.old) (W.contents writer.new)) }
{
    match attach_places(alloc, geometry, source) {
        Ok(places) => extract_from_places(alloc, geometry, source, &places, key, writer),
        Err(StreamError::Refused(cause)) => {
            Ok(Outcome::saying(refusal_line(alloc, cause)?, FAILED))
        }
        Err(StreamError::Read(_, _)) => Err(ToolError::Read),
        Err(StreamError::Write(_)) => Err(ToolError::Write),
        Err(StreamError::Memory) => Err(ToolError::Memory),
    }
}

/// Writes what a volume of an image reads, and answers how many bytes that is.
///
/// If the image is refused, or the volume doesn't exist or can't be read, it answers with the line of the refusal,
/// and then nothing is written.
///
/// # Errors
///
/// `Write` if a write failed: the writer then received the first of the bytes. `Memory` if memory ran out; then
/// nothing is written.
pub fn run_extract<W: Write>(
    alloc: Global,
    geometry: &Geometry,
    image: &[u8],
    key: VolumeKey<'_>,
    writer: &mut W,
) -> Result<Outcome, ToolError>
    ensures ok { IfOk result (Extracts (image_of geometry.now image.now) key.entry (W.contents writer.old) (W.contents writer.new)) }
    ensures err { IfErr result (IsExtractError (image_of geometry.now image.now) key.entry (W.contents writer.old) (W.contents writer.new)) }
{
    let mut source = MemorySource::new(image);
    match run_extract_from(alloc, geometry, &mut source, key, writer) {
        Ok(outcome) => Ok(outcome),
        // Reading memory doesn't fail.
        Err(ToolError::Read) => unreachable!(),
        Err(ToolError::Write) => Err(ToolError::Write),
        Err(ToolError::Memory) => Err(ToolError::Memory),
    }
}
