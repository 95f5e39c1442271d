//! The command `normalise`: the normal image of what a source holds, written to a writer.

ghost use Rattle.std.specs.Prelude.{◌≡◌, IfErr, IfOk};
ghost use Rattle.ubi_scan.specs.Image.{image_of};
ghost use Rattle.ubi_scan.specs.Source.{Narrows, WhereHeld};
ghost use Rattle.ubi_files.specs.AfterRun.{WhereNotDone, after_run};
ghost use Rattle.ubi_writing.specs.Normalise.{IsNormaliseError, Normalises, NormalisesTo};

use crate::lines::{LONGEST_COUNT_LINE, put_blocks_line};
use std::alloc::Global;
use std::io::Write;
use ubi_compose::normalise_to;
use ubi_files::{DONE, FAILED, Outcome, ToolError, refusal_line};
use ubi_media::Geometry;
use ubi_scan::{BlockSource, StreamError};

/// Writes the normal image of what a source holds, and answers how many eraseblocks it has; or answers with the line of
/// its refusal, and then nothing is written.
///
/// Space for the answer is reserved before the first byte is written.
///
/// # Errors
///
/// `Read` if a read failed, and `Write` if a write failed: the writer then received the first of the bytes.
/// `Memory` if memory ran out; then nothing is written.
pub fn run_normalise<S: BlockSource, W: Write>(
    alloc: Global,
    geometry: &Geometry,
    source: &mut S,
    writer: &mut W,
) -> Result<Outcome, ToolError>
    ensures known { S.known source.new ≡ after_run (S.known source.old) result }
    ensures narrows { Narrows (S.agrees source.old) (S.agrees source.new) }
    ensures ok { IfOk result (NormalisesTo geometry.now (S.known source.old) (S.agrees source.new) (W.contents writer.old) (W.contents writer.new)) }
    ensures image { IfOk result (λ o. WhereHeld (S.agrees source.new) (λ bytes. Normalises (image_of geometry.now bytes) (W.contents writer.old) (W.contents writer.new) o)) }
    ensures untouched { WhereNotDone (writer.new ≡ writer.old) result }
    ensures err { IfErr result (IsNormaliseError geometry.now (S.known source.old) (S.agrees source.new) (W.contents writer.old) (W.contents writer.new)) }
{
    let mut line = Vec::with_capacity(alloc, LONGEST_COUNT_LINE)?;
    match normalise_to(alloc, geometry, source, writer) {
        Ok(count) => {
            put_blocks_line(&mut line, count / u64::from(geometry.peb_size()))?;
            Ok(Outcome::saying(line, DONE))
        }
        Err(StreamError::Refused(cause)) => {
            Ok(Outcome::saying(refusal_line(alloc, cause)?, FAILED))
        }
        Err(StreamError::Read(_, _)) => Err(ToolError::Read),
        Err(StreamError::Write(_)) => Err(ToolError::Write),
        Err(StreamError::Memory) => Err(ToolError::Memory),
    }
}
