//! The command `show`: the headers of one eraseblock.

ghost use Rattle.std.specs.Prelude.{◌≡◌, ◌<◌, IfErr, IfOk};
ghost use Rattle.ubi_scan.specs.Image.{block, image_of};
ghost use Rattle.ubi_scan.specs.Source.{Narrows, WhereHeld, blocks_in, blocks_of};
ghost use Rattle.ubi_files.specs.AfterRun.{IsNoWrite, after_run};
ghost use Rattle.ubi_map.specs.Headers.{AreHeaderLines, block_lines};
ghost use Rattle.ubi_reading.specs.Show.{Shows, ShowsFrom};

use crate::lines::no_block_line;
use std::alloc::{AllocError, Global};
use ubi_files::{DONE, FAILED, Outcome, ToolError, in_memory, refusal_line};
use ubi_map::block_text;
use ubi_media::Geometry;
use ubi_scan::{BlockSource, MemorySource, StreamError, block_count};

/// The lines of the headers of an eraseblock of a source. Only these are read.
///
/// # Errors
///
/// `Read` if a read failed. `Memory` if memory ran out.
fn block_lines<S: BlockSource>(
    alloc: Global,
    geometry: &Geometry,
    source: &mut S,
    p: u32,
) -> Result<Vec<u8>, ToolError>
    requires { p < blocks_in geometry.now (S.known source.old) }
    ensures known { S.known source.new ≡ after_run (S.known source.old) result }
    ensures narrows { Narrows (S.agrees source.old) (S.agrees source.new) }
    ensures form { IfOk result (λ text. AreHeaderLines geometry.now text.items) }
    ensures lines { IfOk result (λ text. WhereHeld (S.agrees source.new) (λ bytes. text.items ≡ block_lines geometry.now (block (blocks_of geometry.now bytes) p))) }
    ensures failed { IfErr result IsNoWrite }
{
    match block_text(alloc, geometry, source, p) {
        Ok(text) => Ok(text.into_bytes()),
        Err(StreamError::Read(_, _)) => Err(ToolError::Read),
        Err(StreamError::Memory) => Err(ToolError::Memory),
        // Nothing is refused, and nothing is written.
        Err(StreamError::Refused(_) | StreamError::Write(_)) => unreachable!(),
    }
}

/// Shows the headers of the eraseblock `p` of a source: what each is, and its bytes. The source isn't attached, so the
/// headers of a refused one can be shown.
///
/// If the source doesn't have the size of an image, it answers with the line of its refusal, and if the eraseblock
/// doesn't exist, with `refused B1 Block`; then nothing is read.
///
/// # Errors
///
/// `Read` if a read failed. `Memory` if memory ran out.
pub fn run_show_from<S: BlockSource>(
    alloc: Global,
    geometry: &Geometry,
    source: &mut S,
    p: u32,
) -> Result<Outcome, ToolError>
    ensures known { S.known source.new ≡ after_run (S.known source.old) result }
    ensures narrows { Narrows (S.agrees source.old) (S.agrees source.new) }
    ensures shown { IfOk result (ShowsFrom geometry.now (S.known source.old) p) }
    ensures shows { IfOk result (λ o. WhereHeld (S.agrees source.new) (λ bytes. Shows (image_of geometry.now bytes) p o)) }
    ensures failed { IfErr result IsNoWrite }
{
    let count = match block_count(geometry, source.len()) {
        Ok(count) => count,
        Err(cause) => return Ok(Outcome::saying(refusal_line(alloc, cause)?, FAILED)),
    };
    if p >= count {
        return Ok(Outcome::saying(no_block_line(alloc)?, FAILED));
    }
    Ok(Outcome::saying(block_lines(alloc, geometry, source, p)?, DONE))
}

/// Shows the headers of the eraseblock `p` of an image, as [`run_show_from`] does for a source.
///
/// # Errors
///
/// Memory ran out.
pub fn run_show(
    alloc: Global,
    geometry: &Geometry,
    image: &[u8],
    p: u32,
) -> Result<Outcome, AllocError>
    ensures { IfOk result (Shows (image_of geometry.now image.now) p) }
{
    in_memory(run_show_from(alloc, geometry, &mut MemorySource::new(image), p))
}
