//! Steps done to an image: whether one fits, and the image of a source after some, into a writer.

ghost use Rattle.std.specs.Prelude.{◌≡◌, ℕ, ◌*◌, ◌/◌, ◌<◌, ◌+◌, ◌^◌, IfErr, IfOk, drop, length, nat_lt, true};
ghost use Rattle.ubi_change.specs.Fitting.{AllWithin, FitsBlock, fits, only_clears, page_of};
ghost use Rattle.ubi_change.specs.Laying.{StaysOpen};
ghost use Rattle.ubi_change.specs.inner.Writing.{block_text};
ghost use Rattle.ubi_change.specs.Steps.{IsReadOrWrite, after_text, block_after, step_done};
ghost use Rattle.ubi_scan.specs.Image.{Image, IsWholeSize, block, eraseblocks, image_of, of_blocks};
ghost use Rattle.ubi_scan.specs.Source.{Narrows, WhereHeld, blocks_in};
ghost use Rattle.ubi_scan.specs.Stream.{NamesBlock, after};
ghost use Rattle.ubi_volume.specs.Wrote.{All, IsWroteError, Wrote};

use crate::block_steps::BlockSteps;
use crate::step::Step;
use std::io::Write;
use ubi_media::Geometry;
use ubi_scan::{BlockSource, StreamError, read_part};
use ubi_volume::write_all;

/// Whether a step fits an image: its eraseblock lies there, and if it is a program, its page does too, its bytes are one
/// page, and no bit becomes 1 that was 0.
pub fn step_fits(geometry: &Geometry, image: &[u8], step: &Step) -> bool
    ensures { result ≡ of_blocks fits (image_of geometry.now image.now) step.now }
{
    match step {
        Step::Erase { pnum } => lies_in(geometry, image, *pnum),
        Step::Program { pnum, page, bytes } => {
            let bytes = bytes.as_slice();
            if !lies_in(geometry, image, *pnum) || *page >= geometry.peb_size() / geometry.page() {
                return false;
            }
            let old = page_in(geometry, image, *pnum, *page);
            bytes.len() == geometry.page() as usize && only_clears(old, bytes)
        }
    }
}

/// Whether an eraseblock lies in an image.
fn lies_in(geometry: &Geometry, image: &[u8], p: u32) -> bool
    ensures { result ≡ nat_lt p (length (eraseblocks (image_of geometry.now image.now))) }
{
    (p as usize) < image.len() / geometry.peb_size() as usize
}

/// The bytes of a page of an eraseblock.
fn page_in<'a>(geometry: &Geometry, image: &'a [u8], p: u32, page: u32) -> &'a [u8]
    requires lies { p < length (eraseblocks (image_of geometry.now image.now)) }
    requires page { page < geometry.now.peb_size / geometry.now.page }
    ensures { result.now ≡ page_of geometry.now (block (eraseblocks (image_of geometry.now image.now)) p) page }
{
    let size = geometry.peb_size() as usize;
    let start = p as usize * size;
    let block = &image[start..start + size];
    let at = page as usize * geometry.page() as usize;
    &block[at..at + geometry.page() as usize]
}

/// Whether the new bytes set no bit that isn't set in the old ones, which are as many.
fn only_clears(old: &[u8], new: &[u8]) -> bool
    ensures { result ≡ only_clears old.now new.now }
{
    if old.len() != new.len() {
        return false;
    }
    for i in 0..new.len() {
        if old[i] & new[i] != new[i] {
            return false;
        }
    }
    true
}

/// Carries a step out on the bytes of its eraseblock.
pub fn apply_to(geometry: &Geometry, block: &mut [u8], step: &Step)
    requires size { length block.old ≡ geometry.now.peb_size }
    requires page { FitsBlock geometry.now step.now }
    ensures { block.new ≡ block_after geometry.now block.old step.now }
{
    match step {
        Step::Erase { .. } => block.fill(0xFF),
        Step::Program { page, bytes, .. } => {
            let at = *page as usize * geometry.page() as usize;
            block[at..at + geometry.page() as usize].copy_from_slice(bytes.as_slice());
        }
    }
}

/// Carries a step out on an image, and changes nothing else.
pub fn apply(geometry: &Geometry, image: &mut [u8], step: &Step)
    requires { of_blocks fits (image_of geometry.now image.old) step.now ≡ true }
    ensures done { eraseblocks (image_of geometry.now image.new) ≡ of_blocks step_done (image_of geometry.now image.old) step.now }
    ensures length { length image.new ≡ length image.old }
    ensures rest { drop (length image.old / geometry.now.peb_size * geometry.now.peb_size) image.new ≡ drop (length image.old / geometry.now.peb_size * geometry.now.peb_size) image.old }
{
    let size = geometry.peb_size() as usize;
    let start = step.eraseblock() as usize * size;
    apply_to(geometry, &mut image[start..start + size], step);
}

/// Writes an eraseblock after those of the steps that change it. Returns how many bytes are now written; `done` of them
/// were written before.
///
/// # Errors
///
/// The read failed; or a write did, or the steps couldn't be made.
fn write_block<S: BlockSource, E: BlockSteps, W: Write>(
    geometry: &Geometry,
    source: &mut S,
    p: u32,
    steps: &mut E,
    buffer: &mut [u8],
    writer: &mut W,
    done: u64,
) -> Result<u64, StreamError>
    requires inside { p < blocks_in geometry.now (S.known source.old) }
    requires ready { E.ready steps.old geometry.now }
    requires room { length buffer.old ≡ geometry.now.peb_size }
    requires few { done + geometry.now.peb_size < 2 ^ 64 }
    ensures known { S.known source.new ≡ after (S.known source.old) result }
    ensures narrows { Narrows (S.agrees source.old) (S.agrees source.new) }
    ensures ready { E.ready steps.new geometry.now }
    ensures same { E.plan steps.new ≡ E.plan steps.old }
    ensures kept { StaysOpen (E.known steps.old) (E.known steps.new) }
    ensures contents { Narrows (E.agrees steps.old) (E.agrees steps.new) }
    ensures written { IfOk result (λ n. WhereHeld (E.agrees steps.new) (λ bytes. Wrote (S.agrees source.new) (W.contents writer.old) (W.contents writer.new) (block_text geometry.now p (E.plan steps.old bytes)) All done n)) }
    ensures count { IfOk result (λ n. n ≡ done + geometry.now.peb_size) }
    ensures failed { IfErr result (λ e. WhereHeld (E.agrees steps.new) (λ bytes. IsWroteError geometry.now (S.known source.old) (S.agrees source.new) (W.contents writer.old) (W.contents writer.new) (block_text geometry.now p (E.plan steps.old bytes)) done e)) }
    ensures kind { IfErr result IsReadOrWrite }
    ensures named { IfErr result (NamesBlock geometry.now (S.failed_at source.new)) }
{
    let size = u64::from(geometry.peb_size());
    match read_part(source, geometry, p, 0, buffer) {
        Ok(()) => {}
        Err(StreamError::Read(p, _)) => return Err(StreamError::Read(p, done)),
        Err(_) => unreachable!(),
    }
    match steps.apply_in(geometry, p, buffer) {
        Ok(()) => {}
        // What can't be made isn't written.
        Err(_) => return Err(StreamError::Write(done)),
    }
    match write_all(writer, buffer) {
        Ok(()) => Ok(done + size),
        Err(more) => Err(StreamError::Write(done + more as u64)),
    }
}

/// Writes the image of a source after the steps, and returns how many bytes that is. One eraseblock is held at a time, in
/// a buffer of its size. No other memory is allocated, unless to make the steps, and each eraseblock is read once.
///
/// # Errors
///
/// `Read` if a read failed, and `Write` if a write failed, or if steps couldn't be made: the writer then received the first of
/// the bytes, and the error says how many.
pub fn write_after<S: BlockSource, E: BlockSteps, W: Write>(
    geometry: &Geometry,
    source: &mut S,
    steps: &mut E,
    buffer: &mut [u8],
    writer: &mut W,
) -> Result<u64, StreamError>
    requires whole { IsWholeSize geometry.now (S.known source.old).size }
    requires ready { E.ready steps.old geometry.now }
    requires room { length buffer.old ≡ geometry.now.peb_size }
    ensures known { S.known source.new ≡ after (S.known source.old) result }
    ensures narrows { Narrows (S.agrees source.old) (S.agrees source.new) }
    ensures ready { E.ready steps.new geometry.now }
    ensures same { E.plan steps.new ≡ E.plan steps.old }
    ensures kept { StaysOpen (E.known steps.old) (E.known steps.new) }
    ensures contents { Narrows (E.agrees steps.old) (E.agrees steps.new) }
    ensures written { IfOk result (λ n. WhereHeld (E.agrees steps.new) (λ bytes. Wrote (S.agrees source.new) (W.contents writer.old) (W.contents writer.new) (after_text geometry.now (E.plan steps.old bytes)) All 0 n)) }
    ensures count { IfOk result (λ n. n ≡ (S.known source.old).size) }
    ensures failed { IfErr result (λ e. WhereHeld (E.agrees steps.new) (λ bytes. IsWroteError geometry.now (S.known source.old) (S.agrees source.new) (W.contents writer.old) (W.contents writer.new) (after_text geometry.now (E.plan steps.old bytes)) 0 e)) }
    ensures kind { IfErr result IsReadOrWrite }
    ensures named { IfErr result (NamesBlock geometry.now (S.failed_at source.new)) }
{
    let count = source.len() / u64::from(geometry.peb_size());
    prove!(count <= u64::from(geometry.pebs()));
    let mut done = 0;
    for p in 0..count as u32 {
        done = write_block(geometry, source, p, steps, buffer, writer, done)?;
    }
    Ok(done)
}
