//! The command `check`: the states of the eraseblocks of an image.

ghost use Rattle.std.specs.Prelude.{◌≡◌, ◌++◌, IfErr, IfOk, OnOk, codes};
ghost use Rattle.std.specs.List.{flat_map};
ghost use Rattle.ubi_scan.specs.Image.{image_of};
ghost use Rattle.ubi_scan.specs.Source.{Narrows, WhereHeld};
ghost use Rattle.ubi_files.specs.AfterRun.{IsNoWrite, after_run};
ghost use Rattle.ubi_reading.specs.Check.{Checks, ChecksFrom, check_lines, check_told, number_line, printed_states, state_line, state_word};

use crate::format::{Format, refusal_told};
use std::alloc::{AllocError, Global};
use ubi_files::{DONE, FAILED, Outcome, ToolError, in_memory, put_number, put_word};
use ubi_json::count_of;
use ubi_media::Geometry;
use ubi_scan::{BlockSource, MemorySource, StreamError};
use ubi_volume::{BlockState, Surveyed, survey_from};

/// Adds the line of a number.
fn put_line(text: &mut Vec<u8>, word: &str, number: u64) -> Result<(), AllocError>
    ensures { OnOk result (text.new.items ≡ text.old.items ++ number_line word.now number) }
{
    put_number(text, word, number)?;
    put_word(text, "\n")
}

/// The word of a state.
fn state_word(state: BlockState) -> &'static str
    ensures { result.now ≡ state_word state }
{
    match state {
        BlockState::Blank => "blank ",
        BlockState::Free => "free ",
        BlockState::Garbage => "garbage ",
        BlockState::Corrupt => "corrupt ",
        BlockState::Dropped => "dropped ",
        BlockState::Orphan => "orphan ",
        BlockState::Table => "table ",
        BlockState::Used => "used ",
        BlockState::Stale => "stale ",
    }
}

/// Adds a line for each of some states: how many eraseblocks have it.
fn put_counts(
    text: &mut Vec<u8>,
    states: &[BlockState],
    named: &[BlockState],
) -> Result<(), AllocError>
    ensures { OnOk result (text.new.items ≡ text.old.items ++ flat_map (state_line states.now) named.now) }
{
    for state in named {
        put_line(text, state_word(*state), count_of(states, *state) as u64)?;
    }
    Ok(())
}

/// Adds the lines of the states, in the order in which they are printed.
fn put_states(text: &mut Vec<u8>, states: &[BlockState]) -> Result<(), AllocError>
    ensures { OnOk result (text.new.items ≡ text.old.items ++ flat_map (state_line states.now) printed_states) }
{
    put_counts(
        text,
        states,
        &[
            BlockState::Blank,
            BlockState::Free,
            BlockState::Table,
            BlockState::Used,
            BlockState::Stale,
            BlockState::Orphan,
            BlockState::Dropped,
            BlockState::Corrupt,
            BlockState::Garbage,
        ],
    )
}

/// The lines of an image that is surveyed.
fn check_lines(alloc: Global, surveyed: &Surveyed) -> Result<Vec<u8>, AllocError>
    ensures { IfOk result (λ text. text.items ≡ check_lines surveyed.now) }
{
    let states = surveyed.states();
    let mut text = Vec::new(alloc);
    put_line(&mut text, "blocks ", states.len() as u64)?;
    put_states(&mut text, states)?;
    put_line(&mut text, "top sqnum ", surveyed.top_sqnum())?;
    put_line(&mut text, "image seq ", u64::from(surveyed.image_seq()))?;
    put_line(&mut text, "mean counter ", u64::from(surveyed.mean_ec()))?;
    put_word(&mut text, "accepted\n")?;
    Ok(text)
}

/// What is printed in a format for an image that is surveyed.
fn check_told(alloc: Global, format: Format, surveyed: &Surveyed) -> Result<Vec<u8>, AllocError>
    ensures { IfOk result (λ text. text.items ≡ check_told format surveyed.now) }
{
    match format {
        Format::Text => check_lines(alloc, surveyed),
        Format::Json => ubi_json::check_line(alloc, surveyed),
    }
}

/// Counts the states of the eraseblocks of a source, or answers with the cause of its refusal. One eraseblock is held at a
/// time. Of the contents of volumes, only copied data and the volume table are read.
///
/// # Errors
///
/// `Read` if a read failed. `Memory` if memory ran out.
pub fn run_check_from<S: BlockSource>(
    alloc: Global,
    geometry: &Geometry,
    source: &mut S,
    format: Format,
) -> Result<Outcome, ToolError>
    ensures known { S.known source.new ≡ after_run (S.known source.old) result }
    ensures narrows { Narrows (S.agrees source.old) (S.agrees source.new) }
    ensures checked { IfOk result (ChecksFrom format geometry.now (S.known source.old) (S.agrees source.new)) }
    ensures checks { IfOk result (λ o. WhereHeld (S.agrees source.new) (λ bytes. Checks format (image_of geometry.now bytes) o)) }
    ensures failed { IfErr result IsNoWrite }
{
    match survey_from(alloc, geometry, source) {
        Ok(surveyed) => Ok(Outcome::saying(check_told(alloc, format, &surveyed)?, DONE)),
        Err(StreamError::Refused(cause)) => {
            let line = refusal_told(alloc, format, cause)?;
            Ok(Outcome::saying(line, FAILED))
        }
        Err(StreamError::Read(_, _)) => Err(ToolError::Read),
        Err(StreamError::Memory) => Err(ToolError::Memory),
        // Nothing is written.
        Err(StreamError::Write(_)) => unreachable!(),
    }
}

/// Counts the states of the eraseblocks of an image in lines, as [`run_check_from`] does for a source.
///
/// # Errors
///
/// Memory ran out.
pub fn run_check(alloc: Global, geometry: &Geometry, image: &[u8]) -> Result<Outcome, AllocError>
    ensures { IfOk result (Checks Format.Text (image_of geometry.now image.now)) }
{
    in_memory(run_check_from(alloc, geometry, &mut MemorySource::new(image), Format::Text))
}
