//! Reading a config.

ghost use Rattle.std.specs.Prelude.{◌≡◌, ◌++◌, IfErr, IfOk, MatchResult, None, option_to_list};
ghost use Rattle.std.specs.Result.{result_unwrap_or};
ghost use Rattle.ubi_config.specs.Config.{IsFault, cause_after, first_config_fault, group_of, groups, line_fault, lines, sayings, section_fault, sections_in, sections_of};
ghost use Rattle.ubi_config.specs.inner.Reading.{IsCause};
ghost use Rattle.ubi_config.specs.Lines.{line_of};

use crate::above::later_cause;
use crate::drafts::section_of;
use crate::errors::{ConfigError, LineError};
use crate::line::{Line, line_of};
use crate::section::Section;
use std::alloc::Global;

/// Takes what the line with a number says, if it isn't skipped.
fn read_line(alloc: Global, said: &mut Vec<Line>, number: u32, text: &[u8]) -> Result<(), LineError>
    ensures { let line = line_of number text.now in let cause = cause_after said.old.items line in MatchResult result (λ _. (cause ≡ None) × (said.new.items ≡ said.old.items ++ option_to_list (result_unwrap_or line None))) (IsCause cause) }
{
    let Some(line) = line_of(alloc, number, text)? else {
        return Ok(());
    };
    if let Some(cause) = later_cause(said.as_slice(), &line) {
        return Err(LineError::Cause(cause));
    }
    said.reserve(1)?;
    said.push_reserved(line);
    Ok(())
}

/// What the lines of a text say, if none of them has a fault.
fn read_lines(alloc: Global, text: &[u8]) -> Result<Vec<Line>, ConfigError>
    ensures { MatchResult result (λ said. (line_fault text.now ≡ None) × (said.items ≡ sayings (lines text.now))) (IsFault (line_fault text.now)) }
{
    let mut said = Vec::new(alloc);
    let mut number: u32 = 0;
    for line in text.split(|byte| *byte == b'\n') {
        number = number.saturating_add(1);
        if let Err(error) = read_line(alloc, &mut said, number, line) {
            return Err(error.at(number));
        }
    }
    Ok(said)
}

/// The section that a line begins, if it does, with what the lines below it say.
fn section_at(alloc: Global, line: &Line, below: &[Line]) -> Result<Option<Section>, ConfigError>
    ensures { let gs = group_of line.now below.now in MatchResult result (λ found. (section_fault gs ≡ None) × (option_to_list found ≡ sections_in gs)) (IsFault (section_fault gs)) }
{
    let Line::Heading(number, _) = line else {
        return Ok(None);
    };
    match section_of(alloc, *number, below) {
        Ok(section) => Ok(Some(section)),
        Err(error) => Err(error.at(*number)),
    }
}

/// The sections of what lines say.
fn sections_of(alloc: Global, said: &[Line]) -> Result<Vec<Section>, ConfigError>
    ensures { let gs = groups said.now in MatchResult result (λ out. (section_fault gs ≡ None) × (out.items ≡ sections_in gs)) (IsFault (section_fault gs)) }
{
    let mut sections = Vec::new(alloc);
    for (place, line) in said.iter().enumerate() {
        sections.reserve(1)?;
        if let Some(section) = section_at(alloc, line, &said[place + 1..])? {
            sections.push_reserved(section);
        }
    }
    Ok(sections)
}

/// The sections of a config, in order.
///
/// # Errors
///
/// Its first fault: the first line with a fault, by itself or by the lines above it; if it has several, the first in the
/// order of [`ConfigCause`]. If no line has one, the first section that lacks a key, by the line that begins it.
/// `Memory` if memory ran out.
pub fn parse_config(alloc: Global, text: &[u8]) -> Result<Vec<Section>, ConfigError>
    ensures sections { IfOk result (λ out. (first_config_fault text.now ≡ None) × (out.items ≡ sections_of text.now)) }
    ensures refused { IfErr result (IsFault (first_config_fault text.now)) }
{
    let said = read_lines(alloc, text)?;
    let sections = sections_of(alloc, said.as_slice())?;
    Ok(sections)
}
