//! The formats in which commands answer.

ghost use Rattle.std.specs.Prelude.{◌≡◌, IfOk};
ghost use Rattle.ubi_reading.specs.Formats.{refusal_by_format, side_told, undetected_in};
ghost use Rattle.ubi_reading.specs.inner.Formatted.{IsLineIn, IsToldIn};

use crate::lines::side_line;
use std::alloc::{AllocError, Global};
use ubi_compare::Side;
use ubi_detect::Undetected;
use ubi_dumps::undetected_line;
use ubi_files::{Outcome, Unread, refusal_line};
use ubi_json::error_line;
use ubi_media::Refusal;

/// The format of an answer.
#[derive(Clone, Copy)]
pub enum Format {
    /// In lines for people.
    Text,
    /// As one JSON object on one line.
    Json,
}

/// What is printed for an image that is refused.
pub fn refusal_told(alloc: Global, format: Format, cause: Refusal) -> Result<Vec<u8>, AllocError>
    ensures { IfOk result (λ text. text.items ≡ refusal_by_format format cause) }
{
    match format {
        Format::Text => refusal_line(alloc, cause),
        Format::Json => ubi_json::refusal_line(alloc, cause),
    }
}

/// What is printed for one of two images that is refused.
pub fn side_told(
    alloc: Global,
    format: Format,
    side: Side,
    cause: Refusal,
) -> Result<Vec<u8>, AllocError>
    ensures { IfOk result (λ text. text.items ≡ side_told format side cause) }
{
    match format {
        Format::Text => side_line(alloc, side, cause),
        Format::Json => ubi_json::side_line(alloc, side, cause),
    }
}

/// What is printed for a file in which no geometry is found.
pub fn undetected_told(
    alloc: Global,
    format: Format,
    cause: Undetected,
) -> Result<Vec<u8>, AllocError>
    ensures { IfOk result (λ text. text.items ≡ undetected_in format cause) }
{
    match format {
        Format::Text => undetected_line(alloc, cause),
        Format::Json => ubi_json::undetected_line(alloc, cause),
    }
}

/// The answer in a format for a file that can't be opened; `plain` is what is printed for it in plain lines.
fn plain_in(alloc: Global, format: Format, plain: Outcome) -> Result<Outcome, AllocError>
    ensures { IfOk result (IsLineIn format plain) }
{
    match format {
        Format::Text => Ok(plain),
        Format::Json => {
            let line = error_line(alloc, plain.text.as_slice())?;
            Ok(Outcome::saying(line, plain.status))
        }
    }
}

/// The answer of work: its outcome, or what is printed for a file that can't be opened.
pub fn told_in(
    alloc: Global,
    format: Format,
    work: Result<Outcome, Unread>,
) -> Result<Outcome, AllocError>
    ensures { IfOk result (IsToldIn format work) }
{
    match work {
        Ok(outcome) => Ok(outcome),
        Err(Unread::Told(plain)) => plain_in(alloc, format, plain),
        Err(Unread::Memory) => Err(AllocError),
    }
}
