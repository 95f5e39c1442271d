//! The command `compose`: the image that a text describes.

ghost use Rattle.std.specs.Prelude.{◌≡◌, IfOk, OnErr};
ghost use Rattle.ubi_writing.specs.Compose.{Composes, ComposesInto, ComposesOf, meaning_line, room_line, spec_line};
ghost use Rattle.ubi_files.specs.Disk.{AllStay, OthersStay, Stays};
ghost use Rattle.ubi_writing.specs.Outputs.{OfText};

use crate::lines::blocks_line;
use crate::orders::NewImage;
use crate::spec_file::load_spec;
use std::alloc::{AllocError, Global};
use ubi_compose::{ComposeError, SpecCause, SpecError, compose, parse_spec};
use ubi_dumps::write_outcome;
use ubi_files::{DONE, Disk, FAILED, Numbers, Outcome, refused};
use ubi_media::Geometry;
use ubi_volume::{Meaning, MeaningCause};

/// The printed line for a line of a text that has a fault; the lines of a text are counted from 1.
fn spec_line(alloc: Global, line: u32, cause: SpecCause) -> Result<Vec<u8>, AllocError>
    ensures { IfOk result (λ text. text.items ≡ spec_line line cause) }
{
    refused(alloc, &SpecError::Refused { line, cause })
}

/// The line of volumes that have no meaning together.
pub fn meaning_line(alloc: Global, cause: MeaningCause) -> Result<Vec<u8>, AllocError>
    ensures { IfOk result (λ text. text.items ≡ meaning_line cause) }
{
    refused(alloc, &cause)
}

/// The line of an image that the device has no room for.
pub fn room_line(alloc: Global) -> Result<Vec<u8>, AllocError>
    ensures { IfOk result (λ text. text.items ≡ room_line) }
{
    refused(alloc, &ComposeError::TooMany)
}

/// What is answered for a meaning: the number of eraseblocks of its image and their bytes, or that the device has no room
/// for them.
fn compose_meaning(alloc: Global, meaning: &Meaning, spares: u32) -> Result<Outcome, AllocError>
    ensures { IfOk result (ComposesOf meaning.now spares) }
{
    match compose(alloc, meaning, spares) {
        Ok(image) => Ok(Outcome {
            text: blocks_line(alloc, image.len() / meaning.geometry().peb_size() as usize)?,
            status: DONE,
            file: Some(image),
        }),
        Err(ComposeError::TooMany) => Ok(Outcome::saying(room_line(alloc)?, FAILED)),
        Err(ComposeError::Memory) => Err(AllocError),
    }
}

/// Composes the image that a text describes, with an image sequence number, and with `spares` spare eraseblocks at its
/// end. It answers with the number of its eraseblocks and their bytes.
///
/// If the text describes no image, a line says why, and there is no file. It is the line for the first line of the text
/// that has a fault; or why its volumes have no meaning together, which are counted from 0 in the order of their lines;
/// or that the device has fewer eraseblocks.
///
/// # Errors
///
/// Memory ran out.
pub fn run_compose(
    alloc: Global,
    geometry: &Geometry,
    spec: &[u8],
    spares: u32,
    image_seq: u32,
) -> Result<Outcome, AllocError>
    ensures { IfOk result (Composes geometry.now spec.now spares image_seq) }
{
    let volumes = match parse_spec(alloc, geometry, spec) {
        Ok(volumes) => volumes,
        Err(SpecError::Refused { line, cause }) => {
            return Ok(Outcome::saying(spec_line(alloc, line, cause)?, FAILED));
        }
        Err(SpecError::Memory) => return Err(AllocError),
    };
    match Meaning::new(geometry, image_seq, volumes) {
        Ok(meaning) => compose_meaning(alloc, &meaning, spares),
        Err(error) => Ok(Outcome::saying(meaning_line(alloc, error.cause)?, FAILED)),
    }
}

/// Composes the image that a text file describes, into another file.
pub fn compose_file<D: Disk>(
    disk: &mut D,
    alloc: Global,
    numbers: Numbers,
    asked: &NewImage<'_>,
) -> Result<Outcome, AllocError>
    ensures answer { IfOk result (OfText (D.files disk.old) numbers asked.now.from.now (λ s t. ComposesInto asked.now.out.now (D.files disk.old) (D.files disk.new) s t asked.now.spares asked.now.image_seq)) }
    ensures others { OthersStay (D.files disk.old) (D.files disk.new) asked.now.out.now }
    ensures from { Stays (D.files disk.old) (D.files disk.new) asked.now.from.now }
    ensures memory { OnErr result (AllStay (D.files disk.old) (D.files disk.new)) }
{
    let file = match load_spec(disk, alloc, numbers, asked.from) {
        Ok(file) => file,
        Err(unread) => return unread.answer(),
    };
    let text = file.text.as_slice();
    let outcome = run_compose(alloc, &file.geometry, text, asked.spares, asked.image_seq)?;
    write_outcome(disk, alloc, outcome, asked.out, asked.from)
}
