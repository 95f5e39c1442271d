//! The command `geometry`: the geometries that a dump's own headers give, and which part of the file is the image.

ghost use Rattle.std.specs.List.{flat_map};
ghost use Rattle.std.specs.Prelude.{◌≡◌, ◌+◌, ◌++◌, IfErr, IfOk, OnOk, codes, decimal};
ghost use Rattle.ubi_scan.specs.Source.{Narrows, WhereHeld};
ghost use Rattle.ubi_files.specs.AfterRun.{IsNoWrite, after_run};
ghost use Rattle.ubi_reading.specs.Geometry.{Detects, DetectsFrom, geometry_lines, geometry_told, is_whole_file, oob_option, options, options_line, options_lines, part_options, sizes_options, span_line};
ghost use Rattle.ubi_files.specs.Views.{whole_file};

use crate::format::{Format, undetected_told};
use itoa::Buffer;
use std::alloc::{AllocError, Global};
use ubi_detect::{DetectError, Detected, Found, Span, detect_from};
use ubi_files::{
    DONE, FAILED, FilePart, Outcome, ToolError, WHOLE_FILE, in_memory, put_number, put_word,
};
use ubi_media::Geometry;
use ubi_scan::{BlockSource, MemorySource};

/// Adds the options that give the other commands the sizes of a device.
fn put_sizes(text: &mut Vec<u8>, geometry: &Geometry) -> Result<(), AllocError>
    ensures { OnOk result (text.new.items ≡ text.old.items ++ sizes_options geometry.now) }
{
    put_number(text, "--peb ", u64::from(geometry.peb_size()))?;
    put_number(text, " --page ", u64::from(geometry.page()))?;
    put_number(text, " --vid ", u64::from(geometry.vid_offset()))?;
    put_number(text, " --data ", u64::from(geometry.data_offset()))
}

/// Adds the option that gives them how many out-of-band bytes follow each page, if some do.
fn put_oob(text: &mut Vec<u8>, oob: u32) -> Result<(), AllocError>
    ensures { OnOk result (text.new.items ≡ text.old.items ++ oob_option oob) }
{
    if oob == 0 {
        return Ok(());
    }
    put_number(text, " --oob ", u64::from(oob))
}

/// Whether what is found in a part of `len` bytes is the whole file. If the words say how long the part is, the file may be longer.
fn is_whole_file(part: FilePart, len: u64, told: &Detected) -> bool
    ensures { result ≡ is_whole_file part len told.now }
{
    part.length.is_none() && part.start == 0 && told.start == 0 && told.length == len
}

/// Adds the option of the place that lies `behind` bytes after a start.
fn put_start(text: &mut Vec<u8>, start: u64, behind: u64) -> Result<(), AllocError>
    ensures { OnOk result (text.new.items ≡ text.old.items ++ (codes " --start " ++ decimal (start + behind))) }
{
    let mut buffer = Buffer::new();
    put_word(text, " --start ")?;
    put_word(text, buffer.format(u128::from(start) + u128::from(behind)))
}

/// Adds the options that give them which part of the file is the image, if that isn't the whole file.
fn put_part(text: &mut Vec<u8>, part: FilePart, len: u64, told: &Detected) -> Result<(), AllocError>
    ensures { OnOk result (text.new.items ≡ text.old.items ++ part_options part len told.now) }
{
    if is_whole_file(part, len, told) {
        return Ok(());
    }
    put_start(text, part.start, told.start)?;
    put_number(text, " --length ", told.length)
}

/// Adds the options that give them what is found in a part of `len` bytes.
fn put_options(
    text: &mut Vec<u8>,
    part: FilePart,
    len: u64,
    told: &Detected,
) -> Result<(), AllocError>
    ensures { OnOk result (text.new.items ≡ text.old.items ++ options part len told.now) }
{
    put_sizes(text, &told.geometry)?;
    put_oob(text, told.oob)?;
    put_part(text, part, len, told)
}

/// Adds the line of what is found in a part of `len` bytes.
fn put_options_line(
    text: &mut Vec<u8>,
    part: FilePart,
    len: u64,
    told: &Detected,
) -> Result<(), AllocError>
    ensures { OnOk result (text.new.items ≡ text.old.items ++ options_line part len told.now) }
{
    put_options(text, part, len, told)?;
    put_word(text, "\n")
}

/// The lines of all that is found in a part of `len` bytes, in order.
fn options_lines(
    alloc: Global,
    part: FilePart,
    len: u64,
    found: &[Detected],
) -> Result<Vec<u8>, AllocError>
    ensures { IfOk result (λ text. text.items ≡ options_lines part len found.now) }
{
    let mut text = Vec::new(alloc);
    for told in found {
        put_options_line(&mut text, part, len, told)?;
    }
    Ok(text)
}

/// Adds the line of where an image lies that was found in a part of a file.
fn put_span_line(text: &mut Vec<u8>, part: FilePart, span: &Span) -> Result<(), AllocError>
    ensures { OnOk result (text.new.items ≡ text.old.items ++ span_line part span.now) }
{
    let mut buffer = Buffer::new();
    put_word(text, "--start ")?;
    put_word(
        text,
        buffer.format(u128::from(part.start) + u128::from(span.start)),
    )?;
    put_number(text, " --length ", span.length)?;
    put_word(text, "\n")
}

/// Adds the lines of where images lie, in order.
fn put_span_lines(text: &mut Vec<u8>, part: FilePart, spans: &[Span]) -> Result<(), AllocError>
    ensures { OnOk result (text.new.items ≡ text.old.items ++ flat_map (span_line part) spans.now) }
{
    for span in spans {
        put_span_line(text, part, span)?;
    }
    Ok(())
}

/// The lines of all that is found in a part of `len` bytes, and then of where all images lie, if there are several.
fn geometry_lines(
    alloc: Global,
    part: FilePart,
    len: u64,
    found: &[Detected],
    spans: &[Span],
) -> Result<Vec<u8>, AllocError>
    ensures { IfOk result (λ text. text.items ≡ geometry_lines part len found.now spans.now) }
{
    let mut text = options_lines(alloc, part, len, found)?;
    put_span_lines(&mut text, part, spans)?;
    Ok(text)
}

/// What is printed in a format for all that is found in a part of `len` bytes.
fn geometry_told(
    alloc: Global,
    format: Format,
    part: FilePart,
    len: u64,
    found: &Found,
) -> Result<Vec<u8>, AllocError>
    ensures { IfOk result (λ text. text.items ≡ geometry_told format part len found.now.geometries.items found.now.images.spans.items) }
{
    let geometries = found.geometries.as_slice();
    let spans = found.images.spans.as_slice();
    match format {
        Format::Text => geometry_lines(alloc, part, len, geometries, spans),
        Format::Json => ubi_json::geometry_line(alloc, part, geometries, spans),
    }
}

/// Finds the geometries that the headers of a part of a file give, and which part of the file is the image. It answers with a line for
/// each, of options for the other commands, and with a line for each image if there are several; or with the cause for which none is
/// found. The source is over that part.
///
/// # Errors
///
/// `Read` if a read failed. `Memory` if memory ran out.
pub fn run_geometry_from<S: BlockSource>(
    alloc: Global,
    source: &mut S,
    part: FilePart,
    format: Format,
) -> Result<Outcome, ToolError>
    ensures known { S.known source.new ≡ after_run (S.known source.old) result }
    ensures narrows { Narrows (S.agrees source.old) (S.agrees source.new) }
    ensures detected { IfOk result (DetectsFrom format part (S.known source.old) (S.agrees source.new)) }
    ensures detects { IfOk result (λ o. WhereHeld (S.agrees source.new) (λ bytes. Detects format part bytes o)) }
    ensures failed { IfErr result IsNoWrite }
{
    let len = source.len();
    match detect_from(alloc, source) {
        Ok(found) => {
            let text = geometry_told(alloc, format, part, len, &found)?;
            Ok(Outcome::saying(text, DONE))
        }
        Err(DetectError::Undetected(cause)) => {
            let line = undetected_told(alloc, format, cause)?;
            Ok(Outcome::saying(line, FAILED))
        }
        Err(DetectError::Read(_)) => Err(ToolError::Read),
        Err(DetectError::Memory) => Err(ToolError::Memory),
    }
}

/// Finds the geometries that the headers of a file give, in lines, as [`run_geometry_from`] does for a source.
///
/// # Errors
///
/// Memory ran out.
pub fn run_geometry(alloc: Global, bytes: &[u8]) -> Result<Outcome, AllocError>
    ensures { IfOk result (Detects Format.Text whole_file bytes.now) }
{
    in_memory(run_geometry_from(
        alloc,
        &mut MemorySource::new(bytes),
        WHOLE_FILE,
        Format::Text,
    ))
}
