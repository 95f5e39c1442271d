//! Printed lines of dumps that aren't found, or have other geometries; and the words of geometries and volumes.

ghost use Rattle.std.specs.List.{flat_map};
ghost use Rattle.std.specs.Prelude.{◌≡◌, ◌++◌, IfOk, OnOk, unwrap_or};
ghost use Rattle.ubi_dumps.specs.Lines.{amount_word, images_side_line, layout_words, span_words, undetected_line, undetected_side_line, unlike_line};
ghost use Rattle.ubi_files.specs.Numbers.{sizes_of};
ghost use Rattle.ubi_words.specs.Shown.{shown};

use std::alloc::{AllocError, Global};
use ubi_detect::{Span, Undetected};
use ubi_files::{Numbers, put_number, put_word, refused};
use ubi_volume::Amount;
use ubi_words::shown_text;

/// The line of a file in which no geometry is found.
pub fn undetected_line(alloc: Global, why: Undetected) -> Result<Vec<u8>, AllocError>
    ensures { IfOk result (λ text. text.items ≡ undetected_line why) }
{
    refused(alloc, &why)
}

/// The line of one of two files in which no geometry is found, after the side on which it stands.
pub fn undetected_side_line(
    alloc: Global,
    side: &str,
    why: Undetected,
) -> Result<Vec<u8>, AllocError>
    ensures { IfOk result (λ text. text.items ≡ undetected_side_line side.now why) }
{
    let mut text = Vec::from_slice(alloc, side.as_bytes())?;
    text.extend_from_slice(undetected_line(alloc, why)?.as_slice())?;
    Ok(text)
}

/// Adds where an image of a file lies.
fn put_span(text: &mut Vec<u8>, span: &Span) -> Result<(), AllocError>
    ensures { OnOk result (text.new.items ≡ text.old.items ++ span_words span.now) }
{
    put_number(text, " start=", span.start)?;
    put_number(text, " length=", span.length)
}

/// Adds where each image of a file lies.
fn put_spans(text: &mut Vec<u8>, spans: &[Span]) -> Result<(), AllocError>
    ensures { OnOk result (text.new.items ≡ text.old.items ++ flat_map span_words spans.now) }
{
    for span in spans {
        put_span(text, span)?;
    }
    Ok(())
}

/// The line of a file that has several images apart from each other, after the side on which it stands.
pub fn images_side_line(alloc: Global, side: &str, spans: &[Span]) -> Result<Vec<u8>, AllocError>
    ensures { IfOk result (λ text. text.items ≡ images_side_line side.now spans.now) }
{
    let mut text = Vec::from_slice(alloc, side.as_bytes())?;
    put_word(&mut text, "refused F10 Images")?;
    put_spans(&mut text, spans)?;
    put_word(&mut text, "\n")?;
    Ok(text)
}

/// Adds a name as it is shown.
pub fn put_shown(alloc: Global, text: &mut Vec<u8>, name: &[u8]) -> Result<(), AllocError>
    ensures { OnOk result (text.new.items ≡ text.old.items ++ shown name.now) }
{
    let shown = shown_text(alloc, name)?;
    put_word(text, shown.as_str())
}

/// Adds how much a volume reads, or why it can't be read.
pub fn put_amount(text: &mut Vec<u8>, amount: Amount) -> Result<(), AllocError>
    ensures { OnOk result (text.new.items ≡ text.old.items ++ amount_word amount) }
{
    match amount {
        Amount::Updating => put_word(text, "updating"),
        Amount::Damaged => put_word(text, "damaged"),
        Amount::Bytes(bytes) => put_number(text, "bytes=", bytes),
        Amount::Lebs(count) => put_number(text, "lebs=", u64::from(count)),
    }
}

/// Adds the numbers of a geometry, except how many eraseblocks there are.
pub fn put_layout(text: &mut Vec<u8>, numbers: Numbers) -> Result<(), AllocError>
    ensures { OnOk result (text.new.items ≡ text.old.items ++ layout_words (sizes_of numbers)) }
{
    let page = u64::from(numbers.page);
    put_number(text, "peb=", u64::from(numbers.peb_size))?;
    put_number(text, " page=", page)?;
    put_number(text, " vid=", number_or(numbers.vid_offset, page))?;
    put_number(text, " data=", number_or(numbers.data_offset, 2 * page))
}

/// A number, or its default if it is left out.
fn number_or(number: Option<u32>, default: u64) -> u64
    ensures { result ≡ unwrap_or number default }
{
    match number {
        Some(number) => u64::from(number),
        None => default,
    }
}

/// The line of two images whose own geometries differ.
pub fn unlike_line(alloc: Global, left: Numbers, right: Numbers) -> Result<Vec<u8>, AllocError>
    ensures { IfOk result (λ text. text.items ≡ unlike_line (sizes_of left) (sizes_of right)) }
{
    let mut text = Vec::from_slice(alloc, b"refused F9 Geometries left ")?;
    put_layout(&mut text, left)?;
    put_word(&mut text, " right ")?;
    put_layout(&mut text, right)?;
    put_word(&mut text, "\n")?;
    Ok(text)
}
