//! Printed lines of the commands that read images.

ghost use Rattle.std.specs.Prelude.{◌≡◌, ◌++◌, ◌∷◌, [], IfOk, OnOk};
ghost use Rattle.hex.specs.Hex.{encode_lower};
ghost use Rattle.ubi_reading.specs.Lines.{comparison_line, no_block_line, side_line};

use std::alloc::{AllocError, Global};
use ubi_compare::Side;
use ubi_files::{put_word, refusal_line, refused};
use ubi_json::side_word;
use ubi_media::Refusal;

/// Adds a byte as two digits.
pub fn put_digits(alloc: Global, text: &mut Vec<u8>, byte: u8) -> Result<(), AllocError>
    ensures { OnOk result (text.new.items ≡ text.old.items ++ encode_lower (byte ∷ [])) }
{
    let digits = hex::encode(alloc, [byte])?;
    put_word(text, digits.as_str())
}

/// The line of one of two images that is refused, after the side on which it stands.
pub fn side_line(alloc: Global, side: Side, cause: Refusal) -> Result<Vec<u8>, AllocError>
    ensures { IfOk result (λ text. text.items ≡ side_line side cause) }
{
    let mut text = Vec::from_slice(alloc, side_word(side).as_bytes())?;
    put_word(&mut text, " ")?;
    text.extend_from_slice(refusal_line(alloc, cause)?.as_slice())?;
    Ok(text)
}

/// Adds the line of two images that mean the same, or don't.
pub fn put_comparison(text: &mut Vec<u8>, is_same: bool) -> Result<(), AllocError>
    ensures { OnOk result (text.new.items ≡ text.old.items ++ comparison_line is_same) }
{
    put_word(text, if is_same { "same\n" } else { "different\n" })
}

/// The line of an eraseblock that isn't in the image.
pub fn no_block_line(alloc: Global) -> Result<Vec<u8>, AllocError>
    ensures { IfOk result (λ text. text.items ≡ no_block_line) }
{
    refused(alloc, &"B1 Block")
}
