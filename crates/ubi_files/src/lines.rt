//! The printed lines of refusals, and of files that fail.

ghost use Rattle.std.specs.Prelude.{◌≡◌, ◌++◌, IfOk, IfSome, OnOk, decimal};
ghost use Rattle.ubi_files.specs.Lines.{file_line, geometry_line, misfit_line, refusal_line, refused_line};

use crate::view::Misfit;
use itoa::Buffer;
use std::alloc::{AllocError, Global};
use std::fmt;
use ubi_media::{GeometryError, Refusal};

/// Adds a word.
pub fn put_word(text: &mut Vec<u8>, word: &str) -> Result<(), AllocError>
    ensures { OnOk result (text.new.items ≡ text.old.items ++ word.now) }
{
    text.extend_from_slice(word.as_bytes())
}

/// Adds a word and a decimal number.
pub fn put_number(text: &mut Vec<u8>, word: &str, number: u64) -> Result<(), AllocError>
    ensures { OnOk result (text.new.items ≡ text.old.items ++ (word.now ++ decimal number)) }
{
    let mut buffer = Buffer::new();
    put_word(text, word)?;
    put_word(text, buffer.format(number))
}

/// The line of a refusal, by what is printed for its cause.
pub fn refused<C: fmt::Display>(alloc: Global, cause: &C) -> Result<Vec<u8>, AllocError>
    ensures { IfOk result (λ line. IfSome (C.output cause.now) (λ text. line.items ≡ refused_line text)) }
{
    Ok(format!(in alloc; "refused {cause}\n")?.into_bytes())
}

/// The line of a limit that a geometry breaks.
pub fn geometry_line(alloc: Global, limit: GeometryError) -> Result<Vec<u8>, AllocError>
    ensures { IfOk result (λ text. text.items ≡ geometry_line limit) }
{
    refused(alloc, &limit)
}

/// The line of an image that is refused.
pub fn refusal_line(alloc: Global, cause: Refusal) -> Result<Vec<u8>, AllocError>
    ensures { IfOk result (λ text. text.items ≡ refusal_line cause) }
{
    refused(alloc, &cause)
}

/// The line of a file that can't be read as the words say.
pub fn misfit_line(alloc: Global, misfit: Misfit) -> Result<Vec<u8>, AllocError>
    ensures { IfOk result (λ text. text.items ≡ misfit_line misfit) }
{
    refused(alloc, &misfit)
}

/// The line of a file that fails: what can't be done with it, and its path.
pub fn file_line(alloc: Global, cannot: &str, path: &str) -> Result<Vec<u8>, AllocError>
    ensures { IfOk result (λ text. text.items ≡ file_line cannot.now path.now) }
{
    let mut text = Vec::from_slice(alloc, cannot.as_bytes())?;
    put_word(&mut text, path)?;
    put_word(&mut text, "\n")?;
    Ok(text)
}
