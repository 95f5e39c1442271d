//! Printed lines of counts.

ghost use Rattle.std.specs.Prelude.{◌≡◌, ◌+◌, ◌++◌, ◌≤◌, IfOk, IsOk, OnOk, codes, decimal, length, vec_capacity, vec_len};
ghost use Rattle.ubi_writing.specs.Lines.{blocks_line, bytes_line};

use itoa::Buffer;
use std::alloc::{AllocError, Global};

/// The length of the longest line of a count in bytes: its word, twenty digits and the line's end.
pub const LONGEST_COUNT_LINE: usize = 28;

/// Adds a word, a number and the end of a line. If there is space for the longest number, it allocates no memory.
fn put_count_line(text: &mut Vec<u8>, word: &[u8], count: u64) -> Result<(), AllocError>
    ensures line { OnOk result (text.new.items ≡ text.old.items ++ (word.now ++ decimal count ++ codes "\n")) }
    ensures room { vec_len text.old + length word.now + 21 ≤ vec_capacity text.old → IsOk result }
{
    let mut buffer = Buffer::new();
    text.extend_from_slice(word)?;
    text.extend_from_slice(buffer.format(count).as_bytes())?;
    text.extend_from_slice(b"\n")
}

/// Adds the line of a number of bytes. If there is space for the longest one, it allocates no memory.
///
/// # Errors
///
/// Memory ran out.
pub fn put_bytes_line(text: &mut Vec<u8>, count: u64) -> Result<(), AllocError>
    ensures line { OnOk result (text.new.items ≡ text.old.items ++ bytes_line count) }
    ensures room { vec_len text.old + 28 ≤ vec_capacity text.old → IsOk result }
{
    put_count_line(text, b"bytes ", count)
}

/// Adds the line of a number of eraseblocks. If there is space for the longest one, it allocates no memory.
///
/// # Errors
///
/// Memory ran out.
pub fn put_blocks_line(text: &mut Vec<u8>, count: u64) -> Result<(), AllocError>
    ensures line { OnOk result (text.new.items ≡ text.old.items ++ blocks_line count) }
    ensures room { vec_len text.old + 28 ≤ vec_capacity text.old → IsOk result }
{
    put_count_line(text, b"blocks ", count)
}

/// The line of a number of eraseblocks.
pub fn blocks_line(alloc: Global, count: usize) -> Result<Vec<u8>, AllocError>
    ensures { IfOk result (λ text. text.items ≡ blocks_line count) }
{
    let mut text = Vec::new(alloc);
    put_blocks_line(&mut text, count as u64)?;
    Ok(text)
}
