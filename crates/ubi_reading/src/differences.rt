//! The lines of differences.

ghost use Rattle.std.specs.Prelude.{◌≡◌, ◌++◌, ◌∷◌, [], OnOk, decimal, flat_map};
ghost use Rattle.hex.specs.Hex.{encode_lower};
ghost use Rattle.ubi_reading.specs.Comparisons.{difference_line, range_words, side_words, volume_words};
ghost use Rattle.ubi_words.specs.Shown.{shown};

use crate::lines::put_digits;
use std::alloc::{AllocError, Global};
use ubi_compare::Difference;
use ubi_dumps::put_shown;
use ubi_files::{put_number, put_word};
use ubi_json::{condition_word, kind_word, side_word};
use ubi_media::VolName;

/// Adds the beginning of a line of a volume.
fn put_volume(text: &mut Vec<u8>, id: u32, word: &str) -> Result<(), AllocError>
    ensures { OnOk result (text.new.items ≡ text.old.items ++ volume_words id word.now) }
{
    put_number(text, "volume ", u64::from(id))?;
    put_word(text, " ")?;
    put_word(text, word)
}

/// Adds two words, one of either side.
fn put_words(text: &mut Vec<u8>, left: &str, right: &str) -> Result<(), AllocError>
    ensures { OnOk result (text.new.items ≡ text.old.items ++ side_words left.now right.now) }
{
    put_word(text, " left=")?;
    put_word(text, left)?;
    put_word(text, " right=")?;
    put_word(text, right)?;
    put_word(text, "\n")
}

/// Adds two numbers, one of either side.
fn put_numbers(text: &mut Vec<u8>, left: u64, right: u64) -> Result<(), AllocError>
    ensures { OnOk result (text.new.items ≡ text.old.items ++ side_words (decimal left) (decimal right)) }
{
    put_number(text, " left=", left)?;
    put_number(text, " right=", right)?;
    put_word(text, "\n")
}

/// Adds two flags, one of either side.
fn put_flags(alloc: Global, text: &mut Vec<u8>, left: u8, right: u8) -> Result<(), AllocError>
    ensures { OnOk result (text.new.items ≡ text.old.items ++ side_words (encode_lower (left ∷ [])) (encode_lower (right ∷ []))) }
{
    put_word(text, " left=")?;
    put_digits(alloc, text, left)?;
    put_word(text, " right=")?;
    put_digits(alloc, text, right)?;
    put_word(text, "\n")
}

/// Adds two names, one of either side.
fn put_names(
    alloc: Global,
    text: &mut Vec<u8>,
    left: &VolName,
    right: &VolName,
) -> Result<(), AllocError>
    ensures { OnOk result (text.new.items ≡ text.old.items ++ side_words (shown left.now) (shown right.now)) }
{
    put_word(text, " left=")?;
    put_shown(alloc, text, left.as_bytes())?;
    put_word(text, " right=")?;
    put_shown(alloc, text, right.as_bytes())?;
    put_word(text, "\n")
}

/// Adds a range of logical eraseblocks.
fn put_range(text: &mut Vec<u8>, first: u32, last: u32) -> Result<(), AllocError>
    ensures { OnOk result (text.new.items ≡ text.old.items ++ range_words first last) }
{
    put_number(text, "", u64::from(first))?;
    if first == last {
        return Ok(());
    }
    put_number(text, "-", u64::from(last))
}

/// Adds the line of a difference.
fn put_difference(
    alloc: Global,
    text: &mut Vec<u8>,
    difference: &Difference,
) -> Result<(), AllocError>
    ensures { OnOk result (text.new.items ≡ text.old.items ++ difference_line difference.now) }
{
    match difference {
        Difference::ImageSeq { left, right } => {
            put_word(text, "seq")?;
            put_numbers(text, u64::from(*left), u64::from(*right))
        }
        Difference::Only { id, side } => {
            put_volume(text, *id, "only ")?;
            put_word(text, side_word(*side))?;
            put_word(text, "\n")
        }
        Difference::Kind { id, left, right } => {
            put_volume(text, *id, "kind")?;
            put_words(text, kind_word(*left), kind_word(*right))
        }
        Difference::Reserved { id, left, right } => {
            put_volume(text, *id, "reserved")?;
            put_numbers(text, u64::from(*left), u64::from(*right))
        }
        Difference::Alignment { id, left, right } => {
            put_volume(text, *id, "alignment")?;
            put_numbers(text, u64::from(*left), u64::from(*right))
        }
        Difference::Flags { id, left, right } => {
            put_volume(text, *id, "flags")?;
            put_flags(alloc, text, *left, *right)
        }
        Difference::Name { id, left, right } => {
            put_volume(text, *id, "name")?;
            put_names(alloc, text, left, right)
        }
        Difference::Condition { id, left, right } => {
            put_volume(text, *id, "contents")?;
            put_words(text, condition_word(*left), condition_word(*right))
        }
        Difference::Bytes { id, left, right } => {
            put_volume(text, *id, "bytes")?;
            put_numbers(text, *left, *right)
        }
        Difference::Lebs { id, first, last } => {
            put_volume(text, *id, "lebs ")?;
            put_range(text, *first, *last)?;
            put_word(text, "\n")
        }
    }
}

/// Puts the lines of differences.
pub fn put_differences(
    alloc: Global,
    text: &mut Vec<u8>,
    told: &[Difference],
) -> Result<(), AllocError>
    ensures { OnOk result (text.new.items ≡ text.old.items ++ flat_map difference_line told.now) }
{
    for difference in told {
        put_difference(alloc, text, difference)?;
    }
    Ok(())
}
