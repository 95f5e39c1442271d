//! What comparing two images answers, as JSON.

ghost use Rattle.std.specs.Prelude.{◌≡◌, IfOk, codes, map};
ghost use Rattle.serde_json.specs.View.{view};
ghost use Rattle.ubi_json.specs.Differences.{difference_data, differences_data, numbers_data, same_data, sides_data, words_data};
ghost use Rattle.ubi_compare.specs.declared.difference.Difference.TheVariants as difference;
ghost use Rattle.ubi_json.specs.Line.{IsLineOf};
ghost use Rattle.ubi_json.specs.Words.{condition_word, side_word};
ghost use Rattle.ubi_words.specs.Shown.{shown};

use crate::line::line_of;
use crate::list::kind_word;
use serde_json::{Value, json};
use std::alloc::{AllocError, Global};
use ubi_compare::{Condition, Difference, Side};
use ubi_media::VolName;
use ubi_words::shown_text;

/// The word of one of two images.
pub fn side_word(side: Side) -> &'static str
    ensures { result.now ≡ side_word side }
{
    match side {
        Side::Left => "left",
        Side::Right => "right",
    }
}

/// The word for whether a volume can be read.
pub fn condition_word(condition: Condition) -> &'static str
    ensures { result.now ≡ condition_word condition }
{
    match condition {
        Condition::Updating => "updating",
        Condition::Damaged => "damaged",
        Condition::Whole => "whole",
    }
}

/// Whether two images mean the same.
fn same_value(alloc: Global, same: bool) -> Result<Value, AllocError>
    ensures { IfOk result (λ v. view v ≡ same_data same) }
{
    json!(in alloc; {"same": same})
}

/// The line of two images that mean the same, or don't.
///
/// # Errors
///
/// Memory ran out.
pub fn same_line(alloc: Global, same: bool) -> Result<Vec<u8>, AllocError>
    ensures { IfOk result (λ line. IsLineOf (same_data same) line.items) }
{
    let value = same_value(alloc, same)?;
    line_of(alloc, &value)
}

/// A difference of a volume, and what stands on either side.
fn sides_value(
    alloc: Global,
    id: u32,
    what: &str,
    left: Value,
    right: Value,
) -> Result<Value, AllocError>
    ensures { IfOk result (λ v. view v ≡ sides_data id what.now (view left) (view right)) }
{
    json!(in alloc; {"id": u64::from(id), "left": left, "right": right, "what": what})
}

/// A difference of a volume, with a number on either side.
fn numbers_value(
    alloc: Global,
    id: u32,
    what: &str,
    left: u64,
    right: u64,
) -> Result<Value, AllocError>
    ensures { IfOk result (λ v. view v ≡ numbers_data id what.now left right) }
{
    sides_value(alloc, id, what, Value::from(left), Value::from(right))
}

/// A difference of a volume, with a word on either side.
fn words_value(
    alloc: Global,
    id: u32,
    what: &str,
    left: &str,
    right: &str,
) -> Result<Value, AllocError>
    ensures { IfOk result (λ v. view v ≡ words_data id what.now left.now right.now) }
{
    let here = Value::try_from_str(alloc, left)?;
    let there = Value::try_from_str(alloc, right)?;
    sides_value(alloc, id, what, here, there)
}

/// The names of a volume on either side, as they are shown.
fn names_value(alloc: Global, id: u32, left: &VolName, right: &VolName) -> Result<Value, AllocError>
    ensures { IfOk result (λ v. view v ≡ words_data id (codes "name") (shown left.now) (shown right.now)) }
{
    let here = shown_text(alloc, left.as_bytes())?;
    let there = shown_text(alloc, right.as_bytes())?;
    words_value(alloc, id, "name", here.as_str(), there.as_str())
}

/// Image sequence numbers that differ.
fn numbers_apart(alloc: Global, left: u32, right: u32) -> Result<Value, AllocError>
    ensures { IfOk result (λ v. view v ≡ difference_data (difference.ImageSeq left right)) }
{
    json!(in alloc; {"left": u64::from(left), "right": u64::from(right), "what": "image_seq"})
}

/// A volume that only one side has.
fn only_value(alloc: Global, id: u32, side: Side) -> Result<Value, AllocError>
    ensures { IfOk result (λ v. view v ≡ difference_data (difference.Only id side)) }
{
    json!(in alloc; {"id": u64::from(id), "only": side_word(side), "what": "volume"})
}

/// A range of logical eraseblocks that read differently.
fn lebs_value(alloc: Global, id: u32, first: u32, last: u32) -> Result<Value, AllocError>
    ensures { IfOk result (λ v. view v ≡ difference_data (difference.Lebs id first last)) }
{
    json!(in alloc; {"first": u64::from(first), "id": u64::from(id), "last": u64::from(last), "what": "lebs"})
}

/// A difference.
fn difference_value(alloc: Global, difference: &Difference) -> Result<Value, AllocError>
    ensures { IfOk result (λ v. view v ≡ difference_data difference.now) }
{
    match difference {
        Difference::ImageSeq { left, right } => numbers_apart(alloc, *left, *right),
        Difference::Only { id, side } => only_value(alloc, *id, *side),
        Difference::Kind { id, left, right } => {
            words_value(alloc, *id, "kind", kind_word(*left), kind_word(*right))
        }
        Difference::Reserved { id, left, right } => {
            numbers_value(alloc, *id, "reserved", u64::from(*left), u64::from(*right))
        }
        Difference::Alignment { id, left, right } => {
            numbers_value(alloc, *id, "alignment", u64::from(*left), u64::from(*right))
        }
        Difference::Flags { id, left, right } => {
            numbers_value(alloc, *id, "flags", u64::from(*left), u64::from(*right))
        }
        Difference::Name { id, left, right } => names_value(alloc, *id, left, right),
        Difference::Condition { id, left, right } => {
            words_value(
                alloc,
                *id,
                "contents",
                condition_word(*left),
                condition_word(*right),
            )
        }
        Difference::Bytes { id, left, right } => numbers_value(alloc, *id, "bytes", *left, *right),
        Difference::Lebs { id, first, last } => lebs_value(alloc, *id, *first, *last),
    }
}

/// Differences in order.
fn difference_values(alloc: Global, told: &[Difference]) -> Result<Vec<Value>, AllocError>
    ensures { IfOk result (λ values. map view values.items ≡ map difference_data told.now) }
{
    let mut values = Vec::new(alloc);
    for difference in told {
        values.push(difference_value(alloc, difference)?)?;
    }
    Ok(values)
}

/// Differences in order, and whether there are none.
fn differences_value(alloc: Global, told: &[Difference]) -> Result<Value, AllocError>
    ensures { IfOk result (λ v. view v ≡ differences_data told.now) }
{
    let values = difference_values(alloc, told)?;
    json!(in alloc; {"differences": values, "same": told.is_empty()})
}

/// The line of the differences of two images, in order, and of whether there are none.
///
/// # Errors
///
/// Memory ran out.
pub fn differences_line(alloc: Global, told: &[Difference]) -> Result<Vec<u8>, AllocError>
    ensures { IfOk result (λ line. IsLineOf (differences_data told.now) line.items) }
{
    let value = differences_value(alloc, told)?;
    line_of(alloc, &value)
}
