//! Causes for which there is no other answer, as JSON.

ghost use Rattle.std.specs.Prelude.{◌≡◌, ◌-◌, IfOk, OnOk, false, length, map, option_map, string_bytes, take};
ghost use Rattle.std.specs.Str.Lossy.{utf8_lossy};
ghost use Rattle.serde_json.specs.Data.{no_members, object};
ghost use Rattle.serde_json.specs.View.{members_view, view};
ghost use Rattle.serde_json.specs.Written.{has_float};
ghost use Rattle.ubi_json.specs.Line.{IsLineOf};
ghost use Rattle.ubi_json.specs.Told.{at_block, at_fault, bare, error_data, refusal_data, refused_data, side_data, told_members, refusal_told, undetected_data, undetected_told, with_fault, with_numbers};

use crate::differences::side_word;
use crate::line::line_of;
use serde_json::{Map, Value, json, put};
use std::alloc::{AllocError, Global};
use ubi_compare::Side;
use ubi_detect::Undetected;
use ubi_media::{EcOffsets, Refusal};

/// Adds numbers under their words.
pub(crate) fn put_numbers(
    alloc: Global,
    members: &mut Map<String, Value>,
    numbers: &[(&str, u64)],
) -> Result<(), AllocError>
    ensures { OnOk result (members_view members.new.entries ≡ with_numbers (map (λ e. (e.0.now, e.1)) numbers.now) (members_view members.old.entries)) }
{
    for (word, number) in numbers {
        put(members, alloc, *word, Value::from(*number))?;
    }
    Ok(())
}

/// An object of numbers by their words.
pub(crate) fn numbers_object(alloc: Global, numbers: &[(&str, u64)]) -> Result<Value, AllocError>
    ensures { IfOk result (λ v. view v ≡ object (with_numbers (map (λ e. (e.0.now, e.1)) numbers.now) no_members)) }
{
    let mut members = Map::new(alloc);
    put_numbers(alloc, &mut members, numbers)?;
    Ok(Value::Object(members))
}

/// Adds the name of a rule, if there is one.
fn put_fault(
    alloc: Global,
    members: &mut Map<String, Value>,
    fault: Option<&str>,
) -> Result<(), AllocError>
    ensures { OnOk result (members_view members.new.entries ≡ with_fault (option_map (λ f. f.now) fault.entry) (members_view members.old.entries)) }
{
    match fault {
        Some(name) => {
            let value = Value::try_from_str(alloc, name)?;
            put(members, alloc, "fault", value)
        }
        None => Ok(()),
    }
}

/// The members of a cause: its code, its name, numbers under their words, and the name of a rule, if there is one.
fn told_members(
    alloc: Global,
    code: &str,
    name: &str,
    numbers: &[(&str, u64)],
    fault: Option<&str>,
) -> Result<Map<String, Value>, AllocError>
    ensures { IfOk result (λ m. members_view m.entries ≡ told_members (record { code = code.now; cause = name.now; numbers = map (λ e. (e.0.now, e.1)) numbers.now; fault = option_map (λ f. f.now) fault.entry })) }
{
    let mut members = Map::new(alloc);
    let code = Value::try_from_str(alloc, code)?;
    put(&mut members, alloc, "code", code)?;
    let cause = Value::try_from_str(alloc, name)?;
    put(&mut members, alloc, "cause", cause)?;
    put_numbers(alloc, &mut members, numbers)?;
    put_fault(alloc, &mut members, fault)?;
    Ok(members)
}

/// The members of a cause without numbers.
fn bare(alloc: Global, code: &str, name: &str) -> Result<Map<String, Value>, AllocError>
    ensures { IfOk result (λ m. members_view m.entries ≡ told_members (bare code.now name.now)) }
{
    told_members(alloc, code, name, &[], None)
}

/// The members of a cause that names an eraseblock.
fn at_block(
    alloc: Global,
    code: &str,
    name: &str,
    block: u32,
) -> Result<Map<String, Value>, AllocError>
    ensures { IfOk result (λ m. members_view m.entries ≡ told_members (at_block code.now name.now block)) }
{
    told_members(alloc, code, name, &[("block", u64::from(block))], None)
}

/// The members of a cause that names an eraseblock and the rule that it breaks.
fn at_fault(
    alloc: Global,
    code: &str,
    name: &str,
    block: u32,
    fault: &str,
) -> Result<Map<String, Value>, AllocError>
    ensures { IfOk result (λ m. members_view m.entries ≡ told_members (at_fault code.now name.now block fault.now)) }
{
    told_members(
        alloc,
        code,
        name,
        &[("block", u64::from(block))],
        Some(fault),
    )
}

/// The members of the cause for which an image is refused.
fn refusal_members(alloc: Global, cause: Refusal) -> Result<Map<String, Value>, AllocError>
    ensures { IfOk result (λ m. members_view m.entries ≡ told_members (refusal_told cause)) }
{
    match cause {
        Refusal::Length => bare(alloc, "S1", "Length"),
        Refusal::TooMany => bare(alloc, "S2", "TooMany"),
        Refusal::Ec(p, fault) => at_fault(alloc, "S3", "Ec", p, fault.name()),
        Refusal::ImageSeq(p) => at_block(alloc, "S4", "ImageSeq", p),
        Refusal::Vid(p, fault) => at_fault(alloc, "S5", "Vid", p, fault.name()),
        Refusal::Incompatible(p, volume) => {
            let numbers = [("block", u64::from(p)), ("volume", u64::from(volume))];
            told_members(alloc, "S6", "Incompatible", &numbers, None)
        }
        Refusal::Layout(p) => at_block(alloc, "S7", "Layout", p),
        Refusal::SameSqnum(p, earlier) => {
            let numbers = [("block", u64::from(p)), ("earlier", u64::from(earlier))];
            told_members(alloc, "S8", "SameSqnum", &numbers, None)
        }
        Refusal::NoTable => bare(alloc, "T1", "NoTable"),
        Refusal::BothCorrupt => bare(alloc, "T2", "BothCorrupt"),
        Refusal::Record(p, slot, fault) => {
            let numbers = [("block", u64::from(p)), ("slot", u64::from(slot))];
            told_members(alloc, "T3", "Record", &numbers, Some(fault.name()))
        }
        Refusal::SameName(p, slot, next) => {
            let numbers = [
                ("block", u64::from(p)),
                ("slot", u64::from(slot)),
                ("next_slot", u64::from(next)),
            ];
            told_members(alloc, "T4", "SameName", &numbers, None)
        }
        Refusal::NoSpace => bare(alloc, "T5", "NoSpace"),
        Refusal::Mismatch(p) => at_block(alloc, "V1", "Mismatch", p),
    }
}

/// The object of a cause with these members.
fn refused(alloc: Global, members: Map<String, Value>) -> Result<Value, AllocError>
    ensures { IfOk result (λ v. view v ≡ refused_data (members_view members.entries)) }
{
    let told = Value::Object(members);
    json!(in alloc; {"refused": told})
}

/// The object of the cause for which an image is refused.
///
/// # Errors
///
/// Memory ran out.
pub fn refusal_value(alloc: Global, cause: Refusal) -> Result<Value, AllocError>
    ensures value { IfOk result (λ v. view v ≡ refusal_data cause) }
    ensures whole { has_float (refusal_data cause) ≡ false }
{
    let members = refusal_members(alloc, cause)?;
    refused(alloc, members)
}

/// The object of the cause for which one of two images is refused, with the side on which it stands.
fn side_value(alloc: Global, side: Side, cause: Refusal) -> Result<Value, AllocError>
    ensures { IfOk result (λ v. view v ≡ side_data side cause) }
{
    let mut members = refusal_members(alloc, cause)?;
    let word = Value::try_from_str(alloc, side_word(side))?;
    put(&mut members, alloc, "side", word)?;
    refused(alloc, members)
}

/// The line of the cause for which one of two images is refused, as JSON, with the side on which it stands.
///
/// # Errors
///
/// Memory ran out.
pub fn side_line(alloc: Global, side: Side, cause: Refusal) -> Result<Vec<u8>, AllocError>
    ensures { IfOk result (λ line. IsLineOf (side_data side cause) line.items) }
{
    let value = side_value(alloc, side, cause)?;
    line_of(alloc, &value)
}

/// The line of the cause for which an image is refused, as JSON.
///
/// # Errors
///
/// Memory ran out.
pub fn refusal_line(alloc: Global, cause: Refusal) -> Result<Vec<u8>, AllocError>
    ensures { IfOk result (λ line. IsLineOf (refusal_data cause) line.items) }
{
    let value = refusal_value(alloc, cause)?;
    line_of(alloc, &value)
}

/// The members of the cause for which no geometry is found in a file.
fn undetected_members(alloc: Global, cause: Undetected) -> Result<Map<String, Value>, AllocError>
    ensures { IfOk result (λ m. members_view m.entries ≡ told_members (undetected_told cause)) }
{
    match cause {
        Undetected::NoHeader => bare(alloc, "F1", "NoHeader"),
        Undetected::NoSize => bare(alloc, "F2", "NoSize"),
        Undetected::Length(size, rest) => {
            told_members(
                alloc,
                "F3",
                "Length",
                &[("peb", size), ("rest", rest)],
                None,
            )
        }
        Undetected::OutOfBand(size) => {
            told_members(alloc, "F5", "OutOfBand", &[("peb", size)], None)
        }
        Undetected::Page(
            size,
            EcOffsets {
                vid_offset,
                data_offset,
            },
        ) => {
            let numbers = [
                ("peb", size),
                ("vid", u64::from(vid_offset)),
                ("data", u64::from(data_offset)),
            ];
            told_members(alloc, "F6", "Page", &numbers, None)
        }
    }
}

/// The object of the cause for which no geometry is found in a file.
fn undetected_value(alloc: Global, cause: Undetected) -> Result<Value, AllocError>
    ensures { IfOk result (λ v. view v ≡ undetected_data cause) }
{
    let members = undetected_members(alloc, cause)?;
    refused(alloc, members)
}

/// The line of the cause for which no geometry is found in a file, as JSON.
///
/// # Errors
///
/// Memory ran out.
pub fn undetected_line(alloc: Global, cause: Undetected) -> Result<Vec<u8>, AllocError>
    ensures { IfOk result (λ line. IsLineOf (undetected_data cause) line.items) }
{
    let value = undetected_value(alloc, cause)?;
    line_of(alloc, &value)
}

/// A printed line without its end, as text.
fn text_of(alloc: Global, printed: &[u8]) -> Result<String, AllocError>
    ensures { IfOk result (λ text. string_bytes text ≡ utf8_lossy (take (length printed.now - 1) printed.now)) }
{
    let end = printed.len().saturating_sub(1);
    String::from_utf8_lossy(alloc, &printed[..end])
}

/// The object of a file that can't be opened, by what is printed for it.
fn error_value(alloc: Global, printed: &[u8]) -> Result<Value, AllocError>
    ensures { IfOk result (λ v. view v ≡ error_data printed.now) }
{
    let text = text_of(alloc, printed)?;
    json!(in alloc; {"error": text})
}

/// The line of a file that can't be opened, as JSON, by what is printed for it.
///
/// # Errors
///
/// Memory ran out.
pub fn error_line(alloc: Global, printed: &[u8]) -> Result<Vec<u8>, AllocError>
    ensures { IfOk result (λ line. IsLineOf (error_data printed.now) line.items) }
{
    let value = error_value(alloc, printed)?;
    line_of(alloc, &value)
}
