//! The geometries that a dump's own headers give, as JSON.

ghost use Rattle.std.specs.Prelude.{◌≡◌, ◌+◌, IfOk, map};
ghost use Rattle.serde_json.specs.View.{view};
ghost use Rattle.ubi_json.specs.Geometry.{detected_data, geometries_data, place_data, span_data};
ghost use Rattle.ubi_json.specs.Line.{IsLineOf};

use crate::line::line_of;
use crate::told::put_numbers;
use itoa::Buffer;
use serde_json::{Map, Value, json, put};
use std::alloc::{AllocError, Global};
use ubi_detect::{Detected, Span};
use ubi_files::FilePart;

/// The place that lies `behind` bytes after a start.
fn place_value(alloc: Global, start: u64, behind: u64) -> Result<Value, AllocError>
    ensures { IfOk result (λ v. view v ≡ place_data (start + behind)) }
{
    match start.checked_add(behind) {
        Some(place) => Ok(Value::from(place)),
        None => {
            let mut buffer = Buffer::new();
            Value::try_from_str(alloc, buffer.format(u128::from(start) + u128::from(behind)))
        }
    }
}

/// An image that was found in a part of a file.
fn detected_value(alloc: Global, part: FilePart, told: &Detected) -> Result<Value, AllocError>
    ensures { IfOk result (λ v. view v ≡ detected_data part told.now) }
{
    let numbers = [
        ("data", u64::from(told.geometry.data_offset())),
        ("length", told.length),
        ("oob", u64::from(told.oob)),
        ("page", u64::from(told.geometry.page())),
        ("peb", u64::from(told.geometry.peb_size())),
        ("vid", u64::from(told.geometry.vid_offset())),
    ];
    let mut members = Map::new(alloc);
    put_numbers(alloc, &mut members, &numbers)?;
    let start = place_value(alloc, part.start, told.start)?;
    put(&mut members, alloc, "start", start)?;
    Ok(Value::Object(members))
}

/// All that is found in a part of a file, in order.
fn detected_values(
    alloc: Global,
    part: FilePart,
    found: &[Detected],
) -> Result<Vec<Value>, AllocError>
    ensures { IfOk result (λ values. map view values.items ≡ map (detected_data part) found.now) }
{
    let mut values = Vec::new(alloc);
    for told in found {
        values.push(detected_value(alloc, part, told)?)?;
    }
    Ok(values)
}

/// Where an image lies that was found in a part of a file.
fn span_value(alloc: Global, part: FilePart, span: &Span) -> Result<Value, AllocError>
    ensures { IfOk result (λ v. view v ≡ span_data part span.now) }
{
    let start = place_value(alloc, part.start, span.start)?;
    json!(in alloc; {"length": span.length, "start": start})
}

/// Where all images lie that were found in a part of a file, in order.
fn span_values(alloc: Global, part: FilePart, spans: &[Span]) -> Result<Vec<Value>, AllocError>
    ensures { IfOk result (λ values. map view values.items ≡ map (span_data part) spans.now) }
{
    let mut values = Vec::new(alloc);
    for span in spans {
        values.push(span_value(alloc, part, span)?)?;
    }
    Ok(values)
}

/// The object of all that is found.
fn geometries_value(
    alloc: Global,
    part: FilePart,
    found: &[Detected],
    spans: &[Span],
) -> Result<Value, AllocError>
    ensures { IfOk result (λ v. view v ≡ geometries_data part found.now spans.now) }
{
    let geometries = detected_values(alloc, part, found)?;
    let images = span_values(alloc, part, spans)?;
    json!(in alloc; {"geometries": geometries, "images": images})
}

/// The line of all geometries that are found in a part of a file, in order, and of where all images lie, if there are several.
///
/// # Errors
///
/// Memory ran out.
pub fn geometry_line(
    alloc: Global,
    part: FilePart,
    found: &[Detected],
    spans: &[Span],
) -> Result<Vec<u8>, AllocError>
    ensures { IfOk result (λ line. IsLineOf (geometries_data part found.now spans.now) line.items) }
{
    let value = geometries_value(alloc, part, found, spans)?;
    line_of(alloc, &value)
}
