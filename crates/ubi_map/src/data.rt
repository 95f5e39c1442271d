//! The eraseblocks of an image one by one, as JSON.

ghost use Rattle.std.specs.Prelude.{◌≡◌, All, IfOk, None, false, map, string_bytes};
ghost use Rattle.serde_json.specs.Data.{string};
ghost use Rattle.serde_json.specs.View.{view};
ghost use Rattle.serde_json.specs.Written.{has_float};
ghost use Rattle.ubi_media.specs.Record.{rec_fault};
ghost use Rattle.ubi_map.specs.Map.{accepted_data, refused_page_data, surveyed_data, texts_data, unaccepted_data};

use crate::letters::state_letters;
use serde_json::{Value, json};
use std::alloc::{AllocError, Global};
use ubi_json::{ListedVolume, check_value, listed_value, refusal_value, sizes_value};
use ubi_media::{Geometry, Refusal};
use ubi_volume::Surveyed;

/// Texts, each as a string.
fn text_values(alloc: Global, texts: &[String]) -> Result<Vec<Value>, AllocError>
    ensures { IfOk result (λ values. map view values.items ≡ map string (map string_bytes texts.now)) }
{
    let mut values = Vec::new(alloc);
    for text in texts {
        values.push(Value::try_from_str(alloc, text.as_str())?)?;
    }
    Ok(values)
}

/// An array of texts.
fn texts_value(alloc: Global, texts: &[String]) -> Result<Value, AllocError>
    ensures { IfOk result (λ v. view v ≡ texts_data (map string_bytes texts.now)) }
{
    let values = text_values(alloc, texts)?;
    Ok(Value::Array(values))
}

/// An image that is accepted: its eraseblocks, what `check` and `list` print for it, and a letter for the state of each eraseblock.
fn accepted_value(
    alloc: Global,
    blocks: Value,
    check: Value,
    list: Value,
    states: String,
) -> Result<Value, AllocError>
    ensures { IfOk result (λ v. view v ≡ accepted_data (view blocks) (view check) (view list) (string_bytes states)) }
{
    json!(in alloc; {"blocks": blocks, "check": check, "list": list, "states": states})
}

/// An image that is refused: its eraseblocks, the sizes of the device, the cause, and a letter for each eraseblock.
fn unaccepted_value(
    alloc: Global,
    blocks: Value,
    sizes: Value,
    refusal: Value,
    states: Value,
) -> Result<Value, AllocError>
    ensures { IfOk result (λ v. view v ≡ unaccepted_data (view blocks) (view sizes) (view refusal) (view states)) }
{
    json!(in alloc; {"blocks": blocks, "geometry": sizes, "refusal": refusal, "states": states})
}

/// An image that is surveyed, by the lines of its eraseblocks' headers, and its volumes as they are listed.
pub(crate) fn surveyed_value(
    alloc: Global,
    geometry: &Geometry,
    texts: &[String],
    surveyed: &Surveyed,
    volumes: &[ListedVolume],
) -> Result<Value, AllocError>
    requires { All (λ v. rec_fault geometry.now v.entry ≡ None) volumes.now }
    ensures { IfOk result (λ v. view v ≡ surveyed_data geometry.now (map string_bytes texts.now) surveyed.now volumes.now) }
{
    let blocks = texts_value(alloc, texts)?;
    let check = check_value(alloc, surveyed)?;
    let list = listed_value(alloc, geometry, volumes)?;
    let states = state_letters(alloc, surveyed.states())?;
    accepted_value(alloc, blocks, check, list, states)
}

/// An image that is refused for a cause, by the lines of its eraseblocks' headers and their letters.
pub(crate) fn refused_value(
    alloc: Global,
    geometry: &Geometry,
    texts: &[String],
    letters: &str,
    cause: Refusal,
) -> Result<Value, AllocError>
    ensures value { IfOk result (λ v. view v ≡ refused_page_data geometry.now (map string_bytes texts.now) letters.now cause) }
    ensures whole { IfOk result (λ v. has_float (view v) ≡ false) }
{
    let blocks = texts_value(alloc, texts)?;
    let sizes = sizes_value(alloc, geometry)?;
    let refusal = refusal_value(alloc, cause)?;
    let states = Value::try_from_str(alloc, letters)?;
    unaccepted_value(alloc, blocks, sizes, refusal, states)
}
