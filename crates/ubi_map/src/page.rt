//! A page that shows some data.

ghost use Rattle.std.specs.List.{flat_map};
ghost use Rattle.std.specs.Prelude.{◌≡◌, ◌++◌, All, IfOk, None, OnOk, false, map, string_bytes};
ghost use Rattle.serde_json.specs.View.{view};
ghost use Rattle.serde_json.specs.Written.{has_float};
ghost use Rattle.ubi_media.specs.Record.{rec_fault};
ghost use Rattle.ubi_map.specs.Map.{refused_page_data, surveyed_data};
ghost use Rattle.ubi_map.specs.Page.{page_of, script_byte};

use crate::data::{refused_value, surveyed_value};
use crate::frame::{AFTER, BEFORE};
use serde_json::Value;
use std::alloc::{AllocError, Global};
use ubi_json::ListedVolume;
use ubi_media::{Geometry, Refusal};
use ubi_volume::Surveyed;

/// Adds a text as it stands in a script element.
fn put_script(page: &mut Vec<u8>, text: &[u8]) -> Result<(), AllocError>
    ensures { OnOk result (page.new.items ≡ page.old.items ++ flat_map script_byte text.now) }
{
    for byte in text {
        if *byte == b'<' {
            page.extend_from_slice(b"\\u003c")?;
        } else {
            page.push(*byte)?;
        }
    }
    Ok(())
}

/// The page that shows some data, which have no float.
fn page_of(alloc: Global, value: &Value) -> Result<Vec<u8>, AllocError>
    requires { has_float (view value.now) ≡ false }
    ensures { IfOk result (λ page. page.items ≡ page_of (view value.now)) }
{
    let text = value.to_string(alloc)?;
    let mut page = Vec::new(alloc);
    page.extend_from_slice(BEFORE.as_bytes())?;
    put_script(&mut page, text.as_bytes())?;
    page.extend_from_slice(AFTER.as_bytes())?;
    Ok(page)
}

/// The page of an image that is surveyed, by the lines of its eraseblocks' headers, and its volumes as they are listed.
///
/// # Errors
///
/// Memory ran out.
pub fn surveyed_page(
    alloc: Global,
    geometry: &Geometry,
    texts: &[String],
    surveyed: &Surveyed,
    volumes: &[ListedVolume],
) -> Result<Vec<u8>, AllocError>
    requires { All (λ v. rec_fault geometry.now v.entry ≡ None) volumes.now }
    ensures { IfOk result (λ page. page.items ≡ page_of (surveyed_data geometry.now (map string_bytes texts.now) surveyed.now volumes.now)) }
{
    let value = surveyed_value(alloc, geometry, texts, surveyed, volumes)?;
    page_of(alloc, &value)
}

/// The page of an image that is refused for a cause, by the lines of its eraseblocks' headers and a letter for each of them.
///
/// # Errors
///
/// Memory ran out.
pub fn refused_page(
    alloc: Global,
    geometry: &Geometry,
    texts: &[String],
    letters: &str,
    cause: Refusal,
) -> Result<Vec<u8>, AllocError>
    ensures { IfOk result (λ page. page.items ≡ page_of (refused_page_data geometry.now (map string_bytes texts.now) letters.now cause)) }
{
    let value = refused_value(alloc, geometry, texts, letters, cause)?;
    page_of(alloc, &value)
}
