//! A line of JSON.

ghost use Rattle.std.specs.Prelude.{◌≡◌, ◌≤◌, IfOk, false};
ghost use Rattle.serde_json.specs.Data.{depth};
ghost use Rattle.serde_json.specs.View.{view};
ghost use Rattle.serde_json.specs.Written.{has_float};
ghost use Rattle.ubi_json.specs.Line.{IsLineOf};

use serde_json::Value;
use std::alloc::{AllocError, Global};

/// The line of a value without floats.
///
/// # Errors
///
/// Memory ran out.
pub fn line_of(alloc: Global, value: &Value) -> Result<Vec<u8>, AllocError>
    requires whole { has_float (view value.now) ≡ false }
    requires flat { depth (view value.now) ≤ 127 }
    ensures { IfOk result (λ line. IsLineOf (view value.now) line.items) }
{
    let mut line = value.to_string(alloc)?.into_bytes();
    line.push(b'\n')?;
    Ok(line)
}
