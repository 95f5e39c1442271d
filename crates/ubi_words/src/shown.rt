//! Names as they are shown.

ghost use Rattle.std.specs.Prelude.{◌≡◌, ◌++◌, IfOk, OnOk, string_bytes};
ghost use Rattle.ubi_words.specs.Shown.{shown, byte_shown};

use std::alloc::{AllocError, Global};

/// Adds a byte of a name as it is shown.
fn put_shown_byte(alloc: Global, text: &mut String, byte: u8) -> Result<(), AllocError>
    ensures { OnOk result (string_bytes text.new ≡ string_bytes text.old ++ byte_shown byte) }
{
    if byte >= 0x21 && byte <= 0x7E && byte != b'\\' {
        text.push(byte as char)?;
        return Ok(());
    }
    let digits = hex::encode(alloc, [byte])?;
    text.push_str("\\x")?;
    text.push_str(digits.as_str())?;
    Ok(())
}

/// A name as it is shown: printable bytes, except the backslash, as they are, and any other as `\x` and two digits.
///
/// # Errors
///
/// Memory ran out.
pub fn shown_text(alloc: Global, name: &[u8]) -> Result<String, AllocError>
    ensures { IfOk result (λ text. string_bytes text ≡ shown name.now) }
{
    let mut text = String::new(alloc);
    for byte in name {
        put_shown_byte(alloc, &mut text, *byte)?;
    }
    Ok(text)
}
