//! The two headers of an eraseblock as lines: what each is, and its bytes.

ghost use Rattle.std.specs.Prelude.{◌≡◌, ◌++◌, IfOk, OnOk, codes, string_bytes};
ghost use Rattle.hex.specs.Hex.{encode_lower};
ghost use Rattle.ubi_map.specs.Headers.{ec_state, header_lines, vid_state};

use std::alloc::{AllocError, Global};
use ubi_media::{EcRead, Geometry, VidRead, read_ec, read_vid};

/// Adds the word for a header at fault.
fn put_fault(text: &mut String, name: &str) -> Result<(), AllocError>
    ensures { OnOk result (string_bytes text.new ≡ string_bytes text.old ++ (codes "fault:" ++ name.now)) }
{
    text.push_str("fault:")?;
    text.push_str(name)
}

/// Adds the word for what an erase-counter header is.
fn put_ec_state(text: &mut String, ec: &EcRead) -> Result<(), AllocError>
    ensures { OnOk result (string_bytes text.new ≡ string_bytes text.old ++ ec_state ec.now) }
{
    match ec {
        EcRead::Blank => text.push_str("blank"),
        EcRead::Corrupt => text.push_str("corrupt"),
        EcRead::Fault(fault) => put_fault(text, fault.name()),
        EcRead::Valid(_) => text.push_str("valid"),
    }
}

/// Adds the word for what a volume-identifier header is.
fn put_vid_state(text: &mut String, vid: &VidRead) -> Result<(), AllocError>
    ensures { OnOk result (string_bytes text.new ≡ string_bytes text.old ++ vid_state vid.now) }
{
    match vid {
        VidRead::Blank => text.push_str("blank"),
        VidRead::Corrupt => text.push_str("corrupt"),
        VidRead::Fault(fault) => put_fault(text, fault.name()),
        VidRead::Valid(_) => text.push_str("valid"),
    }
}

/// Adds bytes as digits, and ends the line.
fn put_bytes(alloc: Global, text: &mut String, bytes: &[u8]) -> Result<(), AllocError>
    ensures { OnOk result (string_bytes text.new ≡ string_bytes text.old ++ (codes " " ++ encode_lower bytes.now ++ codes "\n")) }
{
    let digits = hex::encode(alloc, bytes)?;
    text.push_str(" ")?;
    text.push_str(digits.as_str())?;
    text.push_str("\n")
}

/// The lines of the bytes of two headers.
///
/// # Errors
///
/// Memory ran out.
pub fn header_text(
    alloc: Global,
    geometry: &Geometry,
    ec: &[u8; 64],
    vid: &[u8; 64],
) -> Result<String, AllocError>
    ensures { IfOk result (λ text. string_bytes text ≡ header_lines geometry.now ec.now vid.now) }
{
    let mut text = String::from_str(alloc, "ec ")?;
    put_ec_state(&mut text, &read_ec(geometry, ec))?;
    put_bytes(alloc, &mut text, ec)?;
    text.push_str("vid ")?;
    put_vid_state(&mut text, &read_vid(geometry, vid))?;
    put_bytes(alloc, &mut text, vid)?;
    Ok(text)
}
