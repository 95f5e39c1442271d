//! A letter for each eraseblock, in rows of 64.

ghost use Rattle.std.specs.Prelude.{◌≡◌, ◌++◌, ◌<◌, ◌*◌, ◌^◌, IfOk, OnOk, string_bytes};
ghost use Rattle.ubi_map.specs.Letters.{aligned, header_letter, row, rows, state_letter, state_letters};

use itoa::Buffer;
use std::alloc::{AllocError, Global};
use ubi_media::{EcRead, LAYOUT_VOLUME, VidRead};
use ubi_volume::BlockState;

/// How many eraseblocks stand in a row.
const ROW: usize = 64;

/// What stands before a number, by how many digits it lacks of seven.
const BLANKS: &str = "       ";

/// The letter of a state.
fn state_letter(state: BlockState) -> &'static str
    ensures { result.now ≡ state_letter state }
{
    match state {
        BlockState::Blank => "b",
        BlockState::Free => "f",
        BlockState::Garbage => "g",
        BlockState::Corrupt => "c",
        BlockState::Dropped => "d",
        BlockState::Orphan => "o",
        BlockState::Table => "t",
        BlockState::Used => "u",
        BlockState::Stale => "s",
    }
}

/// A letter for each state.
///
/// # Errors
///
/// Memory ran out.
pub fn state_letters(alloc: Global, states: &[BlockState]) -> Result<String, AllocError>
    ensures { IfOk result (λ letters. string_bytes letters ≡ state_letters states.now) }
{
    let mut letters = String::new(alloc);
    for state in states {
        letters.push_str(state_letter(*state))?;
    }
    Ok(letters)
}

/// The letter of an eraseblock by its headers alone: `!` if one is at fault, `v` if it is a volume's and `t` if it is the table's,
/// `c` if one is corrupt, `b` if both are blank, and `f` if it has only an erase counter.
pub(crate) fn header_letter(ec: &EcRead, vid: &VidRead) -> &'static str
    ensures { result.now ≡ header_letter ec.now vid.now }
{
    match (ec, vid) {
        (EcRead::Fault(_), _) | (_, VidRead::Fault(_)) => "!",
        (_, VidRead::Valid(header)) if header.vol_id == LAYOUT_VOLUME => "t",
        (_, VidRead::Valid(_)) => "v",
        (EcRead::Corrupt, _) | (_, VidRead::Corrupt) => "c",
        (EcRead::Blank, VidRead::Blank) => "b",
        (EcRead::Valid(_), VidRead::Blank) => "f",
    }
}

/// Adds a number, after as many blanks as it lacks of seven digits.
fn put_aligned(text: &mut Vec<u8>, number: u64) -> Result<(), AllocError>
    ensures { OnOk result (text.new.items ≡ text.old.items ++ aligned number) }
{
    let mut buffer = Buffer::new();
    let digits = buffer.format(number);
    let blanks = digits.len().min(BLANKS.len());
    text.extend_from_slice(&BLANKS.as_bytes()[blanks..])?;
    text.extend_from_slice(digits.as_bytes())?;
    Ok(())
}

/// Adds a row: the number of the first eraseblock, and then its letters.
fn put_row(text: &mut Vec<u8>, letters: &[u8], k: usize) -> Result<(), AllocError>
    requires { k * 64 < 2 ^ 63 }
    ensures { OnOk result (text.new.items ≡ text.old.items ++ row letters.now k) }
{
    let first = (ROW * k).min(letters.len());
    let rest = &letters[first..];
    let last = ROW.min(rest.len());
    put_aligned(text, (ROW * k) as u64)?;
    text.push(b' ')?;
    text.extend_from_slice(&rest[..last])?;
    text.push(b'\n')?;
    Ok(())
}

/// Adds the rows of letters, each after the number of its first eraseblock.
///
/// # Errors
///
/// Memory ran out.
pub fn put_rows(text: &mut Vec<u8>, letters: &[u8]) -> Result<(), AllocError>
    ensures { OnOk result (text.new.items ≡ text.old.items ++ rows letters.now) }
{
    for k in 0..letters.len().div_ceil(ROW) {
        put_row(text, letters, k)?;
    }
    Ok(())
}
