//! Writing volumes of a meaning.

ghost use Rattle.std.specs.FinMap as finite;
ghost use Rattle.std.specs.Io.KnownBytes.{Appends};
ghost use Rattle.std.specs.Option.{option_copied};
ghost use Rattle.std.specs.Prelude.{◌≡◌, ℕ, ◌<◌, IfErr, IfOk, IfSome, OnOk, Ok, length, take};
ghost use Rattle.ubi_media.specs.Fields.{blank};
ghost use Rattle.ubi_volume.specs.Reading.{IsReadError, leb_text, lebs_text, read_volume};
ghost use Rattle.ubi_volume.specs.Writing.{IsNotWritten, IsWritten};

use crate::content::{Bytes, Content, Lebs};
use crate::errors::ReadError;
use crate::meaning::Meaning;
use crate::read::volume_of;
use std::alloc::Global;
use std::io::Write;

/// Writes what a logical eraseblock of a dynamic volume reads, by what is kept of it.
///
/// # Errors
///
/// How many bytes were written before a write failed.
fn write_leb<W: Write>(writer: &mut W, size: u32, kept: Option<&Bytes>) -> Result<(), usize>
    requires { IfSome kept (λ text. length text.now ≡ size) }
    ensures ok { OnOk result (Appends (W.contents writer.old) (W.contents writer.new) (leb_text size (option_copied kept.entry))) }
    ensures err { IfErr result (λ n. Appends (W.contents writer.old) (W.contents writer.new) (take n (leb_text size (option_copied kept.entry)))) }
    ensures short { IfErr result (λ n. n < size) }
{
    match kept {
        Some(text) => write_all(writer, text.as_slice()),
        None => write_blank(writer, size as usize),
    }
}

/// Writes what a dynamic volume reads, and returns how many bytes that is.
///
/// # Errors
///
/// How many bytes were written before a write failed.
fn write_lebs<W: Write>(writer: &mut W, lebs: &Lebs, reserved: u32, size: u32) -> Result<u64, u64>
    requires { (lnum : ℕ) → IfSome (finite.get lebs.now lnum) (λ text. length text ≡ size) }
    ensures ok { OnOk result (Appends (W.contents writer.old) (W.contents writer.new) (lebs_text size lebs.now reserved)) }
    ensures count { IfOk result (λ n. n ≡ length (lebs_text size lebs.now reserved)) }
    ensures err { IfErr result (λ n. Appends (W.contents writer.old) (W.contents writer.new) (take n (lebs_text size lebs.now reserved))) }
    ensures short { IfErr result (λ n. n < length (lebs_text size lebs.now reserved)) }
{
    for lnum in 0..reserved {
        match write_leb(writer, size, lebs.get(lnum)) {
            Ok(()) => {}
            Err(more) => return Err(u64::from(lnum) * u64::from(size) + more as u64),
        }
    }
    Ok(u64::from(reserved) * u64::from(size))
}

/// Writes what a volume reads, and returns how many bytes that is. It allocates no memory of its own.
///
/// # Errors
///
/// The first of these that applies: `NoVolume`, `Updating`, `Damaged`; then nothing is written. `Write` if a write
/// failed, with how many bytes were written before. No write is tried again.
pub fn write_volume<W: Write>(meaning: &Meaning, id: u32, writer: &mut W) -> Result<u64, ReadError>
    ensures written { IfOk result (IsWritten meaning.now id (W.contents writer.old) (W.contents writer.new)) }
    ensures refused { IfErr result (IsNotWritten meaning.now id (W.contents writer.old) (W.contents writer.new)) }
{
    let volume = volume_of(meaning, id)?;
    match &volume.content {
        Content::Updating => Err(ReadError::Updating),
        Content::Damaged => Err(ReadError::Damaged),
        Content::Static(text) => match write_all(writer, text.as_slice()) {
            Ok(()) => Ok(text.as_slice().len() as u64),
            Err(written) => Err(ReadError::Write(written as u64)),
        },
        Content::Dynamic(lebs) => {
            let size = volume.entry.usable(&meaning.geometry());
            write_lebs(writer, lebs, volume.entry.reserved, size).map_err(ReadError::Write)
        }
    }
}

/// What a volume reads.
///
/// # Errors
///
/// The first of these that applies: `NoVolume`, `Updating`, `Damaged`. `Memory` if none does and memory ran out.
pub fn read_volume(alloc: Global, meaning: &Meaning, id: u32) -> Result<Vec<u8>, ReadError>
    ensures read { IfOk result (λ text. read_volume meaning.now id ≡ Ok text.items) }
    ensures refused { IfErr result (IsReadError meaning.now id) }
{
    let mut text = Vec::new(alloc);
    match write_volume(meaning, id, &mut text) {
        Ok(_) => Ok(text),
        // A vector takes all bytes, unless it can't grow.
        Err(ReadError::Write(_)) => Err(ReadError::Memory),
        Err(refused) => Err(refused),
    }
}

/// Bytes 0xFF, as many as are written at once.
const BLANK: [u8; 4096] = [0xFF; 4096];

/// Writes all of the bytes.
///
/// # Errors
///
/// How many bytes were written before a write failed: with an error of any kind, or by taking nothing. No write is
/// tried again.
pub fn write_all<W: Write>(writer: &mut W, bytes: &[u8]) -> Result<(), usize>
    ensures ok { OnOk result (Appends (W.contents writer.old) (W.contents writer.new) bytes.now) }
    ensures err { IfErr result (λ n. Appends (W.contents writer.old) (W.contents writer.new) (take n bytes.now)) }
    ensures short { IfErr result (λ n. n < length bytes.now) }
{
    let mut written = 0;
    while written < bytes.len() {
        match writer.write(&bytes[written..]) {
            Ok(0) | Err(_) => return Err(written),
            Ok(count) => written += count,
        }
    }
    Ok(())
}

/// Writes `len` bytes 0xFF.
///
/// # Errors
///
/// As [`write_all`].
fn write_blank<W: Write>(writer: &mut W, len: usize) -> Result<(), usize>
    ensures ok { OnOk result (Appends (W.contents writer.old) (W.contents writer.new) (blank len)) }
    ensures err { IfErr result (λ n. Appends (W.contents writer.old) (W.contents writer.new) (blank n)) }
    ensures short { IfErr result (λ n. n < len) }
{
    let mut written = 0;
    while written < len {
        let count = BLANK.len().min(len - written);
        match write_all(writer, &BLANK[..count]) {
            Ok(()) => written += count,
            Err(more) => return Err(written + more),
        }
    }
    Ok(())
}
