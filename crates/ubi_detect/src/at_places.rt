//! What stands at single places of a source, and at the places of the eraseblocks of a group.

ghost use Rattle.std.specs.List.{list_all};
ghost use Rattle.std.specs.Prelude.{◌≡◌, ◌+◌, ◌<◌, ◌≤◌, ◌^◌, ◌==◌, IfErr, IfOk, IsTrue, length, nat_le, slice_range};
ghost use Rattle.ubi_detect.specs.Heads.{key_at};
ghost use Rattle.ubi_detect.specs.Detected.{Looks};
ghost use Rattle.ubi_scan.specs.Source.{WhereHeld};
ghost use Rattle.ubi_detect.specs.Sure.{all_are, is_start, number_at};
ghost use Rattle.ubi_detect.specs.inner.Detecting.{IsReadAt};

use crate::detect::DetectError;
use crate::groups::Group;
use crate::heads::{Key, key_in};
use byteorder::{BigEndian, ByteOrder};
use ubi_scan::BlockSource;

/// Fills `out` with the bytes at a place of a source, if all of them are there, and says whether they are.
///
/// # Errors
///
/// `Read` if the read failed.
pub fn read_there<S: BlockSource>(
    source: &mut S,
    at: u64,
    out: &mut [u8],
) -> Result<bool, DetectError>
    requires size { (S.known source.old).size < 2 ^ 63 }
    requires some { 1 ≤ length out.old }
    ensures source { Looks S.BlockSource source.old source.new result }
    ensures there { IfOk result (λ there. WhereHeld (S.agrees source.new) (λ bytes. there ≡ nat_le (at + length out.old) (length bytes))) }
    ensures bytes { IfOk result (λ there. IsTrue there → WhereHeld (S.agrees source.new) (λ bytes. out.new ≡ slice_range bytes at (at + length out.old))) }
    ensures failed { IfErr result (IsReadAt (S.known source.old).size) }
{
    if at.saturating_add(out.len() as u64) > source.len() {
        return Ok(false);
    }
    match source.read(at, out) {
        Ok(()) => Ok(true),
        Err(_) => Err(DetectError::Read(at)),
    }
}

/// Whether bytes are all `byte`.
fn are_all(bytes: &[u8], byte: u8) -> bool
    ensures { result ≡ list_all (λ x. x == byte) bytes.now }
{
    bytes.iter().all(|b| *b == byte)
}

/// Whether the `count` bytes at a place of a source are there, and all `byte`.
///
/// # Errors
///
/// `Read` if the read failed.
pub fn all_are<S: BlockSource>(
    source: &mut S,
    byte: u8,
    count: usize,
    at: u64,
) -> Result<bool, DetectError>
    requires size { (S.known source.old).size < 2 ^ 63 }
    requires some { 1 ≤ count }
    requires few { count ≤ 192 }
    ensures source { Looks S.BlockSource source.old source.new result }
    ensures are { IfOk result (λ are. WhereHeld (S.agrees source.new) (λ bytes. are ≡ all_are byte count bytes at)) }
    ensures failed { IfErr result (IsReadAt (S.known source.old).size) }
{
    let mut bytes = [0u8; 192];
    let out = &mut bytes[..count];
    if read_there(source, at, out)? {
        Ok(are_all(out, byte))
    } else {
        Ok(false)
    }
}

/// The number in the four bytes at a place of a source; 0 if they aren't there.
///
/// # Errors
///
/// `Read` if the read failed.
pub fn number_at<S: BlockSource>(source: &mut S, at: u64) -> Result<u32, DetectError>
    requires { (S.known source.old).size < 2 ^ 63 }
    ensures source { Looks S.BlockSource source.old source.new result }
    ensures is { IfOk result (λ number. WhereHeld (S.agrees source.new) (λ bytes. number ≡ number_at bytes at)) }
    ensures failed { IfErr result (IsReadAt (S.known source.old).size) }
{
    let mut bytes = [0u8; 4];
    if read_there(source, at, &mut bytes)? {
        Ok(BigEndian::read_u32(&bytes))
    } else {
        Ok(0)
    }
}

/// What the header at a place of a source names, if one stands there.
///
/// # Errors
///
/// `Read` if the read failed.
pub fn key_at<S: BlockSource>(source: &mut S, at: u64) -> Result<Option<Key>, DetectError>
    requires { at + 64 ≤ (S.known source.old).size }
    ensures source { Looks S.BlockSource source.old source.new result }
    ensures key { IfOk result (λ key. WhereHeld (S.agrees source.new) (λ bytes. key ≡ key_at bytes at)) }
    ensures failed { IfErr result (IsReadAt (S.known source.old).size) }
{
    let mut bytes = [0u8; 64];
    match source.read(at, &mut bytes) {
        Ok(()) => Ok(key_in(&bytes)),
        Err(_) => Err(DetectError::Read(at)),
    }
}

/// Whether an eraseblock that begins at a place of a source starts with a header of a group.
///
/// # Errors
///
/// `Read` if the read failed.
pub fn is_start<S: BlockSource>(source: &mut S, group: &Group, at: u64) -> Result<bool, DetectError>
    requires { (S.known source.old).size < 2 ^ 63 }
    ensures source { Looks S.BlockSource source.old source.new result }
    ensures is { IfOk result (λ is. WhereHeld (S.agrees source.new) (λ bytes. is ≡ is_start bytes group.now at)) }
    ensures failed { IfErr result (IsReadAt (S.known source.old).size) }
{
    let mut bytes = [0u8; 64];
    if !read_there(source, at, &mut bytes)? {
        return Ok(false);
    }
    match key_in(&bytes) {
        Some(key) => Ok(group.key.owns(&key)),
        None => Ok(false),
    }
}
