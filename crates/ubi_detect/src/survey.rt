//! The headers of a source, which is read once, from its beginning to its end.

ghost use Rattle.std.specs.List.{All};
ghost use Rattle.std.specs.Prelude.{◌≡◌, ℕ, ◌+◌, ◌-◌, ◌++◌, ◌/◌, ◌%◌, ◌<◌, ◌≤◌, ◌^◌, IfErr, IfOk, IfSome, IsTrue, List, MatchOption, OnOk, length, min, slice_range, vec_len};
ghost use Rattle.ubi_detect.specs.Heads.{heads_of, heads_to, key_count, most_keys, step};
ghost use Rattle.ubi_detect.specs.Detected.{Looks};
ghost use Rattle.ubi_scan.specs.Source.{WhereHeld};
ghost use Rattle.ubi_detect.specs.declared.heads.Head.{Head};
ghost use Rattle.ubi_detect.specs.Groups.{AreGroups};
ghost use Rattle.ubi_detect.specs.inner.Detecting.{AreGroupsIf, IsReadError, IsWithin, head_in};

use crate::detect::DetectError;
use crate::groups::{Group, MOST_KEYS, add_head};
use crate::heads::{Head, STEP, key_within};
use std::alloc::{AllocError, Global};
use ubi_scan::BlockSource;

/// How many bytes are read at once.
const WINDOW: usize = 65_536;

/// Adds the header that 64 bytes of some bytes are, if they are one; they stand at a place of their file.
fn add_unit(groups: &mut Vec<Group>, place: u64, bytes: &[u8], at: usize) -> Result<(), AllocError>
    requires inside { at + 64 ≤ length bytes.now }
    requires place { place < 2 ^ 63 }
    requires within { All (IsWithin (place / step)) groups.old.items }
    ensures groups { (heads : List Head) → AreGroups heads groups.old.items → OnOk result (AreGroups (heads ++ head_in place (slice_range bytes.now at (at + 64))) groups.new.items) }
    ensures within { place % step ≡ 0 → OnOk result (All (IsWithin (place / step + 1)) groups.new.items) }
{
    match key_within(bytes, at) {
        Some(key) => add_head(groups, &Head { place, key }),
        None => Ok(()),
    }
}

/// Adds the headers in some bytes, which begin at a place of their file, until there are too many groups. Returns whether there are few.
fn add_heads(groups: &mut Vec<Group>, place: u64, bytes: &[u8]) -> Result<bool, AllocError>
    requires place { place % step ≡ 0 }
    requires end { place + length bytes.now < 2 ^ 63 }
    requires within { All (IsWithin (place / step)) groups.old.items }
    requires few { vec_len groups.old ≤ most_keys }
    ensures groups { (all : List ℕ) → slice_range all place (place + length bytes.now) ≡ bytes.now → AreGroups (heads_to all (place / step)) groups.old.items → IfOk result (AreGroupsIf (heads_to all (place / step + length bytes.now / step)) groups.new.items) }
    ensures within { IfOk result (λ few. IsTrue few → All (IsWithin (place / step + length bytes.now / step)) groups.new.items) }
    ensures few { IfOk result (λ few. IsTrue few → vec_len groups.new ≤ most_keys) }
{
    for i in 0..bytes.len() / STEP as usize {
        let at = i * STEP as usize;
        add_unit(groups, place + at as u64, bytes, at)?;
        if groups.len() > MOST_KEYS {
            return Ok(false);
        }
    }
    Ok(true)
}

/// Adds the headers in the bytes of a source from a place on, as many as fit in a window, until there are too many groups. Returns
/// whether there are few.
///
/// # Errors
///
/// `Read` if the read failed, `Memory` if memory ran out.
fn add_window<S: BlockSource>(
    source: &mut S,
    groups: &mut Vec<Group>,
    window: &mut [u8],
    at: u64,
) -> Result<bool, DetectError>
    requires size { (S.known source.old).size < 2 ^ 63 }
    requires place { at % step ≡ 0 }
    requires inside { at < (S.known source.old).size }
    requires within { All (IsWithin (at / step)) groups.old.items }
    requires few { vec_len groups.old ≤ most_keys }
    ensures window { length window.new ≡ length window.old }
    ensures source { Looks S.BlockSource source.old source.new result }
    ensures groups { IfOk result (λ few. WhereHeld (S.agrees source.new) (λ bytes. AreGroups (heads_to bytes (at / step)) groups.old.items → AreGroupsIf (heads_to bytes (at / step + min ((S.known source.old).size - at) (length window.old) / step)) groups.new.items few)) }
    ensures within { IfOk result (λ few. IsTrue few → All (IsWithin (at / step + min ((S.known source.old).size - at) (length window.old) / step)) groups.new.items) }
    ensures few { IfOk result (λ few. IsTrue few → vec_len groups.new ≤ most_keys) }
    ensures failed { IfErr result (IsReadError (S.known source.old).size) }
{
    let count = (source.len() - at).min(window.len() as u64) as usize;
    let bytes = &mut window[..count];
    match source.read(at, bytes) {
        Ok(()) => Ok(add_heads(groups, at, bytes)?),
        Err(_) => Err(DetectError::Read(at)),
    }
}

/// `count` zeros.
fn zeros(alloc: Global, count: usize) -> Result<Vec<u8>, AllocError>
    ensures { IfOk result (λ zeros. vec_len zeros ≡ count) }
{
    Vec::from_elem(alloc, 0u8, count)
}

/// The groups of the headers of a source, if there are few. It is read only until there are too many.
///
/// # Errors
///
/// `Read` if a read failed. `Memory` if memory ran out: it takes 64 KiB, and at most 24 KiB for the groups, or 36 while they move.
pub fn read_groups<S: BlockSource>(
    alloc: Global,
    source: &mut S,
) -> Result<Option<Vec<Group>>, DetectError>
    requires size { (S.known source.old).size < 2 ^ 63 }
    ensures source { Looks S.BlockSource source.old source.new result }
    ensures groups { IfOk result (λ o. MatchOption o (WhereHeld (S.agrees source.new) (λ bytes. most_keys < key_count bytes)) (λ groups. WhereHeld (S.agrees source.new) (λ bytes. AreGroups (heads_of bytes) groups.items))) }
    ensures within { IfOk result (λ o. IfSome o (λ groups. All (IsWithin ((S.known source.old).size / step)) groups.items)) }
    ensures few { IfOk result (λ o. IfSome o (λ groups. vec_len groups ≤ most_keys)) }
    ensures failed { IfErr result (IsReadError (S.known source.old).size) }
{
    let mut groups = Vec::new(alloc);
    let mut window = zeros(alloc, WINDOW)?;
    for i in 0..source.len().div_ceil(WINDOW as u64) {
        let at = i * WINDOW as u64;
        if !add_window(source, &mut groups, window.as_mut_slice(), at)? {
            return Ok(None);
        }
    }
    Ok(Some(groups))
}
