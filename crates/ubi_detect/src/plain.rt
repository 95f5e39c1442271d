//! Sources that are plainly an image, as whole dumps are: their first two eraseblocks are read, and the first 64 bytes of each.

ghost use Rattle.std.specs.Prelude.{◌≡◌, ℕ, ◌*◌, ◌+◌, ◌/◌, ◌%◌, ◌<◌, ◌≤◌, ◌^◌, IfErr, IfOk, IfSome, MatchOption, Some};
ghost use Rattle.ubi_detect.specs.Heads.{key_at, step};
ghost use Rattle.ubi_detect.specs.Place.{end_of_last};
ghost use Rattle.ubi_detect.specs.Plain.{IsPlain};
ghost use Rattle.ubi_detect.specs.Detected.{Looks};
ghost use Rattle.ubi_scan.specs.Source.{WhereHeld};
ghost use Rattle.ubi_detect.specs.declared.groups.Group.{Group};
ghost use Rattle.ubi_detect.specs.inner.Detecting.{IsReadAt, LiesIn};
ghost use Rattle.ubi_detect.specs.inner.Joined.{AreJoined, IsCut, IsFirstHead, IsPlainSize, NoHeads, NoneJoined, NotPlain};

use crate::at_places::key_at;
use crate::detect::DetectError;
use crate::groups::{GREATEST_SIZE, Group};
use crate::heads::{Key, STEP};
use ubi_scan::BlockSource;

/// The first unit of 64 bytes from one on and before another in which a header stands, if there is one.
///
/// # Errors
///
/// `Read` if a read failed.
fn first_head<S: BlockSource>(
    source: &mut S,
    from: u64,
    to: u64,
) -> Result<Option<u64>, DetectError>
    requires size { (S.known source.old).size < 2 ^ 63 }
    requires to { to ≤ (S.known source.old).size / step }
    ensures source { Looks S.BlockSource source.old source.new result }
    ensures inside { IfOk result (λ o. IfSome o (λ u. (from ≤ u) × (u < to))) }
    ensures first { IfOk result (λ o. MatchOption o (WhereHeld (S.agrees source.new) (λ bytes. NoHeads bytes from to)) (λ u. WhereHeld (S.agrees source.new) (λ bytes. IsFirstHead bytes from to u))) }
    ensures failed { IfErr result (IsReadAt (S.known source.old).size) }
{
    for u in from..to {
        if key_at(source, u * STEP)?.is_some() {
            return Ok(Some(u));
        }
    }
    Ok(None)
}

/// The key of the group to which the headers of `count` eraseblocks belong, if there is one; the first header names `first`.
///
/// # Errors
///
/// `Read` if a read failed.
fn joined_key<S: BlockSource>(
    source: &mut S,
    first: Key,
    size: u64,
    count: u64,
) -> Result<Option<Key>, DetectError>
    requires size { (S.known source.old).size < 2 ^ 63 }
    requires some { 1 ≤ count }
    requires step { step ≤ size }
    requires inside { count * size ≤ (S.known source.old).size }
    requires first { WhereHeld (S.agrees source.old) (λ bytes. key_at bytes 0 ≡ Some first) }
    ensures source { Looks S.BlockSource source.old source.new result }
    ensures joined { IfOk result (λ o. MatchOption o (WhereHeld (S.agrees source.new) (λ bytes. NoneJoined bytes size count)) (λ key. WhereHeld (S.agrees source.new) (λ bytes. AreJoined bytes size count key))) }
    ensures failed { IfErr result (IsReadAt (S.known source.old).size) }
{
    let mut key = first;
    for i in 1..count {
        let Some(next) = key_at(source, i * size)? else {
            return Ok(None);
        };
        let Some(joined) = key.joined(&next) else {
            return Ok(None);
        };
        key = joined;
    }
    Ok(Some(key))
}

/// The size of the eraseblocks of a source that may plainly be an image, if it may.
///
/// # Errors
///
/// `Read` if a read failed.
fn plain_size<S: BlockSource>(source: &mut S) -> Result<Option<u64>, DetectError>
    requires size { (S.known source.old).size < 2 ^ 63 }
    requires two { 2 * step ≤ (S.known source.old).size }
    ensures source { Looks S.BlockSource source.old source.new result }
    ensures plain { IfOk result (λ o. MatchOption o (WhereHeld (S.agrees source.new) NotPlain) (λ q. WhereHeld (S.agrees source.new) (λ bytes. IsPlainSize bytes q))) }
    ensures size { IfOk result (λ o. IfSome o (IsCut (S.known source.old).size)) }
    ensures failed { IfErr result (IsReadAt (S.known source.old).size) }
{
    let len = source.len();
    let most = (len / 2).min(GREATEST_SIZE) / STEP + 1;
    let Some(unit) = first_head(source, 1, most)? else {
        return Ok(None);
    };
    if len % (unit * STEP) != 0 {
        return Ok(None);
    }
    match first_head(source, unit + 1, 2 * unit)? {
        Some(_) => Ok(None),
        None => Ok(Some(unit * STEP)),
    }
}

/// The group of a source that is plainly an image, apart from what its eraseblocks hold, if it is.
///
/// # Errors
///
/// `Read` if a read failed.
pub fn read_plain<S: BlockSource>(source: &mut S) -> Result<Option<Group>, DetectError>
    requires { (S.known source.old).size < 2 ^ 63 }
    ensures source { Looks S.BlockSource source.old source.new result }
    ensures plain { IfOk result (λ o. MatchOption o (WhereHeld (S.agrees source.new) NotPlain) (λ g. WhereHeld (S.agrees source.new) (λ bytes. IsPlain bytes g))) }
    ensures lies { IfOk result (λ o. IfSome o (LiesIn (S.known source.old).size)) }
    ensures whole { IfOk result (λ o. IfSome o (λ g. end_of_last g ≤ (S.known source.old).size)) }
    ensures failed { IfErr result (IsReadAt (S.known source.old).size) }
{
    let len = source.len();
    if len < 2 * STEP {
        return Ok(None);
    }
    let Some(first) = key_at(source, 0)? else {
        return Ok(None);
    };
    let Some(size) = plain_size(source)? else {
        return Ok(None);
    };
    let count = len / size;
    let Some(key) = joined_key(source, first, size, count)? else {
        return Ok(None);
    };
    Ok(Some(Group {
        key,
        first: 0,
        last: len - size,
        count,
        size,
    }))
}
