//! Where an image lies in a source, and the geometries that its headers give.

ghost use Rattle.std.specs.List.{filter, fold};
ghost use Rattle.std.specs.Prelude.{◌≡◌, ℕ, ◌+◌, ◌-◌, ◌<◌, ◌≤◌, ◌^◌, ◌==◌, ◌&&◌, IfErr, IfOk, length, map, max, nat_lt, vec_len};
ghost use Rattle.ubi_detect.specs.Place.{end_of_image, end_of_last, has_vid, has_vote, start_of_image, told, told_by, told_ways, votes, ways_without};
ghost use Rattle.ubi_detect.specs.Detected.{Looks};
ghost use Rattle.ubi_scan.specs.Source.{WhereHeld};
ghost use Rattle.ubi_detect.specs.declared.way.Way.{Way};
ghost use Rattle.ubi_detect.specs.inner.Detecting.{AreWays, IsReadAt, IsReadError, LiesIn, is_most_voted};

use crate::at_places::number_at;
use crate::block_tests::{BlockTest, count_starts, some_start};
use crate::detect::{DetectError, Detected};
use crate::groups::Group;
use crate::way::Way;
use crate::ways::Ways;
use std::alloc::{AllocError, Global};
use ubi_media::VID_MAGIC;
use ubi_scan::BlockSource;

/// Whether the magic of a volume-identifier header stands in its place in an eraseblock.
#[derive(Drop)]
struct HasVid<'a> {
    way: &'a Way,
}

impl BlockTest for HasVid<'_> {
    ghost holds = { λ test bytes. has_vid bytes test.way.now };

    ghost reach = { λ _. 0 };

    fn holds<S: BlockSource>(&self, source: &mut S, at: u64) -> Result<bool, DetectError> {
        let vid = at + self.way.put(self.way.geometry.vid_offset());
        Ok(number_at(source, vid)? == VID_MAGIC)
    }
}

/// How many votes each of some ways has.
///
/// # Errors
///
/// `Read` if a read failed. `Memory` if memory ran out.
fn votes_of<S: BlockSource>(
    alloc: Global,
    source: &mut S,
    group: &Group,
    ways: &[Way],
) -> Result<Vec<u64>, DetectError>
    requires size { (S.known source.old).size < 2 ^ 63 }
    requires lies { LiesIn (S.known source.old).size group.now }
    ensures source { Looks S.BlockSource source.old source.new result }
    ensures many { IfOk result (λ counts. vec_len counts ≡ length ways.now) }
    ensures votes { IfOk result (λ counts. WhereHeld (S.agrees source.new) (λ bytes. counts.items ≡ map (votes bytes group.now) ways.now)) }
    ensures failed { IfErr result (IsReadError (S.known source.old).size) }
{
    let mut counts = Vec::new(alloc);
    for way in ways {
        let count = count_starts(source, group, &HasVid { way })?;
        counts.push(count)?;
    }
    Ok(counts)
}

/// The greatest of some numbers; 0 if there are none.
fn greatest(numbers: &[u64]) -> u64
    ensures { result ≡ fold max 0 numbers.now }
{
    let mut greatest = 0;
    for number in numbers {
        greatest = greatest.max(*number);
    }
    greatest
}

/// Whether this many votes are as many as the most, and at least one.
fn are_most(votes: u64, most: u64) -> bool
    ensures { result ≡ nat_lt 0 votes && (votes == most) }
{
    votes > 0 && votes == most
}

/// Those of some ways that have as many votes as the one with most, and at least one.
///
/// # Errors
///
/// Memory ran out.
fn most_voted(alloc: Global, ways: &[Way], votes: &[u64]) -> Result<Vec<Way>, AllocError>
    requires { length votes.now ≡ length ways.now }
    ensures { (f : Way → ℕ) → votes.now ≡ map f ways.now → IfOk result (λ voted. voted.items ≡ filter (is_most_voted f ways.now) ways.now) }
{
    let most = greatest(votes);
    let mut voted = Vec::new(alloc);
    for i in 0..ways.len() {
        let way = ways[i];
        if are_most(votes[i], most) {
            voted.push(way)?;
        }
    }
    Ok(voted)
}

/// Those of some ways for which a volume-identifier header stands at its place.
///
/// # Errors
///
/// `Read` if a read failed. `Memory` if memory ran out.
fn voted<S: BlockSource>(
    alloc: Global,
    source: &mut S,
    group: &Group,
    ways: &[Way],
) -> Result<Vec<Way>, DetectError>
    requires size { (S.known source.old).size < 2 ^ 63 }
    requires lies { LiesIn (S.known source.old).size group.now }
    ensures source { Looks S.BlockSource source.old source.new result }
    ensures voted { IfOk result (λ voted. WhereHeld (S.agrees source.new) (λ bytes. voted.items ≡ filter (has_vote bytes group.now) ways.now)) }
    ensures failed { IfErr result (IsReadError (S.known source.old).size) }
{
    let mut voted = Vec::new(alloc);
    for way in ways {
        if some_start(source, group, &HasVid { way })? {
            voted.push(*way)?;
        }
    }
    Ok(voted)
}

/// The ways that are found for the eraseblocks of a group, the least page first.
///
/// # Errors
///
/// `Read` if a read failed. `Memory` if memory ran out.
fn told_ways<S: BlockSource>(
    alloc: Global,
    source: &mut S,
    group: &Group,
    ways: &Ways,
) -> Result<Vec<Way>, DetectError>
    requires size { (S.known source.old).size < 2 ^ 63 }
    requires lies { LiesIn (S.known source.old).size group.now }
    requires ways { AreWays group.now ways.now }
    ensures source { Looks S.BlockSource source.old source.new result }
    ensures told { IfOk result (λ told. WhereHeld (S.agrees source.new) (λ bytes. told.items ≡ told_ways bytes group.now)) }
    ensures failed { IfErr result (IsReadError (S.known source.old).size) }
{
    if ways.with.is_empty() {
        return voted(alloc, source, group, ways.without.as_slice());
    }
    let with = votes_of(alloc, source, group, ways.with.as_slice())?;
    let without = votes_of(alloc, source, group, ways.without.as_slice())?;
    if greatest(with.as_slice()) < greatest(without.as_slice()) {
        return voted(alloc, source, group, ways.without.as_slice());
    }
    Ok(most_voted(alloc, ways.with.as_slice(), with.as_slice())?)
}

/// What is found for ways of an image that lies from one place to another.
///
/// # Errors
///
/// Memory ran out.
fn placed(alloc: Global, ways: &[Way], start: u64, end: u64) -> Result<Vec<Detected>, AllocError>
    requires { start ≤ end }
    ensures { IfOk result (λ found. found.items ≡ map (told_by start end) ways.now) }
{
    let mut found = Vec::new(alloc);
    for way in ways {
        found.push(Detected {
            geometry: way.geometry,
            oob: way.oob,
            start,
            length: end - start,
        })?;
    }
    Ok(found)
}

/// What is found for the image of a group: all whole eraseblocks of the source on the grid of its headers.
///
/// # Errors
///
/// `Read` if a read failed. `Memory` if memory ran out.
pub fn told<S: BlockSource>(
    alloc: Global,
    source: &mut S,
    group: &Group,
    ways: &Ways,
) -> Result<Vec<Detected>, DetectError>
    requires size { (S.known source.old).size < 2 ^ 63 }
    requires lies { LiesIn (S.known source.old).size group.now }
    requires whole { end_of_last group.now ≤ (S.known source.old).size }
    requires ways { AreWays group.now ways.now }
    ensures source { Looks S.BlockSource source.old source.new result }
    ensures told { IfOk result (λ found. WhereHeld (S.agrees source.new) (λ bytes. found.items ≡ told bytes group.now)) }
    ensures failed { IfErr result (IsReadError (S.known source.old).size) }
{
    let start = group.start_of_image();
    let len = source.len();
    let end = len - (len - start) % group.size;
    let ways = told_ways(alloc, source, group, ways)?;
    Ok(placed(alloc, ways.as_slice(), start, end)?)
}
