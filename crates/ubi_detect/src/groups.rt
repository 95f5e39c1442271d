//! Headers that are of one image, and what they say about the size of its eraseblocks.

ghost use Rattle.std.specs.Int.{IsGcd};
ghost use Rattle.std.specs.List.{All};
ghost use Rattle.std.specs.Prelude.{◌≡◌, ◌+◌, ◌*◌, ◌<◌, ◌≤◌, ◌^◌, ◌/◌, ◌%◌, ◌++◌, ◌&&◌, ◌∷◌, [], false, IfSome, List, MatchOption, OnOk, ℕ};
ghost use Rattle.ubi_detect.specs.Groups.{IsImage};
ghost use Rattle.ubi_detect.specs.Heads.{step};
ghost use Rattle.ubi_detect.specs.declared.heads.Head.{Head};
ghost use Rattle.ubi_detect.specs.Groups.{AreGroups, are_unnumbered, IsGroup, greatest_size, says_size, speaks_among, spoken};
ghost use Rattle.ubi_detect.specs.inner.Detecting.{AreAdded, AreReady, IsAdded, IsWithin, first_with, group_with, has_key, speaks_for_more};

use crate::heads::{Head, Key};
use std::alloc::AllocError;

/// How many bytes an eraseblock has at most.
pub const GREATEST_SIZE: u64 = 16_777_216;

/// How many keys the headers of a file that isn't plainly an image name at most.
pub const MOST_KEYS: usize = 256;

/// The headers of a file that name one key, or the same offsets and no number. It takes the same memory, however many there are.
#[derive(Clone, Copy)]
pub struct Group {
    /// What they name.
    pub key: Key,
    /// Where the first of them begins.
    pub first: u64,
    /// Where the last one begins.
    pub last: u64,
    /// How many there are.
    pub count: u64,
    /// The greatest common divisor of the distances between them: the size of an eraseblock in bytes. 0 for one header or none.
    pub size: u64,
}

/// The greatest common divisor of two numbers.
fn gcd(a: u64, b: u64) -> u64
    ensures { IsGcd a b result }
{
    let (mut x, mut y) = (a, b);
    while y != 0 {
        let rest = x % y;
        x = y;
        y = rest;
    }
    x
}

impl Group {
    /// A group to which no header belongs yet.
    fn empty(key: Key) -> Group
        ensures group { IsGroup [] result }
        ensures within { IsWithin 0 result }
        ensures key { result.key ≡ key }
    {
        Group {
            key,
            first: 0,
            last: 0,
            count: 0,
            size: 0,
        }
    }

    /// Where its first header begins once one at a place is added.
    fn first_with(&self, place: u64) -> u64
        ensures { result ≡ first_with place self.now }
    {
        if self.count == 0 { place } else { self.first }
    }

    /// Adds a header, if it belongs to the group.
    fn add(&mut self, head: &Head)
        requires { self.old.count < 2 ^ 63 }
        ensures { IsAdded head.now self.old self.new }
    {
        if !self.key.owns(&head.key) {
            return;
        }
        let first = self.first_with(head.place);
        let size = gcd(self.size, head.place.saturating_sub(first));
        *self = Group {
            key: self.key,
            first,
            last: head.place,
            count: self.count + 1,
            size,
        };
    }
}

/// Whether a header of a key is among those of groups.
fn has_key(groups: &[Group], key: &Key) -> bool
    ensures { result ≡ has_key groups.now key.now }
{
    groups.iter().any(|group| key.is_same(&group.key))
}

/// The group of a key, if there is one.
fn group_with(groups: &[Group], key: &Key) -> Option<Group>
    ensures { result ≡ group_with groups.now key.now }
{
    groups.iter().copied().find(|group| key.is_same(&group.key))
}

/// The group of a key that no header has named yet: headers with its offsets and no number belong to it.
fn new_group(groups: &[Group], key: &Key) -> Group
    ensures key { result.key ≡ key.now }
    ensures group { (heads : List Head) → AreGroups heads groups.now → has_key groups.now key.now ≡ false → IsGroup heads result }
    ensures within { (n : ℕ) → All (IsWithin n) groups.now → IsWithin n result }
{
    let unnumbered = Key {
        image_seq: 0,
        ..*key
    };
    match group_with(groups, &unnumbered) {
        Some(group) => Group { key: *key, ..group },
        None => Group::empty(*key),
    }
}

/// Adds a header to the groups to which it belongs, after that of its key.
fn add_to_each(groups: &mut [Group], head: &Head)
    requires { All (λ g. g.count < 2 ^ 63) groups.old }
    ensures { AreAdded head.now groups.old groups.new }
{
    for i in 0..groups.len() {
        groups[i].add(head);
    }
}

/// Adds the group of a key, if there is none.
///
/// # Errors
///
/// Memory ran out.
fn have_group(groups: &mut Vec<Group>, key: &Key) -> Result<(), AllocError>
    ensures groups { (heads : List Head) → AreGroups heads groups.old.items → OnOk result (AreReady heads key.now groups.new.items) }
    ensures within { (n : ℕ) → All (IsWithin n) groups.old.items → OnOk result (All (IsWithin n) groups.new.items) }
{
    if has_key(groups.as_slice(), key) {
        return Ok(());
    }
    let group = new_group(groups.as_slice(), key);
    groups.push(group)?;
    Ok(())
}

/// Adds a header that comes after all that were added before.
///
/// # Errors
///
/// Memory ran out.
pub fn add_head(groups: &mut Vec<Group>, head: &Head) -> Result<(), AllocError>
    requires within { All (IsWithin (head.now.place / step)) groups.old.items }
    requires place { head.now.place < 2 ^ 63 }
    ensures groups { (heads : List Head) → AreGroups heads groups.old.items → OnOk result (AreGroups (heads ++ head.now ∷ []) groups.new.items) }
    ensures within { head.now.place % step ≡ 0 → OnOk result (All (IsWithin (head.now.place / step + 1)) groups.new.items) }
{
    have_group(groups, &head.key)?;
    add_to_each(groups.as_mut_slice(), head);
    Ok(())
}

/// Whether no header with the offsets of a key has a number.
fn are_unnumbered(groups: &[Group], key: &Key) -> bool
    ensures { result ≡ are_unnumbered groups.now key.now }
{
    groups.iter().all(|group| key.is_unnumbered_by(&group.key))
}

/// Whether a group speaks for an image: it has a number, or none with its offsets has.
fn speaks(groups: &[Group], key: &Key) -> bool
    ensures { result ≡ speaks_among groups.now key.now }
{
    key.image_seq != 0 || are_unnumbered(groups, key)
}

/// Whether a group says a size: it speaks, has two headers or more, and the size is one that an eraseblock may have.
pub fn says_size(groups: &[Group], group: &Group) -> bool
    ensures { result ≡ says_size groups.now group.now }
{
    group.count >= 2 && group.size >= 1 && group.size <= GREATEST_SIZE && speaks(groups, &group.key)
}

impl Group {
    /// How many bytes it speaks for: those of an eraseblock for each header but the last.
    fn spoken(&self) -> u128
        ensures { result ≡ spoken self.now }
    {
        u128::from(self.count.saturating_sub(1)) * u128::from(self.size)
    }

    /// Whether it speaks for more bytes than another group, if there is one.
    fn beats(&self, other: &Option<Group>) -> bool
        ensures { result ≡ speaks_for_more self.now other.now }
    {
        match other {
            Some(group) => group.spoken() < self.spoken(),
            None => true,
        }
    }
}

/// Whether a group says a size, and speaks for more bytes than another group, if there is one.
fn is_better(groups: &[Group], group: &Group, best: &Option<Group>) -> bool
    ensures { result ≡ says_size groups.now group.now && speaks_for_more group.now best.now }
{
    says_size(groups, group) && group.beats(best)
}

/// The group of the image of a file, out of the groups of its headers: the one that speaks for the most bytes; if several do, the first.
pub fn image_among(groups: &[Group]) -> Option<Group>
    ensures within { (n : ℕ) → All (IsWithin n) groups.now → IfSome result (IsWithin n) }
    ensures size { IfSome result (λ g. (1 ≤ g.size) × (g.size ≤ greatest_size) × (2 ≤ g.count)) }
    ensures image { (heads : List Head) → AreGroups heads groups.now → MatchOption result ((j : ℕ) (g : Group) → IsImage heads j g → ⊥) (λ g. (j : ℕ) × IsImage heads j g) }
{
    let mut best: Option<Group> = None;
    for i in 0..groups.len() {
        if is_better(groups, &groups[i], &best) {
            best = Some(groups[i]);
        }
    }
    best
}
