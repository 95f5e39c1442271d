//! Tests of the eraseblocks that start with a header of a group.

ghost use Rattle.std.specs.Prelude.{◌≡◌, ℕ, ◌+◌, ◌<◌, ◌≤◌, ◌^◌, ◌&&◌, Bool, IfErr, IfOk, List, if◌then◌else◌};
ghost use Rattle.ubi_detect.specs.Detected.{Looks};
ghost use Rattle.ubi_scan.specs.Source.{WhereHeld};
ghost use Rattle.ubi_detect.specs.Sure.{block_at, blocks, count_starts, is_start, some_start};
ghost use Rattle.ubi_detect.specs.inner.Detecting.{IsReadAt, LiesIn};

use crate::at_places::is_start;
use crate::detect::DetectError;
use crate::groups::Group;
use ubi_scan::BlockSource;

/// A test of what the eraseblock at a place of a source holds.
pub trait BlockTest {
    // Whether it holds for the eraseblock that begins at a place of some bytes.
    ghost holds: { Self → List ℕ → ℕ → Bool };

    // How far after that place it may look for others.
    ghost reach: { Self → ℕ };

    /// Whether it holds for the eraseblock that begins at a place.
    ///
    /// # Errors
    ///
    /// `Read` if a read failed.
    fn holds<S: BlockSource>(&self, source: &mut S, at: u64) -> Result<bool, DetectError>
        requires size { (S.known source.old).size < 2 ^ 63 }
        requires inside { at + reach self.now < 2 ^ 63 + 2 ^ 33 }
        ensures source { Looks S.BlockSource source.old source.new result }
        ensures answer { IfOk result (λ answer. WhereHeld (S.agrees source.new) (λ bytes. answer ≡ holds self.now bytes at)) }
        ensures failed { IfErr result (IsReadAt (S.known source.old).size) };
}

impl Group {
    /// How many eraseblocks there are from its first header to its last one.
    pub fn blocks(&self) -> u64
        requires from { 1 ≤ self.now.size }
        requires order { self.now.first ≤ self.now.last }
        requires last { self.now.last < 2 ^ 63 }
        ensures { result ≡ blocks self.now }
    {
        (self.last - self.first) / self.size + 1
    }

    /// Where one of these eraseblocks begins.
    pub fn block_at(&self, i: u64) -> u64
        requires from { 1 ≤ self.now.size }
        requires order { self.now.first ≤ self.now.last }
        requires last { self.now.last < 2 ^ 63 }
        requires inside { i < blocks self.now }
        ensures place { result ≡ block_at self.now i }
        ensures inside { result ≤ self.now.last }
    {
        self.first + i * self.size
    }
}

/// Whether an eraseblock starts with a header of a group and passes a test.
///
/// # Errors
///
/// `Read` if a read failed.
fn start_holds<S: BlockSource, T: BlockTest>(
    source: &mut S,
    group: &Group,
    test: &T,
    at: u64,
) -> Result<bool, DetectError>
    requires size { (S.known source.old).size < 2 ^ 63 }
    requires inside { at + T.reach test.now < 2 ^ 63 + 2 ^ 33 }
    ensures source { Looks S.BlockSource source.old source.new result }
    ensures answer { IfOk result (λ answer. WhereHeld (S.agrees source.new) (λ bytes. answer ≡ is_start bytes group.now at && T.holds test.now bytes at)) }
    ensures failed { IfErr result (IsReadAt (S.known source.old).size) }
{
    // Most tests fail: then the header isn't read.
    if test.holds(source, at)? {
        is_start(source, group, at)
    } else {
        Ok(false)
    }
}

/// Whether some eraseblock that starts with a header of a group passes a test.
///
/// # Errors
///
/// `Read` if a read failed.
pub fn some_start<S: BlockSource, T: BlockTest>(
    source: &mut S,
    group: &Group,
    test: &T,
) -> Result<bool, DetectError>
    requires size { (S.known source.old).size < 2 ^ 63 }
    requires lies { LiesIn (S.known source.old).size group.now }
    requires reach { T.reach test.now < 2 ^ 32 }
    ensures source { Looks S.BlockSource source.old source.new result }
    ensures some { IfOk result (λ some. WhereHeld (S.agrees source.new) (λ bytes. some ≡ some_start bytes group.now (T.holds test.now bytes))) }
    ensures failed { IfErr result (IsReadAt (S.known source.old).size) }
{
    for i in 0..group.blocks() {
        if start_holds(source, group, test, group.block_at(i))? {
            return Ok(true);
        }
    }
    Ok(false)
}

/// 1 for what holds, 0 for what doesn't.
fn one_if(holds: bool) -> u64
    ensures value { result ≡ (if holds then 1 else 0) }
    ensures few { result ≤ 1 }
{
    if holds { 1 } else { 0 }
}

/// How many eraseblocks that start with a header of a group pass a test.
///
/// # Errors
///
/// `Read` if a read failed.
pub fn count_starts<S: BlockSource, T: BlockTest>(
    source: &mut S,
    group: &Group,
    test: &T,
) -> Result<u64, DetectError>
    requires size { (S.known source.old).size < 2 ^ 63 }
    requires lies { LiesIn (S.known source.old).size group.now }
    requires reach { T.reach test.now < 2 ^ 32 }
    ensures source { Looks S.BlockSource source.old source.new result }
    ensures count { IfOk result (λ count. WhereHeld (S.agrees source.new) (λ bytes. count ≡ count_starts bytes group.now (T.holds test.now bytes))) }
    ensures failed { IfErr result (IsReadAt (S.known source.old).size) }
{
    let mut count = 0;
    for i in 0..group.blocks() {
        count += one_if(start_holds(source, group, test, group.block_at(i))?);
    }
    Ok(count)
}
