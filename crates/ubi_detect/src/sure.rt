//! Whether the size that a group of headers says is sure, by what stands at the places of its eraseblocks.

ghost use Rattle.std.specs.Prelude.{◌≡◌, ℕ, ◌+◌, ◌-◌, ◌/◌, ◌%◌, ◌<◌, ◌≤◌, ◌^◌, ◌==◌, ◌||◌, IfErr, IfOk, not};
ghost use Rattle.ubi_detect.specs.Groups.{greatest_size};
ghost use Rattle.ubi_detect.specs.Place.{ways_with};
ghost use Rattle.ubi_detect.specs.Detected.{Looks};
ghost use Rattle.ubi_scan.specs.Source.{WhereHeld};
ghost use Rattle.ubi_detect.specs.Sure.{are_no_halves, are_no_parts, end_in, goes_on, has_inner_start, has_part_start, has_room, have_copies, holds_table, is_borne_out, is_dense, is_even, is_filled, is_hole, is_prime, is_seen, is_sure, is_whole_size, may_be_halves, may_be_parts, may_be_size, meet_in, says_so, some_ends_blank, tables_meet, all_are, meets, is_start, some_part, some_inner};
ghost use Rattle.ubi_detect.specs.inner.Detecting.{AreWays, IsReadAt, IsReadError, LiesIn};

use crate::at_places::{all_are, is_start, number_at};
use crate::block_tests::{BlockTest, count_starts, some_start};
use crate::detect::DetectError;
use crate::groups::Group;
use crate::heads::STEP;
use crate::way::Way;
use crate::ways::{Ways, has_no_way};
use std::alloc::{AllocError, Global};
use ubi_media::{EcOffsets, LAYOUT_VOLUME, RECORD_SIZE, VID_MAGIC};
use ubi_scan::BlockSource;

/// Whether an eraseblock ends with 16 bytes 0xFF, apart from its last out-of-band bytes.
#[derive(Drop)]
struct EndsBlank {
    size: u64,
    oob: u32,
    ghost few: { size ≤ greatest_size },
}

impl BlockTest for EndsBlank {
    ghost holds = { λ test bytes p. all_are 0xFF 16 bytes (p + test.size - (test.oob + 16)) };

    ghost reach = { λ _. 0 };

    fn holds<S: BlockSource>(&self, source: &mut S, at: u64) -> Result<bool, DetectError> {
        let end = at + self.size;
        all_are(
            source,
            0xFF,
            16,
            end.saturating_sub(u64::from(self.oob) + 16),
        )
    }
}

/// Whether something stands at a place: 64 bytes that are neither all 0xFF nor all zero.
///
/// # Errors
///
/// `Read` if a read failed.
fn is_filled<S: BlockSource>(source: &mut S, at: u64) -> Result<bool, DetectError>
    requires size { (S.known source.old).size < 2 ^ 63 }
    ensures source { Looks S.BlockSource source.old source.new result }
    ensures is { IfOk result (λ is. WhereHeld (S.agrees source.new) (λ bytes. is ≡ is_filled bytes at)) }
    ensures failed { IfErr result (IsReadAt (S.known source.old).size) }
{
    if all_are(source, 0xFF, 64, at)? {
        return Ok(false);
    }
    Ok(!all_are(source, 0, 64, at)?)
}

/// Whether something stands at a place after 16 bytes 0xFF.
///
/// # Errors
///
/// `Read` if a read failed.
fn is_hole<S: BlockSource>(source: &mut S, at: u64) -> Result<bool, DetectError>
    requires size { (S.known source.old).size < 2 ^ 63 }
    ensures source { Looks S.BlockSource source.old source.new result }
    ensures is { IfOk result (λ is. WhereHeld (S.agrees source.new) (λ bytes. is ≡ is_hole bytes at)) }
    ensures failed { IfErr result (IsReadAt (S.known source.old).size) }
{
    if !is_filled(source, at)? {
        return Ok(false);
    }
    all_are(source, 0xFF, 16, at.saturating_sub(16))
}

/// Whether what an eraseblock holds goes on at a place: `count` bytes are neither all 0xFF nor all zero, and don't follow 16 bytes 0xFF.
///
/// # Errors
///
/// `Read` if a read failed.
fn goes_on<S: BlockSource>(source: &mut S, count: usize, at: u64) -> Result<bool, DetectError>
    requires size { (S.known source.old).size < 2 ^ 63 }
    requires some { 1 ≤ count }
    requires few { count ≤ 192 }
    ensures source { Looks S.BlockSource source.old source.new result }
    ensures goes { IfOk result (λ goes. WhereHeld (S.agrees source.new) (λ bytes. goes ≡ goes_on count bytes at)) }
    ensures failed { IfErr result (IsReadAt (S.known source.old).size) }
{
    if all_are(source, 0xFF, count, at)? {
        return Ok(false);
    }
    if all_are(source, 0, count, at)? {
        return Ok(false);
    }
    Ok(!all_are(source, 0xFF, 16, at.saturating_sub(16))?)
}

/// Whether an eraseblock holds a copy of the volume table, by its volume-identifier header and the place of the table's last record.
///
/// # Errors
///
/// `Read` if a read failed.
fn holds_table<S: BlockSource>(source: &mut S, way: &Way, at: u64) -> Result<bool, DetectError>
    requires size { (S.known source.old).size < 2 ^ 63 }
    requires inside { at < 2 ^ 63 + 2 ^ 34 }
    ensures source { Looks S.BlockSource source.old source.new result }
    ensures is { IfOk result (λ is. WhereHeld (S.agrees source.new) (λ bytes. is ≡ holds_table bytes way.now at)) }
    ensures failed { IfErr result (IsReadAt (S.known source.old).size) }
{
    let geometry = &way.geometry;
    let vid = at + way.put(geometry.vid_offset());
    if number_at(source, vid)? != VID_MAGIC {
        return Ok(false);
    }
    if number_at(source, vid + 8)? != LAYOUT_VOLUME {
        return Ok(false);
    }
    let last = RECORD_SIZE as u32 * (geometry.slots() - 1);
    let record = at + way.put(geometry.data_offset() + last);
    Ok(!all_are(source, 0xFF, 64, record)?)
}

/// Whether two consecutive eraseblocks hold different copies of the volume table, by the numbers of their logical eraseblocks.
///
/// # Errors
///
/// `Read` if a read failed.
fn have_copies<S: BlockSource>(
    source: &mut S,
    way: &Way,
    at: u64,
    next: u64,
) -> Result<bool, DetectError>
    requires size { (S.known source.old).size < 2 ^ 63 }
    requires inside { at < 2 ^ 63 + 2 ^ 34 }
    requires next { next < 2 ^ 63 + 2 ^ 34 }
    ensures source { Looks S.BlockSource source.old source.new result }
    ensures have { IfOk result (λ have. WhereHeld (S.agrees source.new) (λ bytes. have ≡ have_copies bytes way.now at next)) }
    ensures failed { IfErr result (IsReadAt (S.known source.old).size) }
{
    if !holds_table(source, way, at)? {
        return Ok(false);
    }
    if !holds_table(source, way, next)? {
        return Ok(false);
    }
    let vid = way.put(way.geometry.vid_offset()) + 12;
    let first = number_at(source, at + vid)?;
    let second = number_at(source, next + vid)?;
    Ok(first != second)
}

/// Whether an eraseblock and the next one, which starts with a header too, hold the two copies of the volume table.
#[derive(Drop)]
struct Meets<'a> {
    group: &'a Group,
    way: &'a Way,
    ghost few: { group.now.size ≤ greatest_size },
}

impl BlockTest for Meets<'_> {
    ghost holds = { λ test bytes p. meets bytes test.group.now test.way.now p };

    ghost reach = { λ _. 0 };

    fn holds<S: BlockSource>(&self, source: &mut S, at: u64) -> Result<bool, DetectError> {
        let next = at + self.group.size;
        if next > self.group.last {
            return Ok(false);
        }
        if !is_start(source, self.group, next)? {
            return Ok(false);
        }
        have_copies(source, self.way, at, next)
    }
}

/// How many bytes are looked at, at most, where a part of an eraseblock begins: more than a record of the volume table has, whose CRC
/// isn't zero.
const LOOKED_AT: u64 = 192;

/// Whether what an eraseblock holds goes on at a place.
#[derive(Drop)]
struct GoesOn {
    /// How many bytes are looked at.
    count: usize,
    ghost some: { 1 ≤ count },
    ghost few: { count ≤ 192 },
}

impl BlockTest for GoesOn {
    ghost holds = { λ test. goes_on test.count };

    ghost reach = { λ _. 0 };

    fn holds<S: BlockSource>(&self, source: &mut S, at: u64) -> Result<bool, DetectError> {
        goes_on(source, self.count, at)
    }
}

/// Whether something stands at a place after 16 bytes 0xFF.
#[derive(Drop)]
struct Hole;

impl BlockTest for Hole {
    ghost holds = { λ _. is_hole };

    ghost reach = { λ _. 0 };

    fn holds<S: BlockSource>(&self, source: &mut S, at: u64) -> Result<bool, DetectError> {
        is_hole(source, at)
    }
}

/// Whether a header of a group stands at a place.
#[derive(Drop)]
struct Starts<'a> {
    group: &'a Group,
}

impl BlockTest for Starts<'_> {
    ghost holds = { λ test bytes. is_start bytes test.group.now };

    ghost reach = { λ _. 0 };

    fn holds<S: BlockSource>(&self, source: &mut S, at: u64) -> Result<bool, DetectError> {
        is_start(source, self.group, at)
    }
}

/// Whether a test holds where a part of an eraseblock would begin, except the first one.
#[derive(Drop)]
struct SomePart<'a, T: BlockTest> {
    /// The size of an eraseblock in bytes.
    size: u64,
    /// How many parts it has.
    parts: u64,
    test: &'a T,
    ghost few: { size ≤ greatest_size },
    ghost some: { 1 ≤ parts },
}

impl<T: BlockTest> BlockTest for SomePart<'_, T> {
    ghost holds = { λ test bytes. some_part test.size test.parts (T.holds test.test.now bytes) };

    ghost reach = { λ test. test.size + T.reach test.test.now };

    fn holds<S: BlockSource>(&self, source: &mut S, at: u64) -> Result<bool, DetectError> {
        let part = self.size / self.parts;
        for j in 0..self.parts - 1 {
            if self.test.holds(source, at + (j + 1) * part)? {
                return Ok(true);
            }
        }
        Ok(false)
    }
}

/// The same for the eraseblocks before that of the last header.
#[derive(Drop)]
struct SomeInner<'a, T: BlockTest> {
    last: u64,
    part: SomePart<'a, T>,
}

impl<T: BlockTest> BlockTest for SomeInner<'_, T> {
    ghost holds = { λ test bytes. some_inner test.last test.part.size test.part.parts (T.holds test.part.test.now bytes) };

    ghost reach = { λ test. test.part.size + T.reach test.part.test.now };

    fn holds<S: BlockSource>(&self, source: &mut S, at: u64) -> Result<bool, DetectError> {
        if at < self.last {
            self.part.holds(source, at)
        } else {
            Ok(false)
        }
    }
}

/// Whether eraseblocks of a size have room for data after the headers.
fn has_room(offsets: &EcOffsets, size: u64) -> bool
    ensures { result ≡ has_room offsets.now size }
{
    u64::from(offsets.data_offset) + 64 <= size
}

/// Whether only 1 and itself divide a number.
fn is_prime(number: u64) -> bool
    ensures { result ≡ is_prime number }
{
    for e in 0..number.saturating_sub(2) {
        if number % (e + 2) == 0 {
            return false;
        }
    }
    true
}

/// Whether eraseblocks of a size may be `parts` of the true ones each.
fn may_be_parts(offsets: &EcOffsets, size: u64, parts: u64) -> bool
    requires some { 1 ≤ parts }
    requires few { parts < 2 ^ 32 }
    ensures { result ≡ may_be_parts offsets.now size parts }
{
    size % (parts * STEP) == 0 && has_room(offsets, size / parts) && is_prime(parts)
}

/// Whether the eraseblocks of a group can't be this many of the true ones each.
///
/// # Errors
///
/// `Read` if a read failed.
fn are_no_parts<S: BlockSource>(
    source: &mut S,
    group: &Group,
    parts: u64,
) -> Result<bool, DetectError>
    requires size { (S.known source.old).size < 2 ^ 63 }
    requires lies { LiesIn (S.known source.old).size group.now }
    requires some { 1 ≤ parts }
    requires part { 1 ≤ group.now.size / parts }
    ensures source { Looks S.BlockSource source.old source.new result }
    ensures are { IfOk result (λ are. WhereHeld (S.agrees source.new) (λ bytes. are ≡ are_no_parts bytes group.now parts)) }
    ensures failed { IfErr result (IsReadAt (S.known source.old).size) }
{
    let goes_on = SomeInner {
        last: group.last,
        part: SomePart {
            size: group.size,
            parts,
            test: &GoesOn {
                count: (group.size / parts).min(LOOKED_AT) as usize,
            },
        },
    };
    if !some_start(source, group, &goes_on)? {
        return Ok(false);
    }
    let hole = SomeInner {
        last: group.last,
        part: SomePart {
            size: group.size,
            parts,
            test: &Hole,
        },
    };
    Ok(!some_start(source, group, &hole)?)
}

/// Whether the eraseblocks of a group can't have this number of parts.
///
/// # Errors
///
/// `Read` if a read failed.
fn is_no_number<S: BlockSource>(
    source: &mut S,
    group: &Group,
    parts: u64,
) -> Result<bool, DetectError>
    requires size { (S.known source.old).size < 2 ^ 63 }
    requires lies { LiesIn (S.known source.old).size group.now }
    requires some { 1 ≤ parts }
    requires few { parts < 2 ^ 32 }
    ensures source { Looks S.BlockSource source.old source.new result }
    ensures is { IfOk result (λ is. WhereHeld (S.agrees source.new) (λ bytes. is ≡ (not (may_be_parts group.now.key.offsets group.now.size parts) || are_no_parts bytes group.now parts))) }
    ensures failed { IfErr result (IsReadAt (S.known source.old).size) }
{
    if may_be_parts(&group.key.offsets, group.size, parts) {
        are_no_parts(source, group, parts)
    } else {
        Ok(true)
    }
}

/// Whether the eraseblocks of a group can't be any number of the true ones.
///
/// # Errors
///
/// `Read` if a read failed.
fn is_whole_size<S: BlockSource>(source: &mut S, group: &Group) -> Result<bool, DetectError>
    requires size { (S.known source.old).size < 2 ^ 63 }
    requires lies { LiesIn (S.known source.old).size group.now }
    ensures source { Looks S.BlockSource source.old source.new result }
    ensures is { IfOk result (λ is. WhereHeld (S.agrees source.new) (λ bytes. is ≡ is_whole_size bytes group.now)) }
    ensures failed { IfErr result (IsReadAt (S.known source.old).size) }
{
    for i in 0..group.size / STEP {
        if !is_no_number(source, group, i + 2)? {
            return Ok(false);
        }
    }
    Ok(true)
}

/// Whether two consecutive eraseblocks hold the two copies of the volume table, in one of some ways.
///
/// # Errors
///
/// `Read` if a read failed.
fn meet_in<S: BlockSource>(source: &mut S, group: &Group, ways: &[Way]) -> Result<bool, DetectError>
    requires size { (S.known source.old).size < 2 ^ 63 }
    requires lies { LiesIn (S.known source.old).size group.now }
    ensures source { Looks S.BlockSource source.old source.new result }
    ensures meet { IfOk result (λ meet. WhereHeld (S.agrees source.new) (λ bytes. meet ≡ meet_in bytes group.now ways.now)) }
    ensures failed { IfErr result (IsReadAt (S.known source.old).size) }
{
    for way in ways {
        if some_start(source, group, &Meets { group, way })? {
            return Ok(true);
        }
    }
    Ok(false)
}

/// Whether an eraseblock ends blank, apart from the out-of-band bytes of one of some ways.
///
/// # Errors
///
/// `Read` if a read failed.
fn end_in<S: BlockSource>(source: &mut S, group: &Group, ways: &[Way]) -> Result<bool, DetectError>
    requires size { (S.known source.old).size < 2 ^ 63 }
    requires lies { LiesIn (S.known source.old).size group.now }
    ensures source { Looks S.BlockSource source.old source.new result }
    ensures end { IfOk result (λ end. WhereHeld (S.agrees source.new) (λ bytes. end ≡ end_in bytes group.now ways.now)) }
    ensures failed { IfErr result (IsReadAt (S.known source.old).size) }
{
    for way in ways {
        let test = EndsBlank {
            size: group.size,
            oob: way.oob,
        };
        if some_start(source, group, &test)? {
            return Ok(true);
        }
    }
    Ok(false)
}

impl Group {
    /// Whether more than half of its eraseblocks start with a header.
    fn is_dense(&self) -> bool
        requires from { 1 ≤ self.now.size }
        requires order { self.now.first ≤ self.now.last }
        requires last { self.now.last < 2 ^ 63 }
        ensures { result ≡ is_dense self.now }
    {
        self.blocks() / 2 < self.count
    }
}

/// Whether an eraseblock of a group has an even number, counted from that of the first header.
#[derive(Drop)]
struct Even {
    first: u64,
    /// The size of an eraseblock in bytes.
    size: u64,
    ghost some: { 1 ≤ size },
}

impl BlockTest for Even {
    ghost holds = { λ test _ p. (p - test.first) / test.size % 2 == 0 };

    ghost reach = { λ _. 0 };

    fn holds<S: BlockSource>(&self, _source: &mut S, at: u64) -> Result<bool, DetectError> {
        Ok(at.saturating_sub(self.first) / self.size % 2 == 0)
    }
}

impl Group {
    /// Whether its eraseblocks may be halves of the true ones, if `even` of those with even numbers start with a header.
    fn may_be_halves(&self, even: u64) -> bool
        requires from { 1 ≤ self.now.size }
        requires order { self.now.first ≤ self.now.last }
        requires last { self.now.last < 2 ^ 63 }
        ensures { result ≡ may_be_halves self.now even }
    {
        let blocks = self.blocks();
        let odd = self.count.saturating_sub(even);
        even.saturating_mul(4) < (blocks + 1) / 2 || odd.saturating_mul(4) < blocks / 2
    }
}

/// Whether the eraseblocks of a group are no halves of the true ones.
///
/// # Errors
///
/// `Read` if a read failed.
fn are_no_halves<S: BlockSource>(source: &mut S, group: &Group) -> Result<bool, DetectError>
    requires size { (S.known source.old).size < 2 ^ 63 }
    requires lies { LiesIn (S.known source.old).size group.now }
    ensures source { Looks S.BlockSource source.old source.new result }
    ensures are { IfOk result (λ are. WhereHeld (S.agrees source.new) (λ bytes. are ≡ are_no_halves bytes group.now)) }
    ensures failed { IfErr result (IsReadAt (S.known source.old).size) }
{
    if group.count == group.blocks() {
        return Ok(true);
    }
    let test = Even {
        first: group.first,
        size: group.size,
    };
    let even = count_starts(source, group, &test)?;
    Ok(!group.may_be_halves(even))
}

/// Whether headers of eraseblocks of half or a quarter of a group's size would all be seen.
///
/// # Errors
///
/// Memory ran out.
fn is_seen(alloc: Global, group: &Group) -> Result<bool, AllocError>
    requires { group.now.size ≤ greatest_size }
    ensures { IfOk result (λ seen. seen ≡ is_seen group.now) }
{
    if group.size % (2 * STEP) == 0 {
        return Ok(true);
    }
    let (size, offsets) = (group.size as u32, &group.key.offsets);
    let half = has_no_way(alloc, size / 2, offsets)?;
    let quarter = has_no_way(alloc, size / 4, offsets)?;
    Ok(half && quarter)
}

/// Whether an eraseblock ends blank, without out-of-band bytes or with those of one of some ways.
///
/// # Errors
///
/// `Read` if a read failed.
fn some_ends_blank<S: BlockSource>(
    source: &mut S,
    group: &Group,
    with: &[Way],
) -> Result<bool, DetectError>
    requires size { (S.known source.old).size < 2 ^ 63 }
    requires lies { LiesIn (S.known source.old).size group.now }
    requires ways { with.now ≡ ways_with group.now }
    ensures source { Looks S.BlockSource source.old source.new result }
    ensures ends { IfOk result (λ ends. WhereHeld (S.agrees source.new) (λ bytes. ends ≡ some_ends_blank bytes group.now)) }
    ensures failed { IfErr result (IsReadAt (S.known source.old).size) }
{
    let test = EndsBlank {
        size: group.size,
        oob: 0,
    };
    if some_start(source, group, &test)? {
        return Ok(true);
    }
    end_in(source, group, with)
}

/// Whether two consecutive eraseblocks hold the two copies of the volume table, without out-of-band bytes or with them.
///
/// # Errors
///
/// `Read` if a read failed.
fn tables_meet<S: BlockSource>(
    source: &mut S,
    group: &Group,
    ways: &Ways,
) -> Result<bool, DetectError>
    requires size { (S.known source.old).size < 2 ^ 63 }
    requires lies { LiesIn (S.known source.old).size group.now }
    requires ways { AreWays group.now ways.now }
    ensures source { Looks S.BlockSource source.old source.new result }
    ensures meet { IfOk result (λ meet. WhereHeld (S.agrees source.new) (λ bytes. meet ≡ tables_meet bytes group.now)) }
    ensures failed { IfErr result (IsReadAt (S.known source.old).size) }
{
    if meet_in(source, group, ways.without.as_slice())? {
        return Ok(true);
    }
    meet_in(source, group, ways.with.as_slice())
}

/// Whether what stands in eraseblocks says their size: one ends blank; and two neighbours hold the copies of the volume table, or there
/// are three headers, and no part could be the size.
///
/// # Errors
///
/// `Read` if a read failed.
fn says_so<S: BlockSource>(source: &mut S, group: &Group, ways: &Ways) -> Result<bool, DetectError>
    requires size { (S.known source.old).size < 2 ^ 63 }
    requires lies { LiesIn (S.known source.old).size group.now }
    requires ways { AreWays group.now ways.now }
    ensures source { Looks S.BlockSource source.old source.new result }
    ensures says { IfOk result (λ says. WhereHeld (S.agrees source.new) (λ bytes. says ≡ says_so bytes group.now)) }
    ensures failed { IfErr result (IsReadAt (S.known source.old).size) }
{
    if !some_ends_blank(source, group, ways.with.as_slice())? {
        return Ok(false);
    }
    if tables_meet(source, group, ways)? {
        return Ok(true);
    }
    if group.count < 3 {
        return Ok(false);
    }
    is_whole_size(source, group)
}

/// Whether a group may be that of eraseblocks of its size: there is room, more than half of them start with a header, and no other header
/// of theirs could be unseen.
///
/// # Errors
///
/// Memory ran out.
fn may_be_size(alloc: Global, group: &Group) -> Result<bool, AllocError>
    requires from { 1 ≤ group.now.size }
    requires to { group.now.size ≤ greatest_size }
    requires order { group.now.first ≤ group.now.last }
    requires last { group.now.last < 2 ^ 63 }
    ensures { IfOk result (λ may. may ≡ may_be_size group.now) }
{
    if !has_room(&group.key.offsets, group.size) {
        return Ok(false);
    }
    if !group.is_dense() {
        return Ok(false);
    }
    is_seen(alloc, group)
}

/// Whether the eraseblocks of a group bear its size out: they are no halves of the true ones, and what stands in them says the size.
///
/// # Errors
///
/// `Read` if a read failed.
fn is_borne_out<S: BlockSource>(
    source: &mut S,
    group: &Group,
    ways: &Ways,
) -> Result<bool, DetectError>
    requires size { (S.known source.old).size < 2 ^ 63 }
    requires lies { LiesIn (S.known source.old).size group.now }
    requires ways { AreWays group.now ways.now }
    ensures source { Looks S.BlockSource source.old source.new result }
    ensures is { IfOk result (λ is. WhereHeld (S.agrees source.new) (λ bytes. is ≡ is_borne_out bytes group.now)) }
    ensures failed { IfErr result (IsReadAt (S.known source.old).size) }
{
    if !are_no_halves(source, group)? {
        return Ok(false);
    }
    says_so(source, group, ways)
}

/// Whether the size that a group says is sure.
///
/// # Errors
///
/// `Read` if a read failed. `Memory` if memory ran out.
pub fn is_sure<S: BlockSource>(
    alloc: Global,
    source: &mut S,
    group: &Group,
    ways: &Ways,
) -> Result<bool, DetectError>
    requires size { (S.known source.old).size < 2 ^ 63 }
    requires lies { LiesIn (S.known source.old).size group.now }
    requires ways { AreWays group.now ways.now }
    ensures source { Looks S.BlockSource source.old source.new result }
    ensures sure { IfOk result (λ sure. WhereHeld (S.agrees source.new) (λ bytes. sure ≡ is_sure bytes group.now)) }
    ensures failed { IfErr result (IsReadError (S.known source.old).size) }
{
    if may_be_size(alloc, group)? {
        is_borne_out(source, group, ways)
    } else {
        Ok(false)
    }
}

/// Whether a header of a group stands where one of this many parts of an eraseblock would begin, if it may have so many.
///
/// # Errors
///
/// `Read` if a read failed.
fn has_part_start<S: BlockSource>(
    source: &mut S,
    group: &Group,
    parts: u64,
) -> Result<bool, DetectError>
    requires size { (S.known source.old).size < 2 ^ 63 }
    requires lies { LiesIn (S.known source.old).size group.now }
    requires some { 1 ≤ parts }
    requires few { parts < 2 ^ 32 }
    ensures source { Looks S.BlockSource source.old source.new result }
    ensures has { IfOk result (λ has. WhereHeld (S.agrees source.new) (λ bytes. has ≡ has_part_start bytes group.now parts)) }
    ensures failed { IfErr result (IsReadAt (S.known source.old).size) }
{
    if !may_be_parts(&group.key.offsets, group.size, parts) {
        return Ok(false);
    }
    let test = SomePart {
        size: group.size,
        parts,
        test: &Starts { group },
    };
    some_start(source, group, &test)
}

/// Whether a header of a group stands where a part of an eraseblock could begin.
///
/// # Errors
///
/// `Read` if a read failed.
pub fn has_inner_start<S: BlockSource>(source: &mut S, group: &Group) -> Result<bool, DetectError>
    requires size { (S.known source.old).size < 2 ^ 63 }
    requires lies { LiesIn (S.known source.old).size group.now }
    ensures source { Looks S.BlockSource source.old source.new result }
    ensures has { IfOk result (λ has. WhereHeld (S.agrees source.new) (λ bytes. has ≡ has_inner_start bytes group.now)) }
    ensures failed { IfErr result (IsReadAt (S.known source.old).size) }
{
    for i in 0..group.size / STEP {
        if has_part_start(source, group, i + 2)? {
            return Ok(true);
        }
    }
    Ok(false)
}
