//! The images that lie in a source beside the one that is found.

ghost use Rattle.std.specs.List.{All};
ghost use Rattle.std.specs.Prelude.{◌≡◌, ◌/◌, ◌<◌, ◌≤◌, ◌^◌, IfErr, IfOk, map};
ghost use Rattle.ubi_scan.specs.Source.{WhereHeld};
ghost use Rattle.ubi_detect.specs.Detected.{Looks};
ghost use Rattle.ubi_detect.specs.Groups.{AreGroups, greatest_size};
ghost use Rattle.ubi_detect.specs.Heads.{heads_of, step};
ghost use Rattle.ubi_detect.specs.Images.{AreImagesAmong, AreNoOthers, are_apart, are_headers, groups_of_images, is_apart, is_image, is_kin, span_of, spans_of};
ghost use Rattle.ubi_detect.specs.Place.{start_of_image};
ghost use Rattle.ubi_detect.specs.inner.Detecting.{IsReadAt, IsReadError, IsWithin, LiesIn};

use crate::at_places::read_there;
use crate::block_tests::{BlockTest, count_starts};
use crate::detect::DetectError;
use crate::groups::{Group, says_size};
use crate::way::Way;
use std::alloc::{AllocError, Global};
use ubi_media::{read_ec, read_vid};
use ubi_scan::{BlockSource, member_of};

/// Where the headers of an image stand in a file, from the first one to the end of the eraseblock of the last one.
#[derive(Clone, Copy, Debug, PartialEq, Eq)]
pub struct Span {
    /// Where the first one stands.
    pub start: u64,
    /// How many bytes there are from there to the end of the eraseblock of the last one, as far as the file has them.
    pub length: u64,
}

/// The images of a file, if there are several.
#[derive(Debug, Drop)]
pub struct Images {
    /// Where each lies, the one that is found among them, in the order in which they are named; empty if there is only one.
    pub spans: Vec<Span>,
    /// Whether one of them isn't on the grid of the image that is found, or names other offsets.
    pub are_apart: bool,
}

impl Images {
    /// No image beside the one that is found.
    pub fn one(alloc: Global) -> Images
        ensures { AreNoOthers result }
    {
        Images {
            spans: Vec::new(alloc),
            are_apart: false,
        }
    }
}

impl Group {
    /// Where the first whole eraseblock of the file begins, on the grid of its headers.
    pub fn start_of_image(&self) -> u64
        requires { 1 ≤ self.now.size }
        ensures { result ≡ start_of_image self.now }
    {
        self.first % self.size
    }

    /// Whether the headers of another group name its offsets, and all stand where eraseblocks of it begin.
    fn is_kin(&self, other: &Group) -> bool
        requires { 1 ≤ self.now.size }
        ensures { result ≡ is_kin self.now other.now }
    {
        self.key.has_offsets_of(&other.key)
            && other.size % self.size == 0
            && other.first % self.size == self.start_of_image()
    }
}

/// Whether the headers of a member of a logical eraseblock stand at two places of a source.
///
/// # Errors
///
/// `Read` if a read failed.
fn are_headers<S: BlockSource>(
    source: &mut S,
    way: &Way,
    ec: u64,
    vid: u64,
) -> Result<bool, DetectError>
    requires size { (S.known source.old).size < 2 ^ 63 }
    ensures source { Looks S.BlockSource source.old source.new result }
    ensures are { IfOk result (λ are. WhereHeld (S.agrees source.new) (λ bytes. are ≡ are_headers bytes way.now ec vid)) }
    ensures failed { IfErr result (IsReadAt (S.known source.old).size) }
{
    let mut first = [0u8; 64];
    let mut second = [0u8; 64];
    if !read_there(source, ec, &mut first)? {
        return Ok(false);
    }
    if !read_there(source, vid, &mut second)? {
        return Ok(false);
    }
    let ec = read_ec(&way.geometry, &first);
    let vid = read_vid(&way.geometry, &second);
    Ok(member_of(&ec, &vid).is_some())
}

/// Whether a place stands apart from an image.
#[derive(Drop)]
struct Apart<'a> {
    group: &'a Group,
    way: &'a Way,
    ghost some: { 1 ≤ group.now.size },
    ghost few: { group.now.size ≤ greatest_size },
}

impl BlockTest for Apart<'_> {
    ghost holds = { λ test bytes. is_apart bytes test.group.now test.way.now };

    ghost reach = { λ _. 0 };

    fn holds<S: BlockSource>(&self, source: &mut S, at: u64) -> Result<bool, DetectError> {
        let start = self.group.start_of_image();
        if at < start {
            return Ok(true);
        }
        let block = at - (at - start) % self.group.size;
        if source.len() < block + self.group.size {
            return Ok(true);
        }
        let vid = block + self.way.put(self.way.geometry.vid_offset());
        Ok(!are_headers(source, self.way, block, vid)?)
    }
}

/// An image that is found, and the groups of all headers of its source.
#[derive(Clone, Copy)]
pub struct Among<'a> {
    /// The group of the image.
    pub group: &'a Group,
    /// Its geometry, with out-of-band bytes or without.
    pub way: &'a Way,
    /// All groups.
    pub groups: &'a [Group],
}

/// Whether a group is that of an image in a source.
///
/// # Errors
///
/// `Read` if a read failed.
fn is_image<S: BlockSource>(
    source: &mut S,
    among: &Among<'_>,
    other: &Group,
) -> Result<bool, DetectError>
    requires size { (S.known source.old).size < 2 ^ 63 }
    requires lies { LiesIn (S.known source.old).size among.now.group.now }
    requires within { IsWithin ((S.known source.old).size / step) other.now }
    ensures source { Looks S.BlockSource source.old source.new result }
    ensures is { IfOk result (λ is. WhereHeld (S.agrees source.new) (λ bytes. is ≡ is_image bytes among.now.group.now among.now.way.now among.now.groups.now other.now)) }
    ensures failed { IfErr result (IsReadAt (S.known source.old).size) }
{
    if !says_size(among.groups, other) {
        return Ok(false);
    }
    if among.group.is_kin(other) {
        return Ok(true);
    }
    let test = Apart {
        group: among.group,
        way: among.way,
    };
    Ok(count_starts(source, other, &test)? >= 2)
}

/// The groups of the images in a source.
///
/// # Errors
///
/// `Read` if a read failed. `Memory` if memory ran out.
fn groups_of_images<S: BlockSource>(
    alloc: Global,
    source: &mut S,
    among: &Among<'_>,
) -> Result<Vec<Group>, DetectError>
    requires size { (S.known source.old).size < 2 ^ 63 }
    requires lies { LiesIn (S.known source.old).size among.now.group.now }
    requires within { All (IsWithin ((S.known source.old).size / step)) among.now.groups.now }
    ensures source { Looks S.BlockSource source.old source.new result }
    ensures images { IfOk result (λ images. WhereHeld (S.agrees source.new) (λ bytes. images.items ≡ groups_of_images bytes among.now.group.now among.now.way.now among.now.groups.now)) }
    ensures failed { IfErr result (IsReadError (S.known source.old).size) }
{
    let mut images = Vec::new(alloc);
    for group in among.groups {
        if is_image(source, among, group)? {
            images.push(*group)?;
        }
    }
    Ok(images)
}

/// Where the headers of a group stand in a file of `len` bytes.
fn span_of(group: &Group, len: u64) -> Span
    ensures { result ≡ span_of len group.now }
{
    let end = group.last.saturating_add(group.size).min(len);
    Span {
        start: group.first,
        length: end.saturating_sub(group.first),
    }
}

/// Where the headers of each of some groups stand in a file of `len` bytes.
///
/// # Errors
///
/// Memory ran out.
fn each_span(alloc: Global, images: &[Group], len: u64) -> Result<Vec<Span>, AllocError>
    ensures { IfOk result (λ spans. spans.items ≡ map (span_of len) images.now) }
{
    let mut spans = Vec::new(alloc);
    for group in images {
        spans.push(span_of(group, len))?;
    }
    Ok(spans)
}

/// Where images lie in a file of `len` bytes, if there are several.
///
/// # Errors
///
/// Memory ran out.
fn spans_of(alloc: Global, images: &[Group], len: u64) -> Result<Vec<Span>, AllocError>
    ensures { IfOk result (λ spans. spans.items ≡ spans_of len images.now) }
{
    if images.len() > 1 {
        each_span(alloc, images, len)
    } else {
        Ok(Vec::new(alloc))
    }
}

/// Whether one of some images isn't on the grid of another, or names other offsets.
fn are_apart(group: &Group, images: &[Group]) -> bool
    requires { 1 ≤ group.now.size }
    ensures { result ≡ are_apart group.now images.now }
{
    images.iter().any(|image| !group.is_kin(image))
}

/// The images that lie in a source beside the one that is found.
///
/// # Errors
///
/// `Read` if a read failed. `Memory` if memory ran out.
pub fn images_among<S: BlockSource>(
    alloc: Global,
    source: &mut S,
    among: &Among<'_>,
) -> Result<Images, DetectError>
    requires size { (S.known source.old).size < 2 ^ 63 }
    requires lies { LiesIn (S.known source.old).size among.now.group.now }
    requires within { All (IsWithin ((S.known source.old).size / step)) among.now.groups.now }
    requires groups { WhereHeld (S.agrees source.old) (λ bytes. AreGroups (heads_of bytes) among.now.groups.now) }
    ensures source { Looks S.BlockSource source.old source.new result }
    ensures images { IfOk result (λ images. WhereHeld (S.agrees source.new) (λ bytes. AreImagesAmong bytes among.now.group.now among.now.way.now images)) }
    ensures failed { IfErr result (IsReadError (S.known source.old).size) }
{
    let len = source.len();
    let groups = groups_of_images(alloc, source, among)?;
    let spans = spans_of(alloc, groups.as_slice(), len)?;
    let are_apart = are_apart(among.group, groups.as_slice());
    Ok(Images { spans, are_apart })
}
