//! The geometry of a file of which nothing else is known, and where in it the image lies.

ghost use Rattle.std.specs.List.{All};
ghost use Rattle.std.specs.Prelude.{◌≡◌, ◌≢◌, ℕ, ◌/◌, ◌<◌, ◌≤◌, ◌^◌, [], IfErr, IfOk, IfSome, IsTrue, MatchOption, Some};
ghost use Rattle.ubi_detect.specs.Detected.{AreDetectedOf, IsDetectError, IsWholeGroup, Looks, NonePlain};
ghost use Rattle.ubi_detect.specs.Groups.{AreGroups};
ghost use Rattle.ubi_detect.specs.Heads.{heads_of, step};
ghost use Rattle.ubi_detect.specs.Images.{AreImagesBeside};
ghost use Rattle.ubi_detect.specs.Place.{end_of_last, told};
ghost use Rattle.ubi_detect.specs.Plain.{IsSurelyPlain};
ghost use Rattle.ubi_detect.specs.Sure.{is_sure};
ghost use Rattle.ubi_scan.specs.Source.{WhereHeld};
ghost use Rattle.ubi_detect.specs.inner.Detecting.{AreWays, IsReadAt, IsReadError, IsUntold, IsWithin, LiesIn};
ghost use Rattle.ubi_detect.specs.inner.Joined.{IsAlone, NoneAlone};
ghost use Rattle.ubi_detect.specs.ErrorTexts.{undetected_text, detect_error_text};
ghost use Rattle.ubi_detect.specs.declared.detect.DetectError.{DetectError};

use crate::groups::{Group, image_among};
use crate::images::{Among, Images, images_among};
use crate::place::told;
use crate::plain::read_plain;
use crate::sure::{has_inner_start, is_sure};
use crate::survey::read_groups;
use crate::way::Way;
use crate::ways::Ways;
use std::alloc::{AllocError, AllocFailed, Global};
use std::error::Error;
use std::fmt;
use ubi_media::{EcOffsets, Geometry};
use ubi_scan::BlockSource;

/// A geometry that the headers of a file give, and which part of the file is the image.
#[derive(Clone, Copy, Debug, PartialEq, Eq)]
pub struct Detected {
    /// The geometry, of a device with as many eraseblocks as any may have.
    pub geometry: Geometry,
    /// How many out-of-band bytes follow each page.
    pub oob: u32,
    /// Where the image begins.
    pub start: u64,
    /// How many bytes it has, out-of-band bytes among them.
    pub length: u64,
}

/// What is found in a file.
#[derive(Debug, Drop)]
pub struct Found {
    /// The geometries of its image, the least page first; there is one at least. All have the same place.
    pub geometries: Vec<Detected>,
    /// The images of the file, if there are several.
    pub images: Images,
}

/// Why no geometry is found in a file.
#[derive(Clone, Copy, Debug, PartialEq, Eq)]
pub enum Undetected {
    /// No erase-counter header stands at a multiple of 64.
    NoHeader,
    /// Headers name too many offsets and numbers, or no two are of one image, or what stands at the places of its eraseblocks speaks
    /// against the size that they say.
    NoSize,
    /// The eraseblock of the image's last header isn't all there: the size of an eraseblock, and how many bytes of it are there.
    Length(u64, u64),
    /// Eraseblocks of this size may have out-of-band bytes, and no volume-identifier header says how many.
    OutOfBand(u64),
    /// No page fits the size and the offsets.
    Page(u64, EcOffsets),
}

impl fmt::Display for Undetected {
    ghost output = { λ cause. Some (undetected_text cause) };

    fn fmt<W: fmt::Write>(&self, f: &mut fmt::Formatter<W>) -> fmt::Result {
        match self {
            Undetected::NoHeader => f.write_str("F1 NoHeader"),
            Undetected::NoSize => f.write_str("F2 NoSize"),
            Undetected::Length(size, rest) => write!(f, "F3 Length peb={size} rest={rest}"),
            Undetected::OutOfBand(size) => write!(f, "F5 OutOfBand peb={size}"),
            Undetected::Page(
                size,
                EcOffsets {
                    vid_offset,
                    data_offset,
                },
            ) => write!(f, "F6 Page peb={size} vid={vid_offset} data={data_offset}"),
        }
    }
}

impl Error for Undetected {}

/// Why the geometry of a source isn't detected.
#[derive(Clone, Copy, Debug, PartialEq, Eq)]
pub enum DetectError {
    /// No geometry is found in what it holds.
    Undetected(Undetected),
    /// The read that began at this place failed.
    Read(u64),
    /// Memory ran out.
    Memory,
}

impl fmt::Display for DetectError {
    ghost output = { λ error. Some (detect_error_text error) };

    fn fmt<W: fmt::Write>(&self, f: &mut fmt::Formatter<W>) -> fmt::Result {
        match self {
            DetectError::Undetected(cause) => write!(f, "{cause}"),
            DetectError::Read(at) => write!(f, "a read failed at={at}"),
            DetectError::Memory => f.write_str("out of memory"),
        }
    }
}

impl Error for DetectError {}

impl From<AllocError> for DetectError {
    ghost from_gives = { λ _ e. e ≡ DetectError.Memory };

    fn from(_: AllocError) -> DetectError {
        DetectError::Memory
    }
}

impl<T: Drop> From<AllocFailed<T>> for DetectError {
    ghost from_gives = { λ _ e. e ≡ DetectError.Memory };

    fn from(_: AllocFailed<T>) -> DetectError {
        DetectError::Memory
    }
}

/// What is found for the image of a group.
///
/// # Errors
///
/// `Undetected` with `OutOfBand` or `Page`. `Read` if a read failed. `Memory` if memory ran out.
fn tell<S: BlockSource>(
    alloc: Global,
    source: &mut S,
    group: &Group,
    ways: &Ways,
) -> Result<Vec<Detected>, DetectError>
    requires size { (S.known source.old).size < 2 ^ 63 }
    requires lies { LiesIn (S.known source.old).size group.now }
    requires whole { end_of_last group.now ≤ (S.known source.old).size }
    requires ways { AreWays group.now ways.now }
    ensures source { Looks S.BlockSource source.old source.new result }
    ensures told { IfOk result (λ found. WhereHeld (S.agrees source.new) (λ bytes. found.items ≡ told bytes group.now)) }
    ensures some { IfOk result (λ found. found.items ≢ []) }
    ensures refused { IfErr result (IsUntold (S.known source.old).size (S.agrees source.new) group.now) }
{
    let found = told(alloc, source, group, ways)?;
    if !found.is_empty() {
        return Ok(found);
    }
    if ways.are_none() {
        let page = Undetected::Page(group.size, group.key.offsets);
        return Err(DetectError::Undetected(page));
    }
    Err(DetectError::Undetected(Undetected::OutOfBand(group.size)))
}

/// The group of a source that is plainly an image, apart from what its eraseblocks hold, if no header of it stands where a part of
/// one could begin.
///
/// # Errors
///
/// `Read` if a read failed.
fn plain_group<S: BlockSource>(source: &mut S) -> Result<Option<Group>, DetectError>
    requires { (S.known source.old).size < 2 ^ 63 }
    ensures source { Looks S.BlockSource source.old source.new result }
    ensures plain { IfOk result (λ o. MatchOption o (WhereHeld (S.agrees source.new) NoneAlone) (λ g. WhereHeld (S.agrees source.new) (λ bytes. IsAlone bytes g))) }
    ensures lies { IfOk result (λ o. IfSome o (LiesIn (S.known source.old).size)) }
    ensures whole { IfOk result (λ o. IfSome o (λ g. end_of_last g ≤ (S.known source.old).size)) }
    ensures failed { IfErr result (IsReadAt (S.known source.old).size) }
{
    let Some(group) = read_plain(source)? else {
        return Ok(None);
    };
    if has_inner_start(source, &group)? {
        return Ok(None);
    }
    Ok(Some(group))
}

/// The group of the image that a source plainly is, and the pages that its eraseblocks may have, if it plainly is one.
///
/// # Errors
///
/// `Read` if a read failed. `Memory` if memory ran out.
fn plain_image<S: BlockSource>(
    alloc: Global,
    source: &mut S,
) -> Result<Option<(Group, Ways)>, DetectError>
    requires { (S.known source.old).size < 2 ^ 63 }
    ensures source { Looks S.BlockSource source.old source.new result }
    ensures plain { IfOk result (λ o. MatchOption o (WhereHeld (S.agrees source.new) NonePlain) (λ image. WhereHeld (S.agrees source.new) (λ bytes. IsSurelyPlain bytes image.0))) }
    ensures lies { IfOk result (λ o. IfSome o (λ image. LiesIn (S.known source.old).size image.0)) }
    ensures whole { IfOk result (λ o. IfSome o (λ image. end_of_last image.0 ≤ (S.known source.old).size)) }
    ensures ways { IfOk result (λ o. IfSome o (λ image. AreWays image.0 image.1)) }
    ensures failed { IfErr result (IsReadError (S.known source.old).size) }
{
    let Some(group) = plain_group(source)? else {
        return Ok(None);
    };
    let ways = Ways::of(alloc, &group)?;
    if is_sure(alloc, source, &group, &ways)? {
        Ok(Some((group, ways)))
    } else {
        Ok(None)
    }
}

/// What is found for the image that a source plainly is: there is none beside it.
///
/// # Errors
///
/// `Undetected` with `OutOfBand` or `Page`. `Read` if a read failed. `Memory` if memory ran out.
fn tell_plain<S: BlockSource>(
    alloc: Global,
    source: &mut S,
    group: &Group,
    ways: &Ways,
) -> Result<Found, DetectError>
    requires size { (S.known source.old).size < 2 ^ 63 }
    requires plain { WhereHeld (S.agrees source.old) (λ bytes. IsSurelyPlain bytes group.now) }
    requires lies { LiesIn (S.known source.old).size group.now }
    requires whole { end_of_last group.now ≤ (S.known source.old).size }
    requires ways { AreWays group.now ways.now }
    ensures source { Looks S.BlockSource source.old source.new result }
    ensures told { IfOk result (λ found. WhereHeld (S.agrees source.new) (λ bytes. found.geometries.items ≡ told bytes group.now)) }
    ensures some { IfOk result (λ found. found.geometries.items ≢ []) }
    ensures images { IfOk result (λ found. WhereHeld (S.agrees source.new) (λ bytes. AreImagesBeside bytes found.geometries.items found.images)) }
    ensures refused { IfErr result (IsUntold (S.known source.old).size (S.agrees source.new) group.now) }
{
    let geometries = tell(alloc, source, group, ways)?;
    let images = Images::one(alloc);
    Ok(Found { geometries, images })
}

/// The group of the image that the headers of a source say, if none plainly is; and the groups of all headers.
///
/// # Errors
///
/// `Undetected` with `NoHeader`, `NoSize` or `Length`. `Read` if a read failed. `Memory` if memory ran out.
fn said_group<S: BlockSource>(
    alloc: Global,
    source: &mut S,
) -> Result<(Group, Vec<Group>), DetectError>
    requires size { (S.known source.old).size < 2 ^ 63 }
    requires none { WhereHeld (S.agrees source.old) NonePlain }
    ensures source { Looks S.BlockSource source.old source.new result }
    ensures found { IfOk result (λ said. WhereHeld (S.agrees source.new) (λ bytes. IsWholeGroup bytes said.0)) }
    ensures lies { IfOk result (λ said. LiesIn (S.known source.old).size said.0) }
    ensures whole { IfOk result (λ said. end_of_last said.0 ≤ (S.known source.old).size) }
    ensures groups { IfOk result (λ said. WhereHeld (S.agrees source.new) (λ bytes. AreGroups (heads_of bytes) said.1.items)) }
    ensures within { IfOk result (λ said. All (IsWithin ((S.known source.old).size / step)) said.1.items) }
    ensures refused { IfErr result (IsDetectError (S.known source.old) (S.agrees source.new)) }
{
    let Some(groups) = read_groups(alloc, source)? else {
        return Err(DetectError::Undetected(Undetected::NoSize));
    };
    if groups.is_empty() {
        return Err(DetectError::Undetected(Undetected::NoHeader));
    }
    let Some(group) = image_among(groups.as_slice()) else {
        return Err(DetectError::Undetected(Undetected::NoSize));
    };
    let rest = source.len() - group.last;
    if rest < group.size {
        return Err(DetectError::Undetected(Undetected::Length(group.size, rest)));
    }
    Ok((group, groups))
}

/// The image that the headers of a source say, if none plainly is.
#[derive(Drop)]
struct SaidImage {
    /// Its group.
    group: Group,
    /// The pages that its eraseblocks may have.
    ways: Ways,
    /// The groups of all headers.
    groups: Vec<Group>,
}

/// The image that the headers of a source say, if none plainly is.
///
/// # Errors
///
/// `Undetected` with `NoHeader`, `NoSize` or `Length`. `Read` if a read failed. `Memory` if memory ran out.
fn said_image<S: BlockSource>(alloc: Global, source: &mut S) -> Result<SaidImage, DetectError>
    requires size { (S.known source.old).size < 2 ^ 63 }
    requires none { WhereHeld (S.agrees source.old) NonePlain }
    ensures source { Looks S.BlockSource source.old source.new result }
    ensures found { IfOk result (λ said. WhereHeld (S.agrees source.new) (λ bytes. IsWholeGroup bytes said.group)) }
    ensures sure { IfOk result (λ said. WhereHeld (S.agrees source.new) (λ bytes. IsTrue (is_sure bytes said.group))) }
    ensures lies { IfOk result (λ said. LiesIn (S.known source.old).size said.group) }
    ensures whole { IfOk result (λ said. end_of_last said.group ≤ (S.known source.old).size) }
    ensures ways { IfOk result (λ said. AreWays said.group said.ways) }
    ensures groups { IfOk result (λ said. WhereHeld (S.agrees source.new) (λ bytes. AreGroups (heads_of bytes) said.groups.items)) }
    ensures within { IfOk result (λ said. All (IsWithin ((S.known source.old).size / step)) said.groups.items) }
    ensures refused { IfErr result (IsDetectError (S.known source.old) (S.agrees source.new)) }
{
    let (group, groups) = said_group(alloc, source)?;
    let ways = Ways::of(alloc, &group)?;
    match is_sure(alloc, source, &group, &ways) {
        Ok(true) => Ok(SaidImage {
            group,
            ways,
            groups,
        }),
        Ok(false) => Err(DetectError::Undetected(Undetected::NoSize)),
        Err(error) => Err(error),
    }
}

/// What is found for the image that the headers of a source say, and the images beside it.
///
/// # Errors
///
/// `Undetected` with `OutOfBand` or `Page`. `Read` if a read failed. `Memory` if memory ran out.
fn tell_said<S: BlockSource>(
    alloc: Global,
    source: &mut S,
    said: &SaidImage,
) -> Result<Found, DetectError>
    requires size { (S.known source.old).size < 2 ^ 63 }
    requires found { WhereHeld (S.agrees source.old) (λ bytes. IsWholeGroup bytes said.now.group) }
    requires sure { WhereHeld (S.agrees source.old) (λ bytes. IsTrue (is_sure bytes said.now.group)) }
    requires lies { LiesIn (S.known source.old).size said.now.group }
    requires whole { end_of_last said.now.group ≤ (S.known source.old).size }
    requires ways { AreWays said.now.group said.now.ways }
    requires groups { WhereHeld (S.agrees source.old) (λ bytes. AreGroups (heads_of bytes) said.now.groups.items) }
    requires within { All (IsWithin ((S.known source.old).size / step)) said.now.groups.items }
    ensures source { Looks S.BlockSource source.old source.new result }
    ensures told { IfOk result (λ found. WhereHeld (S.agrees source.new) (λ bytes. found.geometries.items ≡ told bytes said.now.group)) }
    ensures some { IfOk result (λ found. found.geometries.items ≢ []) }
    ensures images { IfOk result (λ found. WhereHeld (S.agrees source.new) (λ bytes. AreImagesBeside bytes found.geometries.items found.images)) }
    ensures refused { IfErr result (IsUntold (S.known source.old).size (S.agrees source.new) said.now.group) }
{
    let geometries = tell(alloc, source, &said.group, &said.ways)?;
    let Detected { geometry, oob, .. } = geometries[0];
    let among = Among {
        group: &said.group,
        way: &Way { geometry, oob },
        groups: said.groups.as_slice(),
    };
    let images = images_among(alloc, source, &among)?;
    Ok(Found { geometries, images })
}

/// The most bytes that a file has.
const LONGEST: u64 = 0x7FFF_FFFF_FFFF_FFFF;

/// Detects the geometry of a source of which nothing else is known, and which part of it is the image. It uses the erase-counter headers
/// at multiples of 64 that name the same offsets and the same image sequence number, or none, as docs/FORMAT.md says. There is one geometry
/// for each page that Linux lays out so, the least first; each has as many eraseblocks as a device may have. If a source is plainly an
/// image, its first two eraseblocks are read, and single places of the others. Otherwise all of it is read, from its beginning to its end,
/// and the other images are found that lie in it.
///
/// # Errors
///
/// `Undetected` with the first cause that applies: `NoHeader`; `NoSize`, if headers name more than 256 keys, which are two offsets and
/// a number, or if none say a size; `Length`; `NoSize`, if the size isn't sure; `OutOfBand`; `Page`. `Read` if a read failed. `Memory`
/// if memory ran out: it needs at most 128 KiB, however long the source is.
pub fn detect_from<S: BlockSource>(alloc: Global, source: &mut S) -> Result<Found, DetectError>
    ensures source { Looks S.BlockSource source.old source.new result }
    ensures found { IfOk result (λ found. AreDetectedOf (S.agrees source.new) found.geometries.items) }
    ensures some { IfOk result (λ found. found.geometries.items ≢ []) }
    ensures images { IfOk result (λ found. WhereHeld (S.agrees source.new) (λ bytes. AreImagesBeside bytes found.geometries.items found.images)) }
    ensures refused { IfErr result (IsDetectError (S.known source.old) (S.agrees source.new)) }
{
    if source.len() > LONGEST {
        return Err(DetectError::Memory);
    }
    if let Some((group, ways)) = plain_image(alloc, source)? {
        return tell_plain(alloc, source, &group, &ways);
    }
    let said = said_image(alloc, source)?;
    tell_said(alloc, source, &said)
}
