//! Comparing what two images mean.

use super::images::Image;
use std::test::Fail;
use ubi_compare::{CompareError, CompareFault, same_from};
use ubi_media::Refusal;
use ubi_probe::ProbeSource;
use ubi_probe::pebs::small;
use ubi_same::same;
use ubi_scan::{MemorySource, StreamError};

/// Two images, and whether they mean the same, or the side that is refused.
static COMPARED: [(Image, Image, Result<bool, CompareError>); 22] = [
    (Image::NormalRoot, Image::UsedRoot, Ok(true)),
    (Image::UsedRoot, Image::UsedRoot, Ok(true)),
    (Image::NormalRoot, Image::TurnedRoot, Ok(true)),
    (Image::TurnedRoot, Image::NormalRoot, Ok(true)),
    (Image::NormalRoot, Image::NormalDamaged, Ok(false)),
    (Image::Blank(512), Image::NormalRoot, Ok(false)),
    // The number of the image.
    (Image::NormalRoot, Image::UnnamedRoot, Ok(false)),
    (Image::UnnamedRoot, Image::UnnamedRoot, Ok(true)),
    // The last byte of the last logical eraseblock, that it is mapped, and a record.
    (Image::NormalRoot, Image::OtherRoot, Ok(false)),
    (Image::OtherRoot, Image::NormalRoot, Ok(false)),
    (Image::NormalRoot, Image::ShorterRoot, Ok(false)),
    (Image::ShorterRoot, Image::NormalRoot, Ok(false)),
    (Image::NormalRoot, Image::WiderRoot, Ok(false)),
    (Image::WiderRoot, Image::NormalRoot, Ok(false)),
    // The size of contents, after which their eraseblock has 0xFF.
    (Image::NormalText, Image::NormalText, Ok(true)),
    (Image::NormalText, Image::NormalLongerText, Ok(false)),
    (Image::NormalLongerText, Image::NormalText, Ok(false)),
    (Image::NormalText, Image::NormalDamaged, Ok(false)),
    (Image::NormalDamaged, Image::NormalText, Ok(false)),
    // Bytes that are no image.
    (
        Image::Blank(511),
        Image::Blank(512),
        Err(CompareError::Left(Refusal::Length)),
    ),
    (
        Image::Blank(511),
        Image::Blank(0),
        Err(CompareError::Left(Refusal::Length)),
    ),
    (
        Image::Blank(512),
        Image::Blank(511),
        Err(CompareError::Right(Refusal::Length)),
    ),
];

#[test]
fn tells_what_means_the_same(rt: HostRuntime) -> Result<(), Fail> {
    let alloc = rt.alloc();
    for (index, (left, right, want)) in COMPARED.iter().enumerate() {
        let (left, right) = (left.bytes(alloc)?, right.bytes(alloc)?);
        let answer = same(alloc, &small()?, left.as_slice(), right.as_slice());
        assert!(rt; answer == *want, "case {index}");
    }
    Ok(())
}

/// A read that fails, and its eraseblock: the first, and the second of the three that compare logical eraseblocks. Six
/// are made before those, to attach the image.
static READS: [(u64, u32); 2] = [(1, 0), (8, 3)];

#[test]
fn tells_the_side_whose_read_fails(rt: HostRuntime) -> Result<(), Fail> {
    let alloc = rt.alloc();
    let geometry = small()?;
    let image = Image::NormalRoot.bytes(alloc)?;
    let image = image.as_slice();
    for (at, p) in READS {
        let mut whole = MemorySource::new(image);
        let mut broken = ProbeSource::new(alloc, &geometry, image, at)?;
        let answer = same_from(alloc, &geometry, &mut broken, &mut whole);
        assert!(rt; answer == Err(CompareFault::Left(StreamError::Read(p, 0))));
        let mut broken = ProbeSource::new(alloc, &geometry, image, at)?;
        let answer = same_from(alloc, &geometry, &mut whole, &mut broken);
        assert!(rt; answer == Err(CompareFault::Right(StreamError::Read(p, 0))));
    }
    Ok(())
}
