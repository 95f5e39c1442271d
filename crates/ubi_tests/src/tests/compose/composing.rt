//! Composing and normalising.

use super::images::Image;
use std::alloc::Global;
use std::test::Fail;
use ubi_compose::{ComposeError, compose, normalise};
use ubi_media::{AttachError, Geometry, Refusal};
use ubi_probe::header_bytes::NAMED_EC;
use ubi_probe::pebs::small;
use ubi_volume::{Meaning, attach};

/// An image, and its normal image.
static NORMALISED: [(Image, Image); 3] = [
    (Image::Blank(1536), Image::NormalTable),
    (Image::UsedRoot, Image::NormalRoot),
    // It has one eraseblock, which is kept.
    (Image::NormalDamaged, Image::NormalDamaged),
];

/// Whether an image is normalised to some bytes.
fn is_normalised(alloc: Global, geometry: &Geometry, image: &[u8], want: &[u8]) -> bool {
    match normalise(alloc, geometry, image) {
        Ok(normal) => normal.as_slice() == want,
        Err(_) => false,
    }
}

#[test]
fn normalises_images_and_their_normal_images(rt: HostRuntime) -> Result<(), Fail> {
    let (alloc, geometry) = (rt.alloc(), small()?);
    for (index, (image, want)) in NORMALISED.iter().enumerate() {
        let (image, want) = (image.bytes(alloc)?, want.bytes(alloc)?);
        let (image, want) = (image.as_slice(), want.as_slice());
        let is = is_normalised(alloc, &geometry, image, want);
        assert!(rt;
            is && is_normalised(alloc, &geometry, want, want),
            "case {index}"
        );
    }
    let error = normalise(alloc, &geometry, &[0xFF; 511]).err();
    assert!(rt; error == Some(AttachError::Refused(Refusal::Length)));
    Ok(())
}

/// Whether a meaning is composed to some bytes with 27 spare eraseblocks, and has no room for more.
fn is_composed(alloc: Global, meaning: &Meaning, want: &[u8]) -> bool {
    let is = match compose(alloc, meaning, 27) {
        Ok(image) => image.as_slice() == want,
        Err(_) => false,
    };
    let many = compose(alloc, meaning, 28).err();
    let most = compose(alloc, meaning, u32::MAX).err();
    is && many == Some(ComposeError::TooMany) && most == Some(ComposeError::TooMany)
}

/// The normal image of `root` with 27 spare eraseblocks.
fn spared(alloc: Global) -> Result<Vec<u8>, Fail> {
    let mut bytes = Image::NormalRoot.bytes(alloc)?;
    for _ in 0..27 {
        bytes.extend_from_slice(&NAMED_EC)?;
        bytes.extend_from_slice(&[0xFF; 448])?;
    }
    Ok(bytes)
}

#[test]
fn adds_spares_as_far_as_there_is_room(rt: HostRuntime) -> Result<(), Fail> {
    let image = Image::NormalRoot.bytes(rt.alloc())?;
    let attached = attach(rt.alloc(), &small()?, image.as_slice())?;
    let want = spared(rt.alloc())?;
    assert!(rt; is_composed(rt.alloc(), attached.meaning(), want.as_slice()));
    Ok(())
}
