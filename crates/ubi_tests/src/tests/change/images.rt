//! Images in eraseblocks of several sizes, what a change of them is answered, and what each cut of a plan means.

use super::places::place_of;
use std::alloc::Global;
use std::process::Abort;
use std::test::Fail;
use ubi_change::{ChangeRefusal, Step, apply, plan_change, step_fits};
use ubi_media::{AttachError, Geometry};
use ubi_volume::{Attached, Meaning, attach};

/// The sizes of a geometry, as they are handed to `Geometry::new`.
#[derive(Clone, Copy)]
pub struct Sizes(pub u32, pub u32, pub u32, pub u32);

/// Eraseblocks of 512 bytes: 8 pages, the headers in the first two.
pub const SMALL: Sizes = Sizes(512, 64, 64, 128);

/// Eraseblocks of 1,024 bytes in 4 pages, with both headers in the first.
pub const SHARED: Sizes = Sizes(1024, 256, 64, 256);

/// The same with the volume-identifier header inside the second page.
pub const INSIDE: Sizes = Sizes(1024, 256, 320, 512);

/// Eraseblocks of 1,024 bytes in 2 pages, with both headers in the first: a table takes one page.
pub const ONE_PAGE: Sizes = Sizes(1024, 512, 64, 512);

/// Eraseblocks of 9 pages of 64 bytes.
pub const ODD: Sizes = Sizes(576, 64, 64, 128);

/// Eraseblocks of 128 KiB in 64 pages, as chips have them, with a page for each header.
pub const LARGE: Sizes = Sizes(131_072, 2048, 2048, 4096);

/// The same with both headers in the first page, in sub-pages of 512 bytes.
pub const LARGE_SHARED: Sizes = Sizes(131_072, 2048, 512, 2048);

impl Sizes {
    /// The geometry of a device of 32 eraseblocks.
    pub fn geometry(&self) -> Result<Geometry, Fail> {
        Ok(Geometry::new(self.0, self.1, self.2, self.3, 32)?)
    }
}

/// What a change of a volume is answered. It has no contract, so that a proof of a caller is spared that of
/// `plan_change`.
pub fn planned(
    alloc: Global,
    geometry: &Geometry,
    image: &[u8],
    (id, lnum): (u32, u32),
    new: &[u8],
) -> Result<Vec<Step>, ChangeRefusal> {
    plan_change(alloc, geometry, image, id, lnum, new)
}

/// An image, attached. It has no contract, as `planned`.
pub fn attached(alloc: Global, geometry: &Geometry, image: &[u8]) -> Result<Attached, AttachError> {
    attach(alloc, geometry, image)
}

/// Does a step, which has to fit.
pub fn assert_done(rt: &impl Abort, geometry: &Geometry, image: &mut [u8], step: &Step) {
    assert!(*rt; step_fits(geometry, image, step));
    apply(geometry, image, step);
}

/// Asserts what an image means.
pub fn assert_means(
    rt: &impl Abort,
    alloc: Global,
    geometry: &Geometry,
    image: &[u8],
    want: &Meaning,
) -> Result<(), Fail> {
    let here = attached(alloc, geometry, image)?;
    assert!(*rt; here.meaning() == want);
    Ok(())
}

/// Does steps, and asserts where they are, and that each cut before one means the old, or the new once so many are done.
pub fn assert_walk(
    rt: &impl Abort,
    alloc: Global,
    geometry: &Geometry,
    image: &mut [u8],
    (steps, places): (&[Step], &[(u32, u32)]),
    (old, new, turn): (&Meaning, &Meaning, usize),
) -> Result<(), Fail> {
    assert!(*rt; steps.len() == places.len());
    for (done, (step, place)) in steps.iter().zip(places).enumerate() {
        let want = if done < turn { old } else { new };
        assert_means(rt, alloc, geometry, image, want)?;
        assert!(*rt; place_of(step) == *place);
        assert_done(rt, geometry, image, step);
    }
    Ok(())
}
