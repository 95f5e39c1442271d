//! Renames of a volume, by a call of their own.

use super::images::{INSIDE, LARGE, LARGE_SHARED, ODD, ONE_PAGE, SHARED, SMALL, Sizes};
use super::update::edits::{Asked, planned_anywhere};
use std::alloc::Global;
use std::test::Fail;
use ubi_change::{RenameRefusal, Step, plan_rename};
use ubi_media::Geometry;
use ubi_probe::pebs::{A, B, C, FIRST, FREE, Peb, SECOND, image_of};

/// What a rename is answered. It has no contract, so that a proof of a caller is spared that of `plan_rename`.
pub fn planned(
    alloc: Global,
    geometry: &Geometry,
    image: &[u8],
    id: u32,
    name: &[u8],
) -> Result<Vec<Step>, RenameRefusal> {
    plan_rename(alloc, geometry, image, id, name)
}

/// Three logical eraseblocks, and two free eraseblocks.
static PEBS: [Peb; 7] = [FIRST, SECOND, A, B, C, FREE, FREE];

/// Whether a rename has the steps of that edit, in eraseblocks of a size.
fn is_that_edit(alloc: Global, sizes: &Sizes) -> Result<bool, Fail> {
    let geometry = sizes.geometry()?;
    let image = image_of(alloc, &geometry, &PEBS)?;
    let Ok(steps) = planned(alloc, &geometry, image.as_slice(), 0, b"data") else {
        return Err("no plan".into());
    };
    let asked = [Asked::Rename(0, b"data")];
    let Ok(groups) = planned_anywhere(alloc, &geometry, image.as_slice(), &[], &asked)? else {
        return Err("no plan of edits".into());
    };
    let (mut is, mut done) = (true, 0usize);
    for group in &groups {
        for step in group {
            is = is && steps.as_slice().get(done) == Some(step);
            done = done.saturating_add(1);
        }
    }
    Ok(is && done == steps.len())
}

#[test]
fn renames_as_that_edit_does(rt: HostRuntime) -> Result<(), Fail> {
    for sizes in &[SMALL, ODD, SHARED, ONE_PAGE, INSIDE, LARGE, LARGE_SHARED] {
        assert!(rt; is_that_edit(rt.alloc(), sizes)?);
    }
    Ok(())
}
