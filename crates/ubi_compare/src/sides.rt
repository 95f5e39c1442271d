//! A volume of one of the two images that are compared.

ghost use Rattle.std.specs.Prelude.{◌≡◌, OnOk};
ghost use Rattle.ubi_compare.specs.Differences.{same_condition};
ghost use Rattle.ubi_compare.specs.inner.Found.{Adds};
ghost use Rattle.ubi_compare.specs.inner.Sides.{case_condition, case_lengths};

use crate::difference::{Condition, Difference};
use crate::found::Found;
use std::alloc::AllocError;
use ubi_media::VolumeRecord;
use ubi_volume::{PlaceContent, Surveyed};

/// A volume of one of two images.
#[derive(Clone, Copy)]
pub struct OneSide<'a> {
    /// What is known of its image.
    pub survey: &'a Surveyed,
    /// Its record.
    pub entry: &'a VolumeRecord,
    /// What it reads, without its bytes.
    pub case: PlaceContent,
}

/// Whether a volume can be read, by its case.
pub fn condition_of(case: PlaceContent) -> Condition
    ensures { result ≡ case_condition case }
{
    match case {
        PlaceContent::Updating => Condition::Updating,
        PlaceContent::Damaged => Condition::Damaged,
        PlaceContent::Static { .. } | PlaceContent::Dynamic => Condition::Whole,
    }
}

/// Whether the conditions of two volumes are the same.
pub fn is_same_condition(left: Condition, right: Condition) -> bool
    ensures { result ≡ same_condition left right }
{
    left == right
}

/// Adds the lengths of two static volumes, if they differ.
///
/// # Errors
///
/// Memory ran out.
pub fn compare_lengths(
    found: &mut Found,
    id: u32,
    left: PlaceContent,
    right: PlaceContent,
) -> Result<(), AllocError>
    ensures { OnOk result (Adds found.old found.new (case_lengths id left right)) }
{
    let (PlaceContent::Static { bytes: left, .. }, PlaceContent::Static { bytes: right, .. }) = (
        left, right,
    ) else {
        return Ok(());
    };
    found.add_unless(left == right, Difference::Bytes { id, left, right })
}
