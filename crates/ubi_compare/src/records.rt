//! In which fields the records of a volume differ.

ghost use Rattle.std.specs.Prelude.{◌≡◌, OnOk};
ghost use Rattle.ubi_media.specs.Fields.{same_bytes};
ghost use Rattle.ubi_compare.specs.Differences.{record_differences, same_kind};
ghost use Rattle.ubi_compare.specs.inner.Found.{Adds};

use crate::difference::Difference;
use crate::found::Found;
use std::alloc::AllocError;
use ubi_media::{VolKind, VolName, VolumeRecord};

fn is_same_kind(left: VolKind, right: VolKind) -> bool
    ensures { result ≡ same_kind left right }
{
    left == right
}

fn is_same_name(left: &VolName, right: &VolName) -> bool
    ensures { result ≡ same_bytes left.now right.now }
{
    left.as_bytes() == right.as_bytes()
}

/// Adds the fields in which the records of a volume differ.
///
/// # Errors
///
/// Memory ran out.
pub fn compare_records(
    found: &mut Found,
    id: u32,
    left: &VolumeRecord,
    right: &VolumeRecord,
) -> Result<(), AllocError>
    ensures { OnOk result (Adds found.old found.new (record_differences id left.now right.now)) }
{
    let (here, there) = (*left, *right);
    found.add_unless(
        is_same_kind(here.kind, there.kind),
        Difference::Kind {
            id,
            left: here.kind,
            right: there.kind,
        },
    )?;
    found.add_unless(
        here.reserved == there.reserved,
        Difference::Reserved {
            id,
            left: here.reserved,
            right: there.reserved,
        },
    )?;
    found.add_unless(
        here.alignment == there.alignment,
        Difference::Alignment {
            id,
            left: here.alignment,
            right: there.alignment,
        },
    )?;
    found.add_unless(
        here.flags == there.flags,
        Difference::Flags {
            id,
            left: here.flags,
            right: there.flags,
        },
    )?;
    found.add_unless(
        is_same_name(&here.name, &there.name),
        Difference::Name {
            id,
            left: here.name,
            right: there.name,
        },
    )
}
