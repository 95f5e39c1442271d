//! Whether two images mean the same.

ghost use Rattle.std.specs.Prelude.{IfErr, IfOk};
ghost use Rattle.ubi_scan.specs.Image.{image_of};
ghost use Rattle.ubi_compare.specs.Compared.{IsCompareError};
ghost use Rattle.ubi_same.specs.Same.{IsSame};

use std::alloc::Global;
use ubi_compare::{CompareError, CompareFault, same_from};
use ubi_media::Geometry;
use ubi_scan::{MemorySource, StreamError};

/// Whether two images of one geometry mean the same. They do exactly if their normal images are equal byte for byte.
///
/// # Errors
///
/// `Left` with the cause for which the first is refused. Otherwise `Right` with that of the second. `Memory` if memory
/// ran out.
pub fn same(
    alloc: Global,
    geometry: &Geometry,
    left: &[u8],
    right: &[u8],
) -> Result<bool, CompareError>
    ensures answer { IfOk result (IsSame (image_of geometry.now left.now) (image_of geometry.now right.now)) }
    ensures refused { IfErr result (IsCompareError (image_of geometry.now left.now) (image_of geometry.now right.now)) }
{
    let mut left = MemorySource::new(left);
    let mut right = MemorySource::new(right);
    match same_from(alloc, geometry, &mut left, &mut right) {
        Ok(answer) => Ok(answer),
        Err(CompareFault::Left(StreamError::Refused(cause))) => Err(CompareError::Left(cause)),
        Err(CompareFault::Right(StreamError::Refused(cause))) => Err(CompareError::Right(cause)),
        Err(
            CompareFault::Left(StreamError::Memory)
            | CompareFault::Right(StreamError::Memory)
            | CompareFault::Memory,
        ) => Err(CompareError::Memory),
        // Reading memory doesn't fail, and nothing is written.
        Err(
            CompareFault::Left(StreamError::Read(..) | StreamError::Write(_))
            | CompareFault::Right(StreamError::Read(..) | StreamError::Write(_)),
        ) => unreachable!(),
    }
}
