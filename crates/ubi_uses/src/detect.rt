//! A caller of `ubi_detect`.

ghost use Rattle.std.specs.Prelude.{◌≡◌, ◌∷◌, IfOk, List};
ghost use Rattle.ubi_detect.specs.Detected.{AreDetectedOf};
ghost use Rattle.ubi_detect.specs.declared.detect.Detected.{Detected};

use std::alloc::Global;
use ubi_detect::{DetectError, detect_from};
use ubi_scan::BlockSource;

/// Where an image begins in a source of which nothing else is known.
pub fn start_of<S: BlockSource>(alloc: Global, source: &mut S) -> Result<u64, DetectError>
    ensures { IfOk result (λ start. (first : Detected) × (more : List Detected) × AreDetectedOf (S.agrees source.new) (first ∷ more) × (start ≡ first.start)) }
{
    let found = detect_from(alloc, source)?;
    Ok(found.geometries[0].start)
}
