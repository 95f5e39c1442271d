//! Dumps of which no number is typed, and whose reads fail.

use super::answers::{is_answer, run_own};
use super::contents::Contents;
use super::fake::Broken;
use std::io::ErrorKind;
use std::test::Fail;

/// Reads that fail while the headers are looked for, or after that; and those that aren't reported: one that reads ahead, since what is
/// asked for is read alone then, and sequential ones of a file that is read at places.
static FAILURES: [(Broken, bool); 5] = [
    (Broken::OpenRead, true),
    (Broken::Read(ErrorKind::Other, 0), true),
    (Broken::Read(ErrorKind::Other, 3000), true),
    (Broken::PlacesOnce(ErrorKind::Other, 100), false),
    (Broken::Whole, false),
];

#[test]
fn tells_a_file_that_fails(rt: HostRuntime) -> Result<(), Fail> {
    let alloc = rt.alloc();
    let image = Contents::Spares.bytes(alloc)?;
    for (broken, fails) in FAILURES {
        for line in [
            "check a.img",
            "normalise a.img --out b.img",
            "same a.img a.img",
        ] {
            let files = (image.as_slice(), image.as_slice());
            let (outcome, _) = run_own(alloc, files, broken, line)?;
            let is_told = is_answer(&outcome, ("cannot read a.img\n", 1));
            assert!(rt; is_told == fails, "of {line}, {broken:?}");
        }
    }
    Ok(())
}
