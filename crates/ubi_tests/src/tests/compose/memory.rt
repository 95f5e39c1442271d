//! Reading a text, and building an image, where memory is refused.

use std::alloc::Global;
use std::test::Fail;
use ubi_compose::{BuildError, Recipe, RecipeError, SpecError, build_to, parse_spec};
use ubi_laid::Part;
use ubi_probe::pebs::small;
use ubi_probe::records::BOOT;
use ubi_probe::{Failure, ProbeWriter};
use ubi_scan::MemorySource;
use ubi_volume::Content;

/// A text with each kind of line.
const TEXT: &[u8] =
    b"volume 7 static 3 1 00 text\nvolume 2 dynamic 3 1 00 map\nvolume 3 dynamic 3 1 00 half\n\
    volume 0 static 3 1 00 torn\nbytes 7 61\nleb 2 1 6Aff\nupdating 3\nbytes 7 6263\ndamaged 0\n";

/// The script check/second/refuse.sh refuses each growth of memory in turn, and looks for the line that is printed
/// here.
#[test]
fn reads_all_or_runs_out_of_memory(rt: HostRuntime) -> Result<(), Fail> {
    let volumes = match parse_spec(rt.alloc(), &small()?, TEXT) {
        Ok(volumes) => volumes,
        Err(SpecError::Memory) => {
            println!(rt; "out of memory")?;
            return Ok(());
        }
        Err(SpecError::Refused { .. }) => return Err("refused".into()),
    };
    assert!(rt; volumes.len() == 4);
    match &volumes.as_slice()[0].1.content {
        Content::Static(text) => assert!(rt; text.as_slice() == b"abc".as_slice()),
        _ => return Err("not a text".into()),
    }
    Ok(())
}

/// Three bytes of a static volume, for the recipe of an image.
fn boot() -> Result<Part, Fail> {
    let entry = BOOT.volume().ok_or("no name")?;
    Ok(Part {
        id: 0,
        entry,
        start: 0,
        len: 3,
    })
}

/// What a build of that volume answers.
fn build_boot(
    alloc: Global,
    parts: Vec<Part>,
    writer: &mut ProbeWriter,
) -> Result<Result<u64, BuildError>, Fail> {
    match Recipe::new(alloc, &small()?, 7, parts) {
        Ok(recipe) => Ok(build_to(alloc, &recipe, 0, &mut MemorySource::new(b"abc"), writer)),
        Err(RecipeError::Memory) => Ok(Err(BuildError::Memory)),
        Err(RecipeError::Refused(_)) => Err("refused".into()),
    }
}

/// Each growth is refused in turn here too. Where memory runs out while building, nothing was written.
#[test]
fn builds_all_or_runs_out_of_memory(rt: HostRuntime) -> Result<(), Fail> {
    let mut parts = Vec::new(rt.alloc());
    let pushed = parts.push(boot()?);
    let writer = ProbeWriter::new(rt.alloc(), 1536, 512, Failure::Nothing);
    let (Ok(()), Ok(mut writer)) = (pushed, writer) else {
        println!(rt; "out of memory")?;
        return Ok(());
    };
    let answer = build_boot(rt.alloc(), parts, &mut writer)?;
    if answer == Err(BuildError::Memory) {
        assert!(rt; writer.taken().is_empty());
        println!(rt; "out of memory")?;
    } else {
        assert!(rt; answer == Ok(1536) && writer.taken().len() == 1536);
    }
    Ok(())
}
