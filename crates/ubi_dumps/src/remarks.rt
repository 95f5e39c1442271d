//! What is said to standard error about how a dump is read, so that nothing is left out without a word.

ghost use Rattle.std.specs.Prelude.{◌≡◌, ◌↔◌, IsOkAnd, IsTrue};

use crate::dump::KnownDump;
use std::alloc::{AllocError, Global};
use ubi_files::{DONE, FilePart, Frame, Outcome, Unread};
use ubi_media::Geometry;
use ubi_scan::{BlockSource, block_count, count_passed_over, first_anchor};

/// Says which bytes of a file are read, if its headers show that these aren't all `len` bytes of the part in which they were looked for.
pub fn remark_part<R: Eprint>(
    rt: &R,
    path: &str,
    part: FilePart,
    len: u64,
    found: &Result<KnownDump<'_>, Unread>,
) {
    let Ok(known) = found else {
        return;
    };
    let FilePart { start, length } = known.dump.part;
    let length = length.unwrap_or(len);
    if start == part.start && length == len {
        return;
    }
    let last = start.saturating_add(length.saturating_sub(1));
    let _ = rt.eprintln(format_args!("reads bytes {start} to {last} of {path}"));
}

/// Says from where eraseblocks are counted, if they aren't counted from the beginning of the file.
pub fn remark_start<R: Eprint>(rt: &R, path: &str, frame: &Frame<'_>) {
    let start = frame.dump.part.start;
    if frame.dump.counts_before && start % frame.raw_size() != 0 {
        let _ = rt.eprintln(format_args!("counts eraseblocks from byte {start} of {path}"));
    }
}

/// Whether work came to an outcome, and was done.
pub fn is_done<E>(work: &Result<Outcome, E>) -> bool
    ensures { IsTrue result ↔ IsOkAnd work.now (λ o. o.status ≡ 0) }
{
    match work {
        Ok(outcome) => outcome.status == DONE,
        Err(_) => false,
    }
}

/// Says how many eraseblocks of a source hold something that isn't read, if some do. Where they can't be counted, nothing is said.
pub fn remark_passed_over<R: Eprint, S: BlockSource>(
    rt: &R,
    alloc: Global,
    geometry: &Geometry,
    source: &mut S,
    path: &str,
) {
    let Ok(count) = block_count(geometry, source.len()) else {
        return;
    };
    match count_passed_over(alloc, geometry, source, count) {
        Ok(passed) if passed > 0 => {
            let _ = rt.eprintln(format_args!(
                "leaves out {passed} eraseblocks of {path} that hold something: `map` shows which"
            ));
        }
        _ => {}
    }
}

/// Says that a fastmap begins in an eraseblock of a source, if one does.
pub fn remark_anchor<R: Eprint, S: BlockSource>(
    rt: &R,
    alloc: Global,
    geometry: &Geometry,
    source: &mut S,
    path: &str,
) {
    let Ok(count) = block_count(geometry, source.len()) else {
        return;
    };
    if let Ok(Some(p)) = first_anchor(alloc, geometry, source, count) {
        let _ = rt.eprintln(format_args!(
            "{path} has a fastmap, which begins in eraseblock {p}: a kernel that attaches by it misses this plan, so erase that first, and plan again"
        ));
    }
}
