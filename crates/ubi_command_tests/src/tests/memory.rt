//! The commands where memory is refused: over bytes, and by their words over files.
//!
//! The script check/second/refuse.sh refuses each growth of memory of these tests in turn, and looks for the line that
//! is printed here.

use super::answers::run_line;
use super::build::CONFIG;
use super::fake::{Broken, FakeFiles, Left};
use super::opened::opens_right;
use super::shown::{
    CHANGED, RENAMED, ROOT_CHECKED, ROOT_COUNTS, ROOT_LISTED, ROOT_SHOWN, ROOT_VOLUMES, SMALL,
    SMALL_OBJECT, UPDATED,
};
use std::alloc::{AllocError, Global};
use std::process::Abort;
use std::test::Fail;
use ubi_change::Avoided;
use ubi_files::{Outcome, SidesError, ToolError};
use ubi_media::Geometry;
use ubi_probe::pebs::{
    NORMAL_A, NORMAL_B, NORMAL_C, Peb, ROOT_FIRST, ROOT_SECOND, UNNAMED_FREE, image_of, small,
};
use ubi_probe::texts::bytes_of;
use ubi_reading::{Comparison, Format, run_check, run_geometry, run_list, run_show};
use ubi_scan::MemorySource;
use ubi_writing::{
    Ask, Edits, Pages, VolumeKey, run_change, run_compose, run_extract, run_normalise, run_rename,
    run_update_from,
};

/// A text of a dynamic and a static volume, with an eraseblock each.
const SPEC: &[u8] = b"volume 0 dynamic 20 1 00 root\nleb 0 1 6162\n\
    volume 1 static 2 1 00 boot\nbytes 1 61\nbytes 1 62\n";

/// The normal image of `root`, and three clean free eraseblocks after it.
const SPARES: &[Peb] = &[
    ROOT_FIRST,
    ROOT_SECOND,
    NORMAL_A,
    NORMAL_B,
    NORMAL_C,
    UNNAMED_FREE,
    UNNAMED_FREE,
    UNNAMED_FREE,
];

/// What its volume reads.
const TEXT: &[(&[u8], usize)] = &[(b"A", 384), (b"B", 384), (b"C", 384), (b"\xFF", 6528)];

/// Whether a command answered a text. If not, memory ran out.
fn is_told(rt: &impl Abort, answer: Result<Outcome, AllocError>, text: &str) -> bool {
    match answer {
        Ok(outcome) => {
            assert!(rt; outcome.text.as_slice() == text.as_bytes());
            true
        }
        Err(AllocError) => false,
    }
}

/// Whether a command answered a text and wrote all bytes into zeros. If not, memory ran out, no read and no write
/// failed, and nothing was written.
fn is_written(
    rt: &impl Abort,
    answer: Result<Outcome, ToolError>,
    text: &str,
    written: &[u8],
    want: &[u8],
) -> bool {
    match answer {
        Ok(outcome) => {
            assert!(rt; outcome.text.as_slice() == text.as_bytes());
            assert!(rt; written == want);
            true
        }
        Err(error) => {
            assert_eq!(rt; error, ToolError::Memory);
            for byte in written {
                assert!(rt; *byte == 0);
            }
            false
        }
    }
}

/// Whether `extract` wrote the whole volume.
fn is_extracted(
    rt: &impl Abort,
    alloc: Global,
    geometry: &Geometry,
    image: &[u8],
    text: &[u8],
) -> bool {
    let mut written = [0; 7680];
    let answer = run_extract(
        alloc,
        geometry,
        image,
        VolumeKey::Id(0),
        &mut written.as_mut_slice(),
    );
    is_written(rt, answer, "bytes 7680\n", &written, text)
}

/// Whether `normalise` wrote the whole normal image.
fn is_normalised(rt: &impl Abort, alloc: Global, geometry: &Geometry, image: &[u8]) -> bool {
    let mut written = [0; 2560];
    let mut source = MemorySource::new(image);
    let answer = run_normalise(alloc, geometry, &mut source, &mut written.as_mut_slice());
    is_written(rt, answer, "blocks 5\n", &written, image)
}

/// Whether `root` was replaced by a volume of no byte, which takes no eraseblock. If not, memory ran out: before the image was written, and
/// nothing was; or while it was, and not all was.
fn is_updated(rt: &impl Abort, alloc: Global, geometry: &Geometry, image: &[u8]) -> bool {
    let mut written = [0; 3584];
    let mut pages = Pages::of(alloc, MemorySource::new(&[]));
    let answer = run_update_from(
        alloc,
        geometry,
        &mut MemorySource::new(image),
        &Avoided::nothing(),
        &Edits {
            asks: &[Ask::Contents("root=none.img", 0, 0)],
            volumes: &[],
            paths: &["none.img"],
        },
        None,
        &mut written.as_mut_slice(),
        &mut pages,
    );
    match answer {
        Ok(outcome) => {
            let text = outcome.text.as_slice();
            assert!(rt; text.starts_with(b"volume 1 replaces 0 lebs=0 name=root\n"));
            assert!(rt; text.ends_with(RENAMED.as_bytes()));
            true
        }
        Err(ToolError::Write) => {
            assert!(rt; written.ends_with(&[0; 512]));
            false
        }
        Err(error) => {
            assert_eq!(rt; error, ToolError::Memory);
            assert!(rt; !written.iter().any(|byte| *byte != 0));
            false
        }
    }
}

/// A byte of logical eraseblock 2 of the image.
const OTHER_BYTE: usize = 2560 - 384;

/// What `diff` prints for the image and the one with another byte there.
const DIFFERENT: &str = "volume 0 lebs 2\ndifferent\n";

const DIFFERENT_OBJECT: &str =
    "{\"differences\":[{\"first\":2,\"id\":0,\"last\":2,\"what\":\"lebs\"}],\"same\":false}\n";

/// Whether two images were compared. If not, memory ran out.
fn is_compared(
    rt: &impl Abort,
    alloc: Global,
    geometry: &Geometry,
    (how, left, right): (Comparison, &[u8], &[u8]),
    text: &str,
) -> bool {
    let (mut left, mut right) = (MemorySource::new(left), MemorySource::new(right));
    match how.answer(alloc, geometry, &mut left, &mut right) {
        Ok(outcome) => is_told(rt, Ok(outcome), text),
        Err(SidesError::Memory) => false,
        Err(SidesError::Left | SidesError::Right) => panic!(rt; "no read fails"),
    }
}

/// The first bytes of the image.
fn image(alloc: Global, geometry: &Geometry, len: usize) -> Result<Vec<u8>, AllocError> {
    let mut bytes = image_of(alloc, geometry, SPARES)?;
    bytes.truncate(len);
    Ok(bytes)
}

/// Whether each command answered. If not, memory ran out.
fn tells_all(rt: &impl Abort, alloc: Global, geometry: &Geometry) -> Result<bool, AllocError> {
    let (root, spare) = (image(alloc, geometry, 2560)?, image(alloc, geometry, 3072)?);
    let (spares, text) = (image(alloc, geometry, 3584)?, bytes_of(alloc, TEXT)?);
    let mut other = image(alloc, geometry, 2560)?;
    if let Some(byte) = other.as_mut_slice().get_mut(OTHER_BYTE) {
        *byte = b'c';
    }
    let (image, spare) = (root.as_slice(), spare.as_slice());
    let changed = run_change(alloc, geometry, spare, 0, 1, &[0x61; 64], None);
    let renamed = run_rename(alloc, geometry, spares.as_slice(), 0, b"data", None);
    let told = [
        is_told(rt, run_geometry(alloc, image), SMALL),
        is_told(rt, run_list(alloc, geometry, image), ROOT_LISTED),
        is_told(rt, run_check(alloc, geometry, image), ROOT_CHECKED),
        is_told(rt, run_show(alloc, geometry, image, 4), ROOT_SHOWN),
        is_extracted(rt, alloc, geometry, image, text.as_slice()),
        is_normalised(rt, alloc, geometry, image),
        is_compared(
            rt,
            alloc,
            geometry,
            (Comparison::Same(Format::Text), image, image),
            "same\n",
        ),
        is_compared(
            rt,
            alloc,
            geometry,
            (Comparison::Diff(Format::Text), image, other.as_slice()),
            DIFFERENT,
        ),
        is_compared(
            rt,
            alloc,
            geometry,
            (Comparison::Diff(Format::Json), image, other.as_slice()),
            DIFFERENT_OBJECT,
        ),
        is_told(rt, run_compose(alloc, geometry, SPEC, 1, 0), "blocks 5\n"),
        is_told(rt, changed, CHANGED),
        is_told(rt, renamed, RENAMED),
        is_updated(rt, alloc, geometry, spares.as_slice()),
    ];
    Ok(!told.contains(&false))
}

#[test]
fn tells_all_or_runs_out_of_memory(rt: HostRuntime) -> Result<(), Fail> {
    if tells_all(&rt, rt.alloc(), &small()?) != Ok(true) {
        println!(rt; "out of memory")?;
    }
    Ok(())
}

/// The words of a command, how many bytes of the image they are over, what is answered, and how many bytes are written.
static WORDS: [(&str, usize, &str, usize); 19] = [
    ("geometry a", 2560, SMALL, 0),
    ("geometry a --format json", 2560, SMALL_OBJECT, 0),
    (
        "check a --format json --peb 512 --page 64",
        2560,
        ROOT_COUNTS,
        0,
    ),
    (
        "list a --format json --peb 512 --page 64 --pebs 32",
        2560,
        ROOT_VOLUMES,
        0,
    ),
    ("list a --peb 512 --page 64 --pebs 32", 2560, ROOT_LISTED, 0),
    ("show a --block 4 --peb 512 --page 64", 2560, ROOT_SHOWN, 0),
    ("map a --peb 512 --page 64", 2560, "      0 ttuuu\n", 0),
    (
        "extract a --id 0 --out b --peb 512 --page 64",
        2560,
        "bytes 7680\n",
        7680,
    ),
    (
        "unpack a --out made --peb 512 --page 64",
        2560,
        "volume 0 bytes=7680 name=root\n",
        // The volume, and its config.
        7680 + 216,
    ),
    (
        "normalise a --out b --peb 512 --page 64",
        2560,
        "blocks 5\n",
        2560,
    ),
    (
        "normalise a --out a --peb 512 --page 64",
        2560,
        "blocks 5\n",
        2560,
    ),
    ("same a b --peb 512 --page 64", 2560, "same\n", 0),
    ("diff a b --peb 512 --page 64", 2560, "same\n", 0),
    (
        "same a b --format json --peb 512 --page 64",
        2560,
        "{\"same\":true}\n",
        0,
    ),
    (
        "diff a b --format json --peb 512 --page 64",
        2560,
        "{\"differences\":[],\"same\":true}\n",
        0,
    ),
    (
        "change a --id 0 --lnum 1 --from new.bin --out b --peb 512 --page 64",
        3072,
        CHANGED,
        3072,
    ),
    (
        "rename a --id 0 --name data --out b --peb 512 --page 64",
        3584,
        RENAMED,
        3584,
    ),
    (
        "update a --write root=new.bin --out b --peb 512 --page 64",
        4096,
        UPDATED,
        4096,
    ),
    (
        "update a --rename root=data --resize root=1152 --out b --peb 512 --page 64",
        3584,
        RENAMED,
        3584,
    ),
];

/// Those that are over the text, and over a config.
const COMPOSE: &str = "compose a --spares 1 --out b --peb 512 --page 64";

const BUILD: &str = "build a --out b --peb 512 --page 64";

/// Whether the words of a line answered a text, over files that each hold an image, and wrote so many bytes. If
/// not, memory ran out, and no part of the output was written.
fn is_run(
    rt: &impl Abort,
    alloc: Global,
    image: &[u8],
    line: &str,
    (text, count): (&str, usize),
) -> bool {
    let left = Left::new(alloc);
    let files = FakeFiles {
        image,
        new: &[0x61; 64],
        broken: Broken::Nothing,
        left: &left,
    };
    let answer = run_line(&files, alloc, line);
    let (written, opened) = (left.written.into_inner().len(), left.opened.into_inner());
    match answer {
        Ok(outcome) if written == count => {
            assert!(rt; outcome.text.as_slice() == text.as_bytes());
            assert_eq!(rt; outcome.status, 0);
            assert!(rt; opens_right(line, &outcome, written == 0, opened.as_str()));
            true
        }
        Ok(outcome) => {
            // The fake file itself had no memory to keep what it was given.
            assert!(rt; outcome.text.as_slice().starts_with(b"cannot write "));
            false
        }
        Err(AllocError) => {
            assert_eq!(rt; written, 0);
            assert!(rt; opened.is_empty());
            false
        }
    }
}

/// Whether each line ran. If not, memory ran out.
fn runs_all(rt: &impl Abort, alloc: Global, geometry: &Geometry) -> Result<bool, AllocError> {
    let mut ran = is_run(rt, alloc, SPEC, COMPOSE, ("blocks 5\n", 2560));
    ran = is_run(rt, alloc, CONFIG, BUILD, ("blocks 3\n", 1536)) && ran;
    for (words, len, text, count) in &WORDS {
        let image = image(alloc, geometry, *len)?;
        ran = is_run(rt, alloc, image.as_slice(), words, (text, *count)) && ran;
    }
    Ok(ran)
}

#[test]
fn runs_words_or_out_of_memory(rt: HostRuntime) -> Result<(), Fail> {
    if runs_all(&rt, rt.alloc(), &small()?) != Ok(true) {
        println!(rt; "out of memory")?;
    }
    Ok(())
}
