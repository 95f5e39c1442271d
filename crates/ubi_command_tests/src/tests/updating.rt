//! Edits of whole volumes that are asked for by the volumes' names.

use std::alloc::Global;
use std::process::Abort;
use std::test::Fail;
use ubi_change::Avoided;
use ubi_files::{Outcome, ToolError};
use ubi_media::Geometry;
use ubi_probe::pebs::{
    A, B, C, ERASED, FIRST, FIRST_DATA, FREE, Peb, SECOND, SECOND_DATA, image_of, small,
};
use ubi_probe::texts::bytes_of;
use ubi_probe::{Failure, ProbeSource, ProbeWriter};
use ubi_reading::{Format, Reading};
use ubi_scan::{BlockSource, MemorySource};
use ubi_writing::{Ask, Edits, Pages, run_update_from};

/// Bytes that each stand a number of times.
type Runs = &'static [(&'static [u8], usize)];

/// What is asked of an image, and the text of the answer with its status.
struct Case {
    pebs: &'static [Peb],
    contents: Runs,
    asks: &'static [Ask<'static>],
    text: &'static str,
    status: u8,
}

/// What an update answers, what it writes, and the pages that it programs.
#[derive(Drop)]
struct Updated {
    answer: Outcome,
    writer: ProbeWriter,
    pages: Vec<u8>,
}

/// Eraseblock 9 is listed.
const LISTED: [bool; 10] = [
    false, false, false, false, false, false, false, false, false, true,
];

/// What an update of a source answers with contents of another, whose files are called so, and the pages, with the eraseblock 9 listed.
fn answer_with<S: BlockSource, T: BlockSource + Drop>(
    alloc: Global,
    geometry: &Geometry,
    source: &mut S,
    asks: &[Ask<'_>],
    contents: T,
    stop: Option<u32>,
    writer: &mut ProbeWriter,
) -> Result<(Outcome, Vec<u8>), ToolError> {
    let mut pages = Pages::of(alloc, contents);
    let asked = Edits {
        asks,
        volumes: &[],
        paths: &["new.img", "other.img"],
    };
    let answer = run_update_from(
        alloc,
        geometry,
        source,
        &Avoided::new(&LISTED, false, 0, &[]),
        &asked,
        stop,
        writer,
        &mut pages,
    )?;
    let mut programmed = ProbeWriter::new(alloc, 400_000, 4000, Failure::Nothing)?;
    pages.write_to(&mut programmed)?;
    Ok((answer, Vec::from_slice(alloc, programmed.taken())?))
}

/// The same with contents in memory.
fn answer_over<S: BlockSource>(
    alloc: Global,
    geometry: &Geometry,
    source: &mut S,
    (asks, contents): (&[Ask<'_>], &[u8]),
    stop: Option<u32>,
    writer: &mut ProbeWriter,
) -> Result<(Outcome, Vec<u8>), ToolError> {
    let contents = MemorySource::new(contents);
    answer_with(alloc, geometry, source, asks, contents, stop, writer)
}

/// What an update of an image answers.
fn updated_of(
    alloc: Global,
    geometry: &Geometry,
    image: &[u8],
    asked: (&[Ask<'_>], &[u8]),
    stop: Option<u32>,
) -> Result<Updated, Fail> {
    let mut source = MemorySource::new(image);
    let mut writer = ProbeWriter::new(alloc, image.len(), 4000, Failure::Nothing)?;
    let (answer, pages) = answer_over(alloc, geometry, &mut source, asked, stop, &mut writer)?;
    Ok(Updated {
        answer,
        writer,
        pages,
    })
}

/// What the update of a case answers.
fn answered(alloc: Global, case: &Case) -> Result<Updated, Fail> {
    let geometry = small()?;
    let image = image_of(alloc, &geometry, case.pebs)?;
    let contents = bytes_of(alloc, case.contents)?;
    let asked = (case.asks, contents.as_slice());
    updated_of(alloc, &geometry, image.as_slice(), asked, None)
}

/// The volumes `root` and `data`, and four eraseblocks that may be taken.
const TWO: &[Peb] = &[
    FIRST_DATA,
    SECOND_DATA,
    A,
    B,
    C,
    FREE,
    FREE,
    FREE,
    FREE,
    ERASED,
];

/// The volume `root` with four of them.
const ONE: &[Peb] = &[FIRST, SECOND, A, B, C, FREE, FREE, FREE, FREE, ERASED];

/// Contents that end too early, and an eraseblock that is listed and holds something: no words of the program ask for either.
static REFUSED: [Case; 2] = [
    Case {
        pebs: TWO,
        contents: &[(b"a", 7)],
        asks: &[
            Ask::Rename("data=other"),
            Ask::Contents("root=new.img", 5, 3),
        ],
        text: "refused the contents end too early edit=1\n",
        status: 1,
    },
    Case {
        pebs: &[FIRST, SECOND, A, B, C, FREE, FREE, FREE, FREE, FREE],
        contents: &[],
        asks: &[Ask::Rename("root=data")],
        text: "refused K10 NotBlank block=9\n",
        status: 1,
    },
];

/// Each is told, and nothing is written.
#[test]
fn tells_why_nothing_is_updated(rt: HostRuntime) -> Result<(), Fail> {
    for case in &REFUSED {
        let updated = answered(rt.alloc(), case)?;
        assert!(rt;
            updated.answer.text.as_slice() == case.text.as_bytes(),
            "{}",
            case.text
        );
        assert!(rt; updated.answer.status == case.status, "{}", case.text);
        assert!(rt; updated.writer.taken().is_empty() && updated.pages.is_empty());
    }
    Ok(())
}

/// A volume of two logical eraseblocks takes the place of `root`.
static REPLACED: Case = Case {
    pebs: ONE,
    contents: &[(b"-", 3), (b"a", 384), (b"b", 16)],
    asks: &[Ask::Contents("root=new.img", 3, 400)],
    text: "volume 1 replaces 0 lebs=2 name=root\nsteps 27\n",
    status: 0,
};

/// The lines of `list` behind that of the geometry.
fn listed(alloc: Global, geometry: &Geometry, image: &[u8]) -> Result<Vec<u8>, Fail> {
    let mut source = MemorySource::new(image);
    let answer = Reading::List(Format::Text).answer(alloc, geometry, &mut source)?;
    let text = answer.text.as_slice();
    let end = text
        .iter()
        .position(|byte| *byte == b'\n')
        .ok_or("no line")?;
    Ok(Vec::from_slice(alloc, &text[end.saturating_add(1)..])?)
}

/// What `list` prints of the old volume, and of the new one.
const OLD_LIST: &str =
    "volume 0 dynamic reserved=20 alignment=1 usable=126976 flags=00 lebs=3 name=root\nvolumes 1\n";

const NEW_LIST: &str =
    "volume 1 dynamic reserved=20 alignment=1 usable=126976 flags=00 lebs=2 name=root\nvolumes 1\n";

/// Whether pages are a header's and those of a whole logical eraseblock, and then a header's and one with the rest, and 0xFF
/// after it.
fn are_written(pages: &[u8], contents: &[u8]) -> bool {
    let (first, second) = (pages.get(2048..129_024), pages.get(131_072..131_074));
    match (first, second, contents.get(..126_976)) {
        (Some(first), Some(second), Some(whole)) => first == whole && second == b"b\xff".as_slice(),
        _ => false,
    }
}

/// Of eraseblocks of 128 KiB, a logical eraseblock of 62 pages and one of a page, and copies of the table of 11. The last page
/// of copy 0 is that of step 77. There are 93 steps, and two are erases.
#[test]
fn updates_a_volume_of_a_chip(rt: HostRuntime) -> Result<(), Fail> {
    let alloc = rt.alloc();
    let geometry = Geometry::new(131_072, 2048, 2048, 4096, 32)?;
    let image = image_of(alloc, &geometry, ONE)?;
    let contents = bytes_of(alloc, &[(b"a", 126_976), (b"b", 1)])?;
    let asks = [Ask::Contents("root=root.img", 0, 126_977)];
    for (stop, list, size) in [
        (76, OLD_LIST, 155_648),
        (77, NEW_LIST, 157_696),
        (100, NEW_LIST, 186_368),
    ] {
        let asked = (asks.as_slice(), contents.as_slice());
        let updated = updated_of(alloc, &geometry, image.as_slice(), asked, Some(stop))?;
        let text = updated.answer.text.as_slice();
        assert!(rt; text.starts_with(b"volume 1 replaces 0 lebs=2 name=root\nsteps 93\n"));
        let listed = listed(alloc, &geometry, updated.writer.taken())?;
        assert!(rt; listed.as_slice() == list.as_bytes(), "after {stop} steps");
        let pages = updated.pages.as_slice();
        assert!(rt; pages.len() == size, "after {stop} steps");
        assert!(rt;
            are_written(pages, contents.as_slice()),
            "after {stop} steps"
        );
    }
    Ok(())
}

/// What an update of an image answers, unless the read with this number fails, counted from 1.
fn updated_unless(
    alloc: Global,
    geometry: &Geometry,
    image: &[u8],
    asked: (&[Ask<'_>], &[u8]),
    fail_at: u64,
) -> Result<Option<Updated>, Fail> {
    let mut source = ProbeSource::new(alloc, geometry, image, fail_at)?;
    let mut writer = ProbeWriter::new(alloc, image.len(), 4000, Failure::Nothing)?;
    match answer_over(alloc, geometry, &mut source, asked, None, &mut writer) {
        Ok((answer, pages)) => Ok(Some(Updated {
            answer,
            pages,
            writer,
        })),
        Err(ToolError::Read) => Ok(None),
        Err(error) => Err(Fail::from(error)),
    }
}

/// Each read that fails is told, and the answer is the same where none does.
#[test]
fn tells_reads_that_fail(rt: HostRuntime) -> Result<(), Fail> {
    let alloc = rt.alloc();
    let (geometry, case) = (small()?, &REPLACED);
    let image = image_of(alloc, &geometry, case.pebs)?;
    let contents = bytes_of(alloc, case.contents)?;
    let (image, asked) = (image.as_slice(), (case.asks, contents.as_slice()));
    let whole = updated_of(alloc, &geometry, image, asked, None)?;
    let mut failed = 0u32;
    for fail_at in 1..200 {
        match updated_unless(alloc, &geometry, image, asked, fail_at)? {
            Some(updated) => {
                assert!(rt; updated.answer.text.as_slice() == whole.answer.text.as_slice());
                assert!(rt; updated.writer.taken() == whole.writer.taken());
            }
            None => failed = failed.saturating_add(1),
        }
    }
    assert!(rt; failed > 40 && failed < 199, "{failed} reads");
    Ok(())
}

/// What an update answers if the read of contents with this number fails, counted from 1, and what it wrote.
fn updated_without(
    alloc: Global,
    geometry: &Geometry,
    image: &[u8],
    (asks, contents): (&[Ask<'_>], &[u8]),
    fail_at: u64,
) -> Result<(Result<Outcome, ToolError>, ProbeWriter), Fail> {
    let mut source = MemorySource::new(image);
    let contents = ProbeSource::new(alloc, geometry, contents, fail_at)?;
    let mut writer = ProbeWriter::new(alloc, image.len(), 4000, Failure::Nothing)?;
    match answer_with(
        alloc,
        geometry,
        &mut source,
        asks,
        contents,
        None,
        &mut writer,
    ) {
        Ok((answer, _)) => Ok((Ok(answer), writer)),
        Err(error) => Ok((Err(error), writer)),
    }
}

/// The bytes of a volume of two logical eraseblocks are read three times: for the plan, for the image, and for the pages. If one can't be
/// read before the image is written, its file is named, and nothing is written.
#[test]
fn tells_contents_that_fail(rt: HostRuntime) -> Result<(), Fail> {
    let alloc = rt.alloc();
    let (geometry, case) = (small()?, &REPLACED);
    let image = image_of(alloc, &geometry, case.pebs)?;
    let contents = bytes_of(alloc, case.contents)?;
    let (image, asked) = (image.as_slice(), (case.asks, contents.as_slice()));
    let whole = updated_of(alloc, &geometry, image, asked, None)?;
    for (fail_at, written) in [
        (1, Some(0)),
        (2, Some(0)),
        // The eraseblocks 5 and 6 get the contents, and both copies of the table follow.
        (3, Some(2560)),
        (4, Some(3072)),
        (5, Some(5120)),
        (6, Some(5120)),
        (7, None),
    ] {
        let (answer, writer) = updated_without(alloc, &geometry, image, asked, fail_at)?;
        let told = match &answer {
            Ok(outcome) if outcome.status == 1 => {
                assert!(rt; outcome.text.as_slice() == b"cannot read new.img\n".as_slice());
                fail_at <= 2
            }
            Ok(_) => fail_at == 7,
            Err(error) => *error == ToolError::Write && fail_at > 2 && fail_at < 7,
        };
        assert!(rt; told, "at the read {fail_at}");
        let taken = writer.taken();
        assert!(rt;
            taken.len() == written.unwrap_or(image.len()),
            "at the read {fail_at}"
        );
        assert!(rt;
            whole.writer.taken().starts_with(taken),
            "at the read {fail_at}"
        );
    }
    Ok(())
}

/// A write that fails is told, and the first of the bytes are written.
#[test]
fn tells_writes_that_fail(rt: HostRuntime) -> Result<(), Fail> {
    let alloc = rt.alloc();
    let (geometry, case) = (small()?, &REPLACED);
    let image = image_of(alloc, &geometry, case.pebs)?;
    let contents = bytes_of(alloc, case.contents)?;
    let (image, asked) = (image.as_slice(), (case.asks, contents.as_slice()));
    let whole = updated_of(alloc, &geometry, image, asked, None)?;
    for room in [0, 511, 512, 3000, 5119] {
        let mut source = MemorySource::new(image);
        let mut writer = ProbeWriter::new(alloc, room, 4000, Failure::Nothing)?;
        let answer = answer_over(alloc, &geometry, &mut source, asked, None, &mut writer);
        assert!(rt;
            matches!(answer, Err(ToolError::Write)),
            "with room for {room}"
        );
        assert_eq!(rt; writer.taken().len(), room);
        assert!(rt; whole.writer.taken().starts_with(writer.taken()));
    }
    Ok(())
}
