//! The calls of `ubi_calls`, which answer into memory of their caller.
//!
//! The script check/second/c_calls.py makes them from C and Python, over random images.

use super::answers::run_over;
use super::contents::{Contents, EMPTY};
use super::fake::Broken;
use super::shown::{CHANGED, RENAMED, ROOT_CHECKED, ROOT_LISTED, ROOT_SHOWN, SMALL};
use std::alloc::Global;
use std::process::Abort;
use std::test::Fail;
use ubi_calls::DeviceSizes;
use ubi_probe::header_bytes::{COPY_OF_64, ERASED_EC};

/// A call, with its number.
#[derive(Clone, Copy, Debug)]
enum Call {
    Geometry,
    Check,
    List,
    Show(u32),
    Map,
    Read(u32),
    Normalise,
    Same,
    Diff,
}

/// What is answered.
enum Answer {
    Line(&'static str),
    File(Contents),
}

impl Answer {
    fn bytes(&self, alloc: Global) -> Result<Vec<u8>, Fail> {
        match self {
            Answer::Line(line) => Ok(Vec::from_slice(alloc, line.as_bytes())?),
            Answer::File(contents) => contents.bytes(alloc),
        }
    }
}

/// The numbers of small eraseblocks.
fn sizes(page: u32) -> DeviceSizes {
    DeviceSizes {
        peb_size: 512,
        page,
        vid_offset: 64,
        data_offset: 128,
        pebs: 32,
    }
}

impl Call {
    /// Makes the call. Gives the status.
    fn answer(
        self,
        alloc: Global,
        page: u32,
        (left, right): (&[u8], &[u8]),
        out: &mut [u8],
        len: &mut usize,
    ) -> u32 {
        let sizes = sizes(page);
        match self {
            Call::Geometry => ubi_calls::geometry(alloc, left, out, len),
            Call::Check => ubi_calls::check(alloc, &sizes, left, out, len),
            Call::List => ubi_calls::list(alloc, &sizes, left, out, len),
            Call::Show(block) => ubi_calls::show(alloc, &sizes, left, block, out, len),
            Call::Map => ubi_calls::map(alloc, &sizes, left, out, len),
            Call::Read(id) => ubi_calls::read(alloc, &sizes, left, id, out, len),
            Call::Normalise => ubi_calls::normalise(alloc, &sizes, left, out, len),
            Call::Same => ubi_calls::same(alloc, &sizes, left, right, out, len),
            Call::Diff => ubi_calls::diff(alloc, &sizes, left, right, out, len),
        }
    }
}

/// What buffers hold before a call.
const FILLER: u8 = 0xA5;

/// A call, the bytes of a page, its images, and what it answers.
static ANSWERED: [(Call, u32, (Contents, Contents), u32, Answer); 18] = [
    (
        Call::Geometry,
        64,
        (Contents::Root, EMPTY),
        0,
        Answer::Line(SMALL),
    ),
    (
        Call::Check,
        64,
        (Contents::Root, EMPTY),
        0,
        Answer::Line(ROOT_CHECKED),
    ),
    (
        Call::Check,
        60,
        (Contents::Root, EMPTY),
        2,
        Answer::Line("refused G1 Page\n"),
    ),
    (
        Call::List,
        64,
        (Contents::Root, EMPTY),
        0,
        Answer::Line(ROOT_LISTED),
    ),
    (
        Call::Show(4),
        64,
        (Contents::Root, EMPTY),
        0,
        Answer::Line(ROOT_SHOWN),
    ),
    (
        Call::Map,
        64,
        (Contents::Root, EMPTY),
        0,
        Answer::Line("      0 ttuuu\n"),
    ),
    (
        Call::Map,
        64,
        (Contents::Mixed, EMPTY),
        0,
        Answer::Line("      0 ttusoogdc\n"),
    ),
    (
        Call::Map,
        64,
        (Contents::Blank, EMPTY),
        0,
        Answer::Line("      0 bbb\n"),
    ),
    (
        Call::Map,
        64,
        (Contents::Faulty, EMPTY),
        1,
        Answer::Line("      0 ttvvv\nrefused S4 ImageSeq block=3\n"),
    ),
    (
        Call::Read(0),
        64,
        (Contents::Root, EMPTY),
        0,
        Answer::File(Contents::RootText),
    ),
    (
        Call::Read(0),
        64,
        (Contents::Updating, EMPTY),
        1,
        Answer::Line("refused L2 Updating\n"),
    ),
    (
        Call::Read(0),
        60,
        (Contents::Root, EMPTY),
        2,
        Answer::Line("refused G1 Page\n"),
    ),
    (
        Call::Normalise,
        64,
        (Contents::Reversed, EMPTY),
        0,
        Answer::File(Contents::NormalRoot),
    ),
    (
        Call::Normalise,
        64,
        (Contents::Odd, EMPTY),
        1,
        Answer::Line("refused S1 Length\n"),
    ),
    (
        Call::Same,
        64,
        (Contents::Root, Contents::Reversed),
        0,
        Answer::Line("same\n"),
    ),
    (
        Call::Same,
        64,
        (Contents::Root, Contents::Odd),
        1,
        Answer::Line("right refused S1 Length\n"),
    ),
    (
        Call::Diff,
        64,
        (Contents::Root, Contents::Reversed),
        0,
        Answer::Line("same\n"),
    ),
    (
        Call::Diff,
        64,
        (Contents::EmptyBoot, Contents::WholeBoot),
        1,
        Answer::Line("volume 0 bytes left=0 right=385\ndifferent\n"),
    ),
];

/// Whether a buffer has the first of some bytes, and the filler after them.
fn is_filled(out: &[u8], bytes: &[u8]) -> bool {
    for (place, byte) in out.iter().enumerate() {
        if *byte != *bytes.get(place).unwrap_or(&FILLER) {
            return false;
        }
    }
    true
}

/// Asserts what a call answers with so many bytes of room.
fn assert_answers(
    rt: &impl Abort,
    alloc: Global,
    (call, page, images): (Call, u32, (&[u8], &[u8])),
    (status, answer): (u32, &[u8]),
    room: usize,
) -> Result<(), Fail> {
    let mut out = Vec::from_elem(alloc, FILLER, room)?;
    let mut len = 7;
    let ended = call.answer(alloc, page, images, out.as_mut_slice(), &mut len);
    let is = ended == status && len == answer.len() && is_filled(out.as_slice(), answer);
    assert!(*rt; is, "of {call:?} with room for {room}");
    Ok(())
}

#[test]
fn fills_buffers_of_any_room(rt: HostRuntime) -> Result<(), Fail> {
    let alloc = rt.alloc();
    for (call, page, (left, right), status, answer) in &ANSWERED {
        let (left, right) = (left.bytes(alloc)?, right.bytes(alloc)?);
        let (asked, answer) = (
            (*call, *page, (left.as_slice(), right.as_slice())),
            answer.bytes(alloc)?,
        );
        let told = (*status, answer.as_slice());
        let less = answer.len().saturating_sub(1);
        for room in [0, 1, less, answer.len(), answer.len() + 1] {
            assert_answers(&rt, alloc, asked, told, room)?;
        }
    }
    Ok(())
}

/// What is answered of a rename of `root`, or of a change of a page of its logical eraseblock 1, on a chip with bad eraseblocks: the
/// status, the lines, and the pages.
fn planned(
    alloc: Global,
    name: Option<&[u8]>,
    (bad, keeps_blank): (&[u32], bool),
) -> Result<(u32, Vec<u8>, Vec<u8>), Fail> {
    let (sizes, image) = (sizes(64), Contents::Spares.bytes(alloc)?);
    let (mut out, mut pages) = (
        Vec::from_elem(alloc, FILLER, 512)?,
        Vec::from_elem(alloc, FILLER, 1024)?,
    );
    let (mut len, mut pages_len) = (7, 7);
    let (image, lines, room) = (image.as_slice(), out.as_mut_slice(), pages.as_mut_slice());
    let status = match name {
        Some(name) => ubi_calls::rename(
            alloc,
            &sizes,
            image,
            bad,
            keeps_blank,
            0,
            name,
            lines,
            &mut len,
            room,
            &mut pages_len,
        ),
        None => ubi_calls::change(
            alloc,
            &sizes,
            image,
            bad,
            keeps_blank,
            0,
            1,
            &[0x61; 64],
            lines,
            &mut len,
            room,
            &mut pages_len,
        ),
    };
    out.truncate(len);
    pages.truncate(pages_len);
    Ok((status, out, pages))
}

/// No eraseblock is bad, and Blank ones may be taken.
const ALL_GOOD: (&[u32], bool) = (&[], false);

#[test]
fn plans_with_pages(rt: HostRuntime) -> Result<(), Fail> {
    let alloc = rt.alloc();
    let mut want = Vec::from_slice(alloc, &COPY_OF_64)?;
    want.extend_from_slice(&[0x61; 64])?;
    want.extend_from_slice(&ERASED_EC)?;
    let (status, lines, pages) = planned(alloc, None, ALL_GOOD)?;
    assert!(rt; status == 0 && lines.as_slice() == CHANGED.as_bytes() && pages == want);
    let (status, lines, pages) = planned(alloc, Some(b"data"), ALL_GOOD)?;
    assert!(rt; status == 0 && lines.as_slice() == RENAMED.as_bytes() && pages.len() == 16 * 64);
    let (status, lines, pages) = planned(alloc, Some(b"\\"), ALL_GOOD)?;
    assert!(rt;
        status == 1 && lines.as_slice() == "refused N1 BadName\n".as_bytes() && pages.is_empty()
    );
    Ok(())
}

/// Bad eraseblocks, by their numbers and as a word: ones that hold nothing, the members, the table's, one twice, and none that the image or
/// the device has.
static BAD: [(&[u32], &str); 9] = [
    (&[], ""),
    (&[5], "5"),
    (&[5, 6], "5-6"),
    (&[6, 5, 6], "5-6"),
    (&[0], "0"),
    (&[1, 3], "1,3"),
    (&[0, 1, 2, 3, 4, 5, 6], "0-6"),
    (&[7, 31, 32], "7,31,32"),
    (&[u32::MAX], "4294967295"),
];

/// A call plans what the command does with `--bad` and `--blank keep`.
#[test]
fn plans_around_bad_eraseblocks(rt: HostRuntime) -> Result<(), Fail> {
    let alloc = rt.alloc();
    let image = Contents::Spares.bytes(alloc)?;
    let files = (image.as_slice(), [0x61; 64].as_slice());
    for (numbers, word) in &BAD {
        for (keeps, blank) in [(false, ""), (true, " --blank keep")] {
            for (name, line) in [
                (None, "change a.img --id 0 --lnum 1 --from new.bin"),
                (Some(b"data".as_slice()), "rename a.img --id 0 --name data"),
            ] {
                let line = format!(in alloc; "{line} --out b.img --bad={word}{blank}")?;
                let (want, _) = run_over(alloc, files, Broken::Nothing, line.as_str())?;
                let (status, lines, _) = planned(alloc, name, (numbers, keeps))?;
                assert!(rt;
                    status == u32::from(want.status) && lines.as_slice() == want.text.as_slice(),
                    "of {line}"
                );
            }
        }
    }
    Ok(())
}
