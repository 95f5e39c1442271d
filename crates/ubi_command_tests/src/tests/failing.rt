//! The commands over files that fail, that have no places, and that are cut short while they are read.

use super::answers::assert_over;
use super::contents::{Contents, EMPTY};
use super::fake::Broken;
use super::shown::{BLANK_SHOWN, CHANGED, RENAMED, ROOT_CONFIG, SMALL, UPDATED};
use std::alloc::Global;
use std::io::ErrorKind;
use std::process::Abort;
use std::test::Fail;
use ubi_probe::header_bytes::COPY_OF_64;
use ubi_probe::pebs::{A, B, C, Data, FIRST, FREE, NAMED, Peb, SECOND, Vid};

/// A logical eraseblock of a volume 5 that no table has.
const ORPHAN: Peb = Peb(NAMED, Vid::Leb(5, 0, 0), Data::Fill(b'b', 384));

/// A line over an image, and ways in which its files fail: of each the answer, and how many bytes of the output are
/// written.
#[derive(Clone, Copy)]
struct Failing {
    image: Contents,
    line: &'static str,
    ways: &'static [(Broken, (&'static str, u8), usize)],
    output: Contents,
}

/// What is answered of a file that can't be read, and of one that can't be written.
const UNREAD: (&str, u8) = ("cannot read a.img\n", 1);

const UNREAD_TEXT: (&str, u8) = ("cannot read a.txt\n", 1);

const UNREAD_NEW: (&str, u8) = ("cannot read new.bin\n", 1);

const UNWRITTEN: (&str, u8) = ("cannot write b.img\n", 1);

/// What `unpack` answers of the image of `root`, and where its file can't be written.
const UNPACKED: (&str, u8) = ("volume 0 bytes=7680 name=root\n", 0);

const UNPACKED_NOT: (&str, u8) = ("cannot write made/0-root\n", 1);

const CONFIG_NOT: (&str, u8) = ("cannot write made/ubi.ini\n", 1);

/// What it writes: the volume, and its config.
const UNPACKED_BYTES: Contents = Contents::Runs(&[
    (b"A", 384),
    (b"B", 384),
    (b"C", 384),
    (b"\xFF", 6528),
    (ROOT_CONFIG, 1),
]);

/// What `check`, `list` and `show` answer of blank eraseblocks.
const CHECKED: (&str, u8) = (
    "blocks 3\nblank 3\nfree 0\ntable 0\nused 0\nstale 0\norphan 0\n\
        dropped 0\ncorrupt 0\ngarbage 0\ntop sqnum 0\nimage seq 0\n\
        mean counter 0\naccepted\n",
    0,
);

const LISTED: (&str, u8) = (
    "geometry peb=512 page=64 vid=64 data=128 leb=384 slots=2 pebs=32\nvolumes 0\n",
    0,
);

/// Commands that write nothing. A file is read at places, or whole where it can't be; one that was cut short since it
/// was opened fails where its bytes are missing.
static READERS: [Failing; 7] = [
    // The last place that is looked at is that where the half of the last eraseblock would begin, to byte 2368.
    Failing {
        image: Contents::Root,
        line: "geometry a.img",
        ways: &[
            (Broken::Nothing, (SMALL, 0), 0),
            (Broken::Whole, (SMALL, 0), 0),
            (Broken::Places, (SMALL, 0), 0),
            (Broken::OpenRead, UNREAD, 0),
            (Broken::Read(ErrorKind::Other, 0), UNREAD, 0),
            (Broken::Read(ErrorKind::Other, 2367), UNREAD, 0),
            (Broken::Read(ErrorKind::Other, 2368), (SMALL, 0), 0),
            (Broken::Read(ErrorKind::Interrupted, 1100), UNREAD, 0),
            (Broken::Cut, UNREAD, 0),
        ],
        output: EMPTY,
    },
    // A file without a known size, and one that can't be read.
    Failing {
        image: EMPTY,
        line: "geometry a.img",
        ways: &[
            (Broken::Places, ("refused F1 NoHeader\n", 1), 0),
            (Broken::OpenRead, UNREAD, 0),
        ],
        output: EMPTY,
    },
    Failing {
        image: Contents::Blank,
        line: "check a.img",
        ways: &[
            (Broken::Nothing, CHECKED, 0),
            (Broken::Whole, CHECKED, 0),
            (Broken::Places, CHECKED, 0),
            (Broken::OpenRead, UNREAD, 0),
            (Broken::Read(ErrorKind::Other, 0), UNREAD, 0),
            (Broken::Read(ErrorKind::Other, 640), UNREAD, 0),
            (Broken::Read(ErrorKind::Interrupted, 1100), UNREAD, 0),
            (Broken::Cut, UNREAD, 0),
        ],
        output: EMPTY,
    },
    Failing {
        image: Contents::Blank,
        line: "list a.img",
        ways: &[
            (Broken::Nothing, LISTED, 0),
            (Broken::Places, LISTED, 0),
            (Broken::OpenRead, UNREAD, 0),
            (Broken::Read(ErrorKind::Other, 640), UNREAD, 0),
            (Broken::Cut, UNREAD, 0),
        ],
        output: EMPTY,
    },
    // Of the second of three eraseblocks the headers are the bytes from 512 to 640, and those after them may fail.
    Failing {
        image: Contents::Blank,
        line: "show a.img --block 1",
        ways: &[
            (Broken::Nothing, (BLANK_SHOWN, 0), 0),
            (Broken::Whole, (BLANK_SHOWN, 0), 0),
            (Broken::Places, (BLANK_SHOWN, 0), 0),
            (Broken::OpenRead, UNREAD, 0),
            (Broken::Read(ErrorKind::Other, 640), (BLANK_SHOWN, 0), 0),
            (Broken::Read(ErrorKind::Other, 639), UNREAD, 0),
            (Broken::Read(ErrorKind::Interrupted, 512), UNREAD, 0),
        ],
        output: EMPTY,
    },
    // One that was cut off since the file was opened.
    Failing {
        image: Contents::Blank,
        line: "show a.img --block 3",
        ways: &[
            (Broken::Cut, UNREAD, 0),
            (Broken::Nothing, ("refused B1 Block\n", 1), 0),
        ],
        output: EMPTY,
    },
    // Two files that hold the same. Both fail, and the left one is reported.
    Failing {
        image: Contents::Blank,
        line: "same a.img c.img",
        ways: &[
            (Broken::Nothing, ("same\n", 0), 0),
            (Broken::Whole, ("same\n", 0), 0),
            (Broken::Places, ("same\n", 0), 0),
            (Broken::OpenRead, UNREAD, 0),
            (Broken::Read(ErrorKind::Other, 640), UNREAD, 0),
            (Broken::Read(ErrorKind::Interrupted, 1100), UNREAD, 0),
            (Broken::Cut, UNREAD, 0),
        ],
        output: EMPTY,
    },
];

/// What is answered as JSON of a file that can't be read.
const UNREAD_OBJECT: (&str, u8) = ("{\"error\":\"cannot read a.img\"}\n", 1);

const UNREAD_WAYS: &[(Broken, (&str, u8), usize)] = &[
    (Broken::OpenRead, UNREAD_OBJECT, 0),
    (Broken::Read(ErrorKind::Other, 640), UNREAD_OBJECT, 0),
];

/// One that can't be read, of which `check` answers as JSON; and what other lines do.
const UNREAD_CHECK: Failing = Failing {
    image: Contents::Root,
    line: "check a.img --format json",
    ways: UNREAD_WAYS,
    output: EMPTY,
};

static OBJECTS: [Failing; 5] = [
    UNREAD_CHECK,
    Failing {
        line: "list a.img --format json",
        ..UNREAD_CHECK
    },
    Failing {
        line: "geometry a.img --format json",
        ..UNREAD_CHECK
    },
    Failing {
        line: "same a.img new.bin --format json",
        ..UNREAD_CHECK
    },
    Failing {
        line: "diff a.img new.bin --format json",
        ..UNREAD_CHECK
    },
];

/// Commands that write a file. What fails isn't tried again.
static WRITERS: [Failing; 13] = [
    Failing {
        image: Contents::Blank,
        line: "normalise a.img --out b.img",
        ways: &[
            (Broken::Nothing, ("blocks 2\n", 0), 1024),
            (Broken::Whole, ("blocks 2\n", 0), 1024),
            (Broken::Places, ("blocks 2\n", 0), 1024),
            (Broken::Short(100), ("blocks 2\n", 0), 1024),
            (Broken::OpenRead, UNREAD, 0),
            (Broken::Read(ErrorKind::Other, 0), UNREAD, 0),
            (Broken::Read(ErrorKind::Interrupted, 512), UNREAD, 0),
            (Broken::OpenWrite, UNWRITTEN, 0),
            (Broken::Write(700), UNWRITTEN, 700),
        ],
        output: Contents::NormalNothing,
    },
    // Of the last eraseblock the headers can be read, or can't.
    Failing {
        image: Contents::Root,
        line: "normalise a.img --out b.img",
        ways: &[
            (Broken::Whole, ("blocks 5\n", 0), 2560),
            (Broken::Read(ErrorKind::Other, 2048 + 128), UNREAD, 2048),
            (Broken::Read(ErrorKind::Other, 2048 + 127), UNREAD, 0),
            (Broken::Cut, UNREAD, 0),
        ],
        output: Contents::NormalRoot,
    },
    Failing {
        image: Contents::Root,
        line: "extract a.img --id 0 --out b.img",
        ways: &[
            (Broken::Read(ErrorKind::Other, 2048 + 128), UNREAD, 768),
            (Broken::Read(ErrorKind::Other, 2048 + 127), UNREAD, 0),
        ],
        output: Contents::RootText,
    },
    Failing {
        image: Contents::Root,
        line: "extract a.img --id 0 --out b.bin",
        ways: &[
            (Broken::Nothing, ("bytes 7680\n", 0), 7680),
            (Broken::Short(100), ("bytes 7680\n", 0), 7680),
            (Broken::OpenWrite, ("cannot write b.bin\n", 1), 0),
            (Broken::Write(500), ("cannot write b.bin\n", 1), 500),
            (Broken::WriteOnce(500), ("cannot write b.bin\n", 1), 500),
        ],
        output: Contents::RootText,
    },
    // A volume that reads nothing.
    Failing {
        image: Contents::EmptyBoot,
        line: "extract a.img --id 0 --out b.bin",
        ways: &[
            (Broken::Write(0), ("bytes 0\n", 0), 0),
            (Broken::OpenWrite, ("cannot write b.bin\n", 1), 0),
        ],
        output: EMPTY,
    },
    // Into a folder that is made, and one that can't be.
    Failing {
        image: Contents::Root,
        line: "unpack a.img --out made",
        ways: &[
            (Broken::Nothing, UNPACKED, 7891),
            (Broken::Short(100), UNPACKED, 7891),
            (Broken::Places, UNPACKED, 7891),
            (Broken::OpenRead, UNREAD, 0),
            (Broken::Read(ErrorKind::Other, 2048 + 128), UNREAD, 768),
            (Broken::Read(ErrorKind::Other, 2048 + 127), UNREAD, 0),
            (Broken::Cut, UNREAD, 0),
            (Broken::OpenWrite, UNPACKED_NOT, 0),
            (Broken::Write(500), UNPACKED_NOT, 500),
            (Broken::WriteOnce(500), UNPACKED_NOT, 500),
            (Broken::Write(7700), CONFIG_NOT, 7700),
            (Broken::WriteOnce(7700), CONFIG_NOT, 7700),
        ],
        output: UNPACKED_BYTES,
    },
    Failing {
        image: Contents::Root,
        line: "unpack a.img --out unmade",
        ways: &[(Broken::Nothing, ("cannot write unmade\n", 1), 0)],
        output: EMPTY,
    },
    Failing {
        image: Contents::Runs(&[(b"# nothing\n", 1)]),
        line: "compose a.txt --out b.img",
        ways: &[
            (Broken::OpenRead, UNREAD_TEXT, 0),
            (Broken::Read(ErrorKind::Other, 4), UNREAD_TEXT, 0),
            (Broken::OpenWrite, UNWRITTEN, 0),
            (Broken::Write(700), UNWRITTEN, 700),
            (Broken::ReadOnce(4), UNREAD_TEXT, 0),
            (Broken::WriteOnce(700), UNWRITTEN, 700),
            (Broken::Short(9), ("blocks 2\n", 0), 1024),
        ],
        output: Contents::NormalNothing,
    },
    // The new bytes are 64, and read before the image is. What stands after the headers of the last eraseblock is read as
    // it is written.
    Failing {
        image: Contents::Pebs(&[FIRST, SECOND, A, B, C, FREE, ORPHAN], &[]),
        line: "change a.img --id 0 --lnum 1 --from new.bin --out b.img --stop 1",
        ways: &[
            (Broken::Nothing, (CHANGED, 0), 3584),
            (Broken::Short(100), (CHANGED, 0), 3584),
            (Broken::Places, (CHANGED, 0), 3584),
            (Broken::OpenRead, UNREAD, 0),
            (Broken::Read(ErrorKind::Other, 64), UNREAD_NEW, 0),
            (Broken::Read(ErrorKind::Other, 65), UNREAD, 0),
            (Broken::Read(ErrorKind::Other, 3199), UNREAD, 0),
            (Broken::Read(ErrorKind::Other, 3200), UNREAD, 3072),
            (Broken::Cut, UNREAD, 0),
            (Broken::OpenWrite, UNWRITTEN, 0),
            (Broken::Write(700), UNWRITTEN, 700),
        ],
        output: Contents::Pebs(
            &[FIRST, SECOND, A, B, C, FREE, ORPHAN],
            &[(5 * 512 + 64, &COPY_OF_64)],
        ),
    },
    Failing {
        image: Contents::Pebs(&[FIRST, SECOND, A, B, C, FREE, FREE, ORPHAN], &[]),
        line: "rename a.img --id 0 --name data --out b.img --stop 0",
        ways: &[
            (Broken::Nothing, (RENAMED, 0), 4096),
            (Broken::Short(100), (RENAMED, 0), 4096),
            (Broken::Places, (RENAMED, 0), 4096),
            (Broken::OpenRead, UNREAD, 0),
            (Broken::Read(ErrorKind::Other, 3711), UNREAD, 0),
            (Broken::Read(ErrorKind::Other, 3712), UNREAD, 3584),
            (Broken::Cut, UNREAD, 0),
            (Broken::OpenWrite, UNWRITTEN, 0),
            (Broken::Write(700), UNWRITTEN, 700),
        ],
        output: Contents::Pebs(&[FIRST, SECOND, A, B, C, FREE, FREE, ORPHAN], &[]),
    },
    // The contents are read at places, after the image is. Two files without places may be one pipe here, which gives its bytes once.
    Failing {
        image: Contents::Pebs(&[FIRST, SECOND, A, B, C, FREE, FREE, FREE, ORPHAN], &[]),
        line: "update a.img --write root=new.bin --out b.img --stop 0",
        ways: &[
            (Broken::Nothing, (UPDATED, 0), 4608),
            (Broken::Short(100), (UPDATED, 0), 4608),
            (Broken::Places, UNREAD_NEW, 0),
            (Broken::OpenRead, UNREAD, 0),
            (Broken::Read(ErrorKind::Other, 64), UNREAD, 0),
            (Broken::Read(ErrorKind::Other, 4223), UNREAD, 0),
            (Broken::Read(ErrorKind::Other, 4224), UNREAD, 4096),
            (Broken::Cut, UNREAD, 0),
            (Broken::OpenWrite, UNWRITTEN, 0),
            (Broken::Write(700), UNWRITTEN, 700),
        ],
        output: Contents::Pebs(&[FIRST, SECOND, A, B, C, FREE, FREE, FREE, ORPHAN], &[]),
    },
    // A read after 32 eraseblocks and one byte would fail.
    Failing {
        image: Contents::Runs(&[(b"\xFF", 40_000)]),
        line: "rename a.img --id 0 --name a --out b.img",
        ways: &[(
            Broken::Read(ErrorKind::Other, 32 * 512 + 1),
            ("refused S2 TooMany\n", 1),
            0,
        )],
        output: EMPTY,
    },
    // A file of no size is read whole.
    Failing {
        image: EMPTY,
        line: "normalise a.img --out b.img",
        ways: &[(Broken::Places, ("refused S1 Length\n", 1), 0)],
        output: EMPTY,
    },
];

/// Commands whose output may be the image, or whose image nothing is known of, which is read whole before. A whole
/// read fails here.
static ONTO: [Failing; 4] = [
    Failing {
        image: Contents::Blank,
        line: "normalise a.img --out a.img",
        ways: &[(Broken::Whole, UNREAD, 0)],
        output: EMPTY,
    },
    Failing {
        image: Contents::Blank,
        line: "normalise a.img --out other.img",
        ways: &[(Broken::Whole, UNREAD, 0)],
        output: EMPTY,
    },
    Failing {
        image: Contents::Blank,
        line: "normalise a.img --out untold.img",
        ways: &[(Broken::Whole, UNREAD, 0)],
        output: EMPTY,
    },
    Failing {
        image: Contents::Blank,
        line: "extract a.img --id 0 --out a.img",
        ways: &[(Broken::Whole, UNREAD, 0)],
        output: EMPTY,
    },
];

/// Asserts what is answered and written in each way. `new.bin` holds 64 bytes 0x61.
fn assert_failing(rt: &impl Abort, alloc: Global, case: &Failing) -> Result<(), Fail> {
    let (image, output) = (case.image.bytes(alloc)?, case.output.bytes(alloc)?);
    let files: (&[u8], &[u8]) = (image.as_slice(), &[0x61; 64]);
    for (broken, answer, count) in case.ways {
        let written = output.as_slice().get(..*count).ok_or("short")?;
        assert_over(rt, alloc, files, *broken, case.line, *answer, written)?;
    }
    Ok(())
}

#[test]
fn tells_of_files_that_fail(rt: HostRuntime) -> Result<(), Fail> {
    for cases in [
        READERS.as_slice(),
        OBJECTS.as_slice(),
        WRITERS.as_slice(),
        ONTO.as_slice(),
    ] {
        for case in cases {
            assert_failing(&rt, rt.alloc(), case)?;
        }
    }
    Ok(())
}
