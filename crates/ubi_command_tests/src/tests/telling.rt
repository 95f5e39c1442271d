//! A disk of which it is known what its files hold: what the commands answer of the files that are named, and what they
//! write, is proved of it.

ghost use Rattle.std.specs.Prelude.{Some, option_map, refl};

use super::answers::{SMALL_SIZES, is_answer, run_on, with_sizes};
use super::build::CONTENT;
use super::contents::Contents;
use super::opened::opens_right;
use super::shown::{ROOT_CONFIG, SMALL};
use std::alloc::Global;
use std::fmt::Display;
use std::io;
use std::io::{ErrorKind, Write};
use std::test::Fail;
use ubi_files::{Disk, OutputFile, SizedFile, ToolError, WholeFile};
use ubi_scan::PlacedFile;

/// The path of its image.
const IMAGE: &str = "told.img";

/// The path of its config.
const CONFIG: &str = "told.ini";

/// The path of its output.
const OUT: &str = "kept.img";

/// The path of its folder.
const FOLDER: &str = "made";

/// The path of the file of a volume that its folder has room for.
const UNPACKED: &str = "made/0-root";

/// And that of the config.
const WRITTEN: &str = "made/ubi.ini";

/// The path of its flash memory, of which nothing is known.
const FLASH: &str = "/dev/mtd0";

/// A disk with one image, and room for one output and for a folder with one volume and its config.
#[derive(Drop)]
struct Telling<'a> {
    alloc: Global,
    image: Option<&'a [u8]>,
    config: Option<&'a [u8]>,
    out: Option<Vec<u8>>,
    unpacked: Option<Vec<u8>>,
    written: Option<Vec<u8>>,
    /// The paths that were to be opened to be written, a line each.
    opened: String,
}

/// Bytes that are read at places.
#[derive(Drop)]
struct KnownFile<'a> {
    bytes: &'a [u8],
}

impl PlacedFile for KnownFile<'_> {
    ghost bytes = { λ told. Some told.bytes.now };

    fn read_from(&self, at: u64, out: &mut [u8]) -> io::Result<usize> {
        let start = (at as usize).min(self.bytes.len());
        let count = out.len().min(self.bytes.len() - start);
        out[..count].copy_from_slice(&self.bytes[start..start + count]);
        Ok(count)
    }
}

impl<'a> Disk for Telling<'a> {
    ghost use Rattle.ubi_files.specs.Disk.{IsKept};
    ghost use Rattle.ubi_command_tests.specs.Telling.{opens_image, telling};

    type Placed = KnownFile<'a>;

    type Reader = &'a [u8];

    type Output = Vec<u8>;

    ghost same_telling = { λ a b. refl };

    ghost opens = { λ disk path. opens_image (option_map (λ bytes. bytes.now) disk.image) path };

    ghost files = { λ disk. telling (option_map (λ bytes. bytes.now) disk.image) (option_map (λ bytes. bytes.now) disk.config) (option_map (λ bytes. bytes.items) disk.out) (option_map (λ bytes. bytes.items) disk.unpacked) (option_map (λ bytes. bytes.items) disk.written) };

    fn placed_at(&self, path: &str) -> Option<SizedFile<KnownFile<'a>>> {
        match self.image {
            Some(bytes) if path == IMAGE => {
                Some(SizedFile::new(KnownFile { bytes }, bytes.len() as u64))
            }
            _ => None,
        }
    }

    fn placed_beside(&self, path: &str, out: &str) -> Option<SizedFile<KnownFile<'a>>> {
        if path == out {
            return None;
        }
        self.placed_at(path)
    }

    fn tell_unplaced(&self, _path: &str, _out: &str) {}

    fn may_be_one(&self, path: &str, other: &str) -> bool {
        path == other
    }

    fn is_flash(&self, path: &str) -> bool {
        path == FLASH
    }

    fn whole(&self, path: &str) -> Result<WholeFile<&'a [u8]>, ToolError> {
        let held = if path == IMAGE {
            self.image
        } else if path == CONFIG {
            self.config
        } else {
            None
        };
        match held {
            Some(reader) => Ok(WholeFile {
                reader,
                expected: reader.len() as u64,
            }),
            None => Err(ToolError::Read),
        }
    }

    fn create<'p>(&mut self, path: &'p str) -> io::Result<OutputFile<'p, Vec<u8>>> {
        writeln!(self.opened, "{path}")?;
        if path == OUT {
            self.out = Some(Vec::new(self.alloc));
            Ok(OutputFile::new(path, Vec::new(self.alloc)))
        } else {
            Err(io::Error::from(ErrorKind::PermissionDenied))
        }
    }

    fn create_new<'p>(&mut self, path: &'p str) -> io::Result<OutputFile<'p, Vec<u8>>> {
        writeln!(self.opened, "{path}")?;
        if path == UNPACKED && self.unpacked.is_none() {
            self.unpacked = Some(Vec::new(self.alloc));
            Ok(OutputFile::new(path, Vec::new(self.alloc)))
        } else if path == WRITTEN && self.written.is_none() {
            self.written = Some(Vec::new(self.alloc));
            Ok(OutputFile::new(path, Vec::new(self.alloc)))
        } else {
            Err(io::Error::from(ErrorKind::PermissionDenied))
        }
    }

    fn replace(&mut self, alloc: Global, path: &str, bytes: &[u8]) -> io::Result<()> {
        if path == OUT {
            self.out = Some(Vec::from_slice(alloc, bytes)?);
            Ok(())
        } else {
            Err(io::Error::from(ErrorKind::PermissionDenied))
        }
    }

    fn make_folder(&self, path: &str) -> io::Result<()> {
        if path == FOLDER {
            Ok(())
        } else {
            Err(io::Error::from(ErrorKind::PermissionDenied))
        }
    }

    fn keep(&mut self, file: OutputFile<'_, Vec<u8>>)
        ensures { IsKept (telling (option_map (λ bytes. bytes.now) self.old.image) (option_map (λ bytes. bytes.now) self.old.config) (option_map (λ bytes. bytes.items) self.old.out) (option_map (λ bytes. bytes.items) self.old.unpacked) (option_map (λ bytes. bytes.items) self.old.written)) (telling (option_map (λ bytes. bytes.now) self.new.image) (option_map (λ bytes. bytes.now) self.new.config) (option_map (λ bytes. bytes.items) self.new.out) (option_map (λ bytes. bytes.items) self.new.unpacked) (option_map (λ bytes. bytes.items) self.new.written)) file.entry.path.now (Some file.entry.writer.items) }
    {
        if file.path() == OUT {
            self.out = Some(file.writer);
        } else if file.path() == UNPACKED {
            self.unpacked = Some(file.writer);
        } else if file.path() == WRITTEN {
            self.written = Some(file.writer);
        } else if file.path() == IMAGE {
            self.image = None;
        } else if file.path() == CONFIG {
            self.config = None;
        }
    }
}

impl Eprint for Telling<'_> {
    fn eprint<D: Display + Drop>(&self, _value: D) -> io::Result<()> {
        Ok(())
    }

    fn eprintln<D: Display + Drop>(&self, _value: D) -> io::Result<()> {
        Ok(())
    }
}

/// The config of the volume that is unpacked.
const CONFIG_WRITTEN: Contents = Contents::Runs(&[(ROOT_CONFIG, 1)]);

/// What a line leaves: nothing, an output, or the file of a volume in the folder, and its config.
#[derive(Clone, Copy)]
enum Kept {
    Nothing,
    Out(Contents),
    Unpacked(Contents),
}

/// A line, what it answers, and what it leaves.
type Line = (&'static str, (&'static str, u8), Kept);

/// Lines over the image of `root`.
static LINES: [Line; 19] = [
    ("geometry told.img", (SMALL, 0), Kept::Nothing),
    (
        "geometry kept.img",
        ("cannot read kept.img\n", 1),
        Kept::Nothing,
    ),
    (
        "check kept.img",
        ("cannot read kept.img\n", 1),
        Kept::Nothing,
    ),
    (
        "normalise told.img --out kept.img",
        ("blocks 5\n", 0),
        Kept::Out(Contents::Root),
    ),
    (
        "normalise told.img --out told.img",
        ("cannot write told.img\n", 1),
        Kept::Nothing,
    ),
    (
        "extract told.img --id 0 --out kept.img",
        ("bytes 7680\n", 0),
        Kept::Out(Contents::RootText),
    ),
    (
        "extract told.img --id 1 --out kept.img",
        ("refused L1 NoVolume\n", 1),
        Kept::Nothing,
    ),
    (
        "unpack told.img --out made",
        ("volume 0 bytes=7680 name=root\n", 0),
        Kept::Unpacked(Contents::RootText),
    ),
    (
        "unpack told.img --out other",
        ("cannot write other\n", 1),
        Kept::Nothing,
    ),
    (
        "unpack kept.img --out made",
        ("cannot read kept.img\n", 1),
        Kept::Nothing,
    ),
    ("same told.img told.img", ("same\n", 0), Kept::Nothing),
    // The part lies beyond the end, or isn't whole pages.
    (
        "geometry told.img --start 2561",
        ("refused F7 Part bytes=2560\n", 1),
        Kept::Nothing,
    ),
    (
        "normalise told.img --out kept.img --length 2561",
        ("refused F7 Part bytes=2560\n", 1),
        Kept::Nothing,
    ),
    (
        "normalise told.img --out told.img --oob 1",
        ("refused F8 Pages rest=25\n", 1),
        Kept::Nothing,
    ),
    (
        "normalise told.img --out kept.img --length 2560",
        ("blocks 5\n", 0),
        Kept::Out(Contents::Root),
    ),
    // Of a device somebody has to list the bad eraseblocks, or that there is none.
    (
        "rename /dev/mtd0 --id 0 --name data --out kept.img",
        ("", 2),
        Kept::Nothing,
    ),
    (
        "change /dev/mtd0 --id 0 --lnum 0 --from told.img --out kept.img",
        ("", 2),
        Kept::Nothing,
    ),
    (
        "rename /dev/mtd0 --id 0 --name data --out kept.img --bad=",
        ("cannot read /dev/mtd0\n", 1),
        Kept::Nothing,
    ),
    (
        "same told.img other.img",
        ("cannot read other.img\n", 1),
        Kept::Nothing,
    ),
];

/// The config of `root`, whose contents are those of the image file.
const TOLD_CONFIG: &[u8] =
    b"[root]\nmode=ubi\nvol_id=0\nvol_name=root\nvol_size=7680\nimage=told.img\n";

/// Lines over that config.
static BUILDS: [Line; 4] = [
    (
        "build told.ini --out kept.img --seq 305419896",
        ("blocks 5\n", 0),
        Kept::Out(Contents::NormalRoot),
    ),
    (
        "build told.ini --out told.img",
        ("cannot read told.img\n", 1),
        Kept::Nothing,
    ),
    (
        "build told.ini --out other.img",
        ("cannot write other.img\n", 1),
        Kept::Nothing,
    ),
    (
        "build kept.img --out kept.img",
        ("cannot read kept.img\n", 1),
        Kept::Nothing,
    ),
];

/// Whether a file holds what is wanted, if it is there.
fn holds(alloc: Global, file: &Option<Vec<u8>>, want: Option<Contents>) -> Result<bool, Fail> {
    match (file, want) {
        (Some(bytes), Some(want)) => Ok(*bytes == want.bytes(alloc)?),
        (None, None) => Ok(true),
        _ => Ok(false),
    }
}

/// Whether a line over an image, and a config where there is one, answers and leaves what it should.
fn is_told(
    alloc: Global,
    image: &[u8],
    config: Option<&[u8]>,
    (line, answer, kept): &Line,
) -> Result<bool, Fail> {
    let mut disk = Telling {
        alloc,
        image: Some(image),
        config,
        out: None,
        unpacked: None,
        written: None,
        opened: String::new(alloc),
    };
    let whole = with_sizes(alloc, line, SMALL_SIZES)?;
    let outcome = run_on(&mut disk, alloc, whole.as_str(), false)?;
    let (out, unpacked, written) = match *kept {
        Kept::Nothing => (None, None, None),
        Kept::Out(contents) => (Some(contents), None, None),
        Kept::Unpacked(contents) => (None, Some(contents), Some(CONFIG_WRITTEN)),
    };
    let is_unwritten = disk.out.is_none() && disk.unpacked.is_none();
    let is_there = disk.image.is_some() && disk.config.is_some() == config.is_some();
    Ok(
        is_answer(&outcome, *answer)
            && holds(alloc, &disk.out, out)?
            && holds(alloc, &disk.unpacked, unpacked)?
            && holds(alloc, &disk.written, written)?
            && opens_right(line, &outcome, is_unwritten, disk.opened.as_str())
            && is_there,
    )
}

#[test]
fn answers_and_builds_of_the_named_files(rt: HostRuntime) -> Result<(), Fail> {
    let alloc = rt.alloc();
    let image = Contents::Root.bytes(alloc)?;
    for line in &LINES {
        assert!(rt;
            is_told(alloc, image.as_slice(), None, line)?,
            "of {}",
            line.0
        );
    }
    let content = CONTENT.bytes(alloc)?;
    for line in &BUILDS {
        let is_told = is_told(alloc, content.as_slice(), Some(TOLD_CONFIG), line)?;
        assert!(rt; is_told, "of {}", line.0);
    }
    Ok(())
}
