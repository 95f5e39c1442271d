//! What is asked of volumes, with the files that are to be their contents.

ghost use Rattle.std.specs.Prelude.{◌≡◌, ◌≤◌, ◌+◌, ◌++◌, ◌∷◌, [], IfErr, IfOk, OnOk, length, map, string_bytes, sum_by, take};
ghost use Rattle.ubi_files.specs.OverFile.{IsUnread};
ghost use Rattle.ubi_scan.specs.Placed.{StandsAt};
ghost use Rattle.ubi_files.specs.Numbers.{sizes_of};
ghost use Rattle.ubi_files.specs.Told.{Tells};
ghost use Rattle.ubi_writing.specs.Contents.{IsOpenedAt, IsUnfilled, named_asks};
ghost use Rattle.ubi_writing.specs.inner.Filling.{IsFilledBy, bytes_in};

use crate::asks::{Ask, parts_of};
use crate::orders::Update;
use std::alloc::{AllocError, Global};
use std::io;
use ubi_change::NewVolume;
use ubi_files::{Disk, Numbers, SizedFile, ToolError, Unread, load, unread_file};
use ubi_scan::PlacedFile;

/// A file that is read for the contents of a volume.
#[derive(Drop)]
pub enum ContentsFile<F: PlacedFile> {
    /// It is read at places.
    Placed(SizedFile<F>),
    /// It was read to its end, since it has no places: its bytes.
    Held(Vec<u8>),
}

/// Copies bytes from a place on to the beginning of others, and returns how many.
fn copy_from(bytes: &[u8], at: u64, out: &mut [u8]) -> usize
    ensures bound { result ≤ length out.new }
    ensures read { StandsAt bytes.now at (take result out.new) }
{
    let len = bytes.len();
    if at >= len as u64 {
        return 0;
    }
    let start = at as usize;
    let count = out.len().min(len - start);
    out[..count].copy_from_slice(&bytes[start..start + count]);
    count
}

impl<F: PlacedFile> PlacedFile for ContentsFile<F> {
    ghost bytes = { λ file. bytes_in (λ x. F.bytes x.file) file };

    fn read_from(&self, at: u64, out: &mut [u8]) -> io::Result<usize> {
        match self {
            ContentsFile::Placed(file) => file.file().read_from(at, out),
            ContentsFile::Held(bytes) => Ok(copy_from(bytes.as_slice(), at, out)),
        }
    }
}

/// All that is asked of volumes, and which files are to be their contents.
#[derive(Drop)]
pub struct Contents<'a> {
    /// What is asked by words, in order.
    pub asks: Vec<Ask<'a>>,
    /// The volumes that are written after that.
    pub volumes: Vec<NewVolume>,
    /// The paths of the files, in the order of the volumes that are written.
    pub paths: Vec<String>,
    /// How many bytes they have together.
    pub total: u64,
}

/// What is asked of volumes beside contents.
///
/// # Errors
///
/// Memory ran out.
fn named_asks<'a>(alloc: Global, asked: &Update<'a>) -> Result<Vec<Ask<'a>>, AllocError>
    ensures { IfOk result (λ asks. asks.items ≡ named_asks asked.now) }
{
    let mut asks = Vec::new(alloc);
    for word in asked.names {
        asks.push(Ask::Rename(word))?;
    }
    for word in asked.sizes {
        asks.push(Ask::Resize(word))?;
    }
    for word in asked.removals {
        asks.push(Ask::Remove(word))?;
    }
    Ok(asks)
}

impl<'a> Contents<'a> {
    /// Adds a file for contents, which has so many bytes.
    ///
    /// # Errors
    ///
    /// Memory ran out, or the files have more bytes than a number of 64 bits says.
    pub fn add_file(&mut self, path: String, len: u64) -> Result<(), AllocError>
        ensures asks { self.new.asks ≡ self.old.asks }
        ensures volumes { self.new.volumes ≡ self.old.volumes }
        ensures paths { OnOk result (self.new.paths.items ≡ self.old.paths.items ++ (path ∷ [])) }
        ensures total { OnOk result (self.new.total ≡ self.old.total + len) }
    {
        let Some(total) = self.total.checked_add(len) else {
            return Err(AllocError);
        };
        self.paths.push(path)?;
        self.total = total;
        Ok(())
    }

    /// Adds what is asked for by a word, whose file at a path has so many bytes.
    fn add_word(
        &mut self,
        alloc: Global,
        word: &'a str,
        path: &str,
        len: u64,
    ) -> Result<(), AllocError>
        ensures asks { OnOk result (self.new.asks.items ≡ self.old.asks.items ++ (Ask.Contents word.entry self.old.total len ∷ [])) }
        ensures volumes { self.new.volumes ≡ self.old.volumes }
        ensures paths { OnOk result (map string_bytes self.new.paths.items ≡ map string_bytes self.old.paths.items ++ (path.now ∷ [])) }
        ensures total { OnOk result (self.new.total ≡ self.old.total + len) }
    {
        let path = String::from_str(alloc, path)?;
        self.asks.push(Ask::Contents(word, self.total, len))?;
        self.add_file(path, len)
    }
}

/// Whether two paths that are read may be those of one file.
fn are_one<D: Disk>(disk: &D, path: &str, other: &str) -> bool {
    // The second of two paths is taken for one that is written, which `-` is too.
    disk.may_be_one(path, other) || disk.may_be_one(other, path)
}

/// Whether a file without places, as a pipe is, may be the image or one of others that were read before: then it gave its bytes
/// to these.
fn is_spent<D: Disk>(disk: &D, path: &str, image: &str, before: &[String]) -> bool {
    for read in before {
        if are_one(disk, path, read.as_str()) {
            return true;
        }
    }
    are_one(disk, path, image)
}

/// A file that was read to its end.
pub fn held_file<F: PlacedFile>(bytes: Vec<u8>) -> SizedFile<ContentsFile<F>>
    ensures file { result.file ≡ ContentsFile.Held bytes }
    ensures len { result.len ≡ length bytes.items }
{
    let len = bytes.len() as u64;
    SizedFile::new(ContentsFile::Held(bytes), len)
}

/// A file that is read at places.
fn placed_file<F: PlacedFile>(file: SizedFile<F>) -> SizedFile<ContentsFile<F>>
    ensures file { result.file ≡ ContentsFile.Placed file }
    ensures len { result.len ≡ file.len }
{
    let len = file.len();
    SizedFile::new(ContentsFile::Placed(file), len)
}

/// Opens a file that is to be the contents of a volume. One that has no places is read to its end, or one byte further than the device is
/// large.
///
/// # Errors
///
/// The line of a file that can't be read, as a pipe can't that was read before, or of a limit that the numbers break; or that memory ran out.
pub fn open_contents<D: Disk + Eprint>(
    disk: &D,
    alloc: Global,
    numbers: Numbers,
    path: &str,
    image: &str,
    before: &[String],
) -> Result<SizedFile<ContentsFile<D::Placed>>, Unread>
    ensures file { IfOk result (λ f. IsOpenedAt (D.files disk.now) (sizes_of numbers) path.now f.len (bytes_in (λ x. D.Placed.bytes x.file) f.file)) }
    ensures unread { IfErr result (Tells (IsUnread numbers path.now)) }
{
    if let Some(file) = disk.placed_at(path) {
        return Ok(placed_file(file));
    }
    let file = load(disk, alloc, numbers, path)?;
    if is_spent(disk, path, image, before) {
        let _ = disk.eprintln(format_args!("{path}: it was read before, and has no more"));
        return Err(unread_file(alloc, path, ToolError::Read));
    }
    Ok(held_file(file.bytes))
}

/// Adds a file to others.
///
/// # Errors
///
/// Memory ran out.
pub fn push_file<F: PlacedFile + Drop>(
    files: &mut Vec<SizedFile<ContentsFile<F>>>,
    file: SizedFile<ContentsFile<F>>,
) -> Result<(), AllocError>
    ensures { OnOk result (files.new.items ≡ files.old.items ++ (file ∷ [])) }
{
    files.push(file)?;
    Ok(())
}

/// Opens the files that are to be contents of volumes.
///
/// # Errors
///
/// The line of the first that can't be read, or of a limit that the numbers break; or that memory ran out.
pub fn gather_contents<'a, D: Disk + Eprint>(
    disk: &D,
    alloc: Global,
    numbers: Numbers,
    asked: &Update<'a>,
) -> Result<(Contents<'a>, Vec<SizedFile<ContentsFile<D::Placed>>>), Unread>
    ensures filled { IfOk result (λ r. IsFilledBy (D.files disk.now) (sizes_of numbers) asked.now asked.now.contents.now r.0 (map (λ f. bytes_in (λ x. D.Placed.bytes x.file) f.file) r.1.items)) }
    ensures total { IfOk result (λ r. r.0.total ≡ sum_by (λ f. f.len) r.1.items) }
    ensures unread { IfErr result (Tells (IsUnfilled numbers asked.now.contents.now)) }
{
    let asks = named_asks(alloc, asked)?;
    let mut contents = Contents {
        asks,
        volumes: Vec::new(alloc),
        paths: Vec::new(alloc),
        total: 0,
    };
    let mut files = Vec::new(alloc);
    let image = asked.plan.paths.image;
    for word in asked.contents {
        let (_, path) = parts_of(word);
        let before = contents.paths.as_slice();
        let file = open_contents(disk, alloc, numbers, path, image, before)?;
        contents.add_word(alloc, word, path, file.len())?;
        push_file(&mut files, file)?;
    }
    Ok((contents, files))
}
