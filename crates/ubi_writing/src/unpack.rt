//! The command `unpack`: what each volume of an image reads, into a file of its own.

ghost use Rattle.std.specs.FinMap as finite;
ghost use Rattle.std.specs.List.{flat_map};
ghost use Rattle.std.specs.Option.{ForSome};
ghost use Rattle.std.specs.Prelude.{◌≡◌, ◌≢◌, ◌++◌, ◌<◌, ℕ, Err, IfErr, IfOk, IfSome, List, Ok, OnErr, OnOk, codes, if◌then◌else◌, is_ok, length, string_bytes};
ghost use Rattle.ubi_scan.specs.Image.{image_of};
ghost use Rattle.ubi_scan.specs.Source.{Narrows, WhereHeld};
ghost use Rattle.ubi_volume.specs.Extract.{extent_in, extent_len};
ghost use Rattle.ubi_volume.specs.Places.{ArePlaces, ArePlacesOf};
ghost use Rattle.ubi_volume.specs.Reading.{read_volume};
ghost use Rattle.ubi_files.specs.AfterRun.{IsNoWrite, after_run};
ghost use Rattle.ubi_files.specs.Answer.{Gives, says};
ghost use Rattle.ubi_files.specs.Disk.{AllStay, OthersStay, OutsideStay};
ghost use Rattle.ubi_files.specs.Lines.{file_line};
ghost use Rattle.ubi_files.specs.Kept.{IsPartOf};
ghost use Rattle.ubi_dumps.specs.Asked.{OfAsked};
ghost use Rattle.ubi_files.specs.OverFile.{OfFile};
ghost use Rattle.ubi_writing.specs.Unpack.{AreUnpacked, IsUnpacked, Unpacks, UnpacksFrom, UnpacksOf, file_byte, file_name, file_path, number_and_name, unpacked_amount, unpacked_line, unpacked_lines, unpacked_status};
ghost use Rattle.ubi_dumps.specs.Ended.{IsTold};
ghost use Rattle.ubi_writing.specs.inner.Folder.{AreFilesOf, Ends, IsFileOf};

use crate::folder_config::{folder_config, write_new};
use itoa::Buffer;
use std::alloc::{AllocError, Global};
use ubi_dumps::{
    Asked, KnownDump, Paths, find_dump, is_done, open_known, put_amount, put_shown,
    remark_passed_over, remark_start, unwritten_line,
};
use ubi_files::{
    DONE, Disk, FAILED, OpenImage, Outcome, ToolError, frame_of, put_number, put_word,
    refusal_line, unread_line,
};
use ubi_media::{Geometry, VolumeRecord};
use ubi_scan::{BlockSource, FileSource, MemorySource, StreamError};
use ubi_volume::{Amount, Extent, Places, ReadError, attach_places, write_places};

/// The length of the longest name of a file in bytes, on most systems.
const LONGEST_FILE_NAME: usize = 255;

/// The file of a volume.
#[derive(Drop)]
struct VolumeFile {
    /// Its path.
    path: String,
    /// The answer if it can't be written.
    unwritten: Outcome,
}

/// A folder, and the files of volumes in it.
#[derive(Drop)]
struct Folder<'a> {
    /// Its path.
    path: &'a str,
    /// The file of each volume, in ascending order.
    files: Vec<VolumeFile>,
}

/// Adds a byte of a volume's name to that of its file.
fn put_file_byte(alloc: Global, file: &mut String, byte: u8) -> Result<(), AllocError>
    ensures { OnOk result (string_bytes file.new ≡ string_bytes file.old ++ file_byte byte) }
{
    if byte == b'/' {
        return file.push_str("\\x2f");
    }
    if byte >= 0x21 && byte <= 0x7E && byte != b'\\' {
        return file.push(char::from(byte));
    }
    file.push_str("\\x")?;
    let digits = hex::encode(alloc, [byte])?;
    file.push_str(digits.as_str())
}

/// Adds a volume's name to that of its file.
fn put_file_name(alloc: Global, file: &mut String, name: &[u8]) -> Result<(), AllocError>
    ensures { OnOk result (string_bytes file.new ≡ string_bytes file.old ++ flat_map file_byte name.now) }
{
    for byte in name {
        put_file_byte(alloc, file, *byte)?;
    }
    Ok(())
}

/// The number of a volume, a hyphen, and the volume's name.
fn number_and_name(alloc: Global, listed: &(u32, VolumeRecord)) -> Result<String, AllocError>
    ensures { IfOk result (λ file. string_bytes file ≡ number_and_name listed.now) }
{
    let mut buffer = Buffer::new();
    let mut file = String::from_str(alloc, buffer.format(listed.0))?;
    file.push_str("-")?;
    put_file_name(alloc, &mut file, listed.1.name.as_bytes())?;
    Ok(file)
}

/// The name of a volume's file: its number and its name, or the number alone if that would be too long for a file.
#[tactic(auto, unfolding(crate::specs::Unpack::file_name))]
pub(crate) fn file_name(alloc: Global, listed: &(u32, VolumeRecord)) -> Result<String, AllocError>
    ensures { IfOk result (λ file. string_bytes file ≡ file_name listed.now) }
{
    let file = number_and_name(alloc, listed)?;
    if file.len() <= LONGEST_FILE_NAME {
        return Ok(file);
    }
    let mut buffer = Buffer::new();
    String::from_str(alloc, buffer.format(listed.0))
}

/// The path of a volume's file in a folder.
fn file_path(alloc: Global, dir: &str, listed: &(u32, VolumeRecord)) -> Result<String, AllocError>
    ensures { IfOk result (λ path. string_bytes path ≡ file_path dir.now listed.now) }
{
    let file = file_name(alloc, listed)?;
    let mut path = String::from_str(alloc, dir)?;
    path.push_str("/")?;
    path.push_str(file.as_str())?;
    Ok(path)
}

/// The file of a volume in a folder.
fn volume_file(
    alloc: Global,
    dir: &str,
    listed: &(u32, VolumeRecord),
) -> Result<VolumeFile, AllocError>
    ensures { IfOk result (IsFileOf dir.now listed.now) }
{
    let path = file_path(alloc, dir, listed)?;
    let unwritten = unwritten_line(alloc, path.as_str())?;
    Ok(VolumeFile { path, unwritten })
}

/// A folder with a file for each volume.
fn folder_of<'a>(
    alloc: Global,
    path: &'a str,
    entries: &[(u32, VolumeRecord)],
) -> Result<Folder<'a>, AllocError>
    ensures path { IfOk result (λ folder. folder.path.now ≡ path.now) }
    ensures files { IfOk result (λ folder. AreFilesOf path.now entries.now folder.files.items) }
{
    let mut files = Vec::new(alloc);
    for listed in entries {
        files.push(volume_file(alloc, path, listed)?)?;
    }
    Ok(Folder { path, files })
}

/// How many bytes a volume reads, by its extent, or why it can't be read.
fn unpacked_amount(extent: &Result<Extent, ReadError>) -> Amount
    ensures { result ≡ unpacked_amount (extent_len extent.now) }
{
    match extent {
        Ok(extent) => Amount::Bytes(extent.bytes),
        Err(ReadError::Updating) => Amount::Updating,
        Err(_) => Amount::Damaged,
    }
}

/// Adds the line of a volume, by its extent.
fn put_unpacked(
    alloc: Global,
    text: &mut Vec<u8>,
    listed: &(u32, VolumeRecord),
    extent: &Result<Extent, ReadError>,
) -> Result<(), AllocError>
    ensures { OnOk result (text.new.items ≡ text.old.items ++ unpacked_line (extent_len extent.now) listed.now) }
{
    put_number(text, "volume ", u64::from(listed.0))?;
    put_word(text, " ")?;
    put_amount(text, unpacked_amount(extent))?;
    put_word(text, " name=")?;
    put_shown(alloc, text, listed.1.name.as_bytes())?;
    put_word(text, "\n")
}

/// The status once one more volume was looked at: a volume that can't be read makes it that of a failure.
fn status_with(status: u8, extent: &Result<Extent, ReadError>) -> u8
    ensures { result ≡ (if is_ok (extent_len extent.now) then status else 1) }
{
    match extent {
        Ok(_) => status,
        Err(_) => FAILED,
    }
}

/// What is answered once the volumes are unpacked: a line for each, and whether all of them can be read.
fn unpacked(alloc: Global, places: &Places) -> Result<Outcome, AllocError>
    ensures { IfOk result (λ o. Gives o (says (unpacked_lines (λ id. extent_len (extent_in places.now id)) (finite.entries places.now.records.of)) (unpacked_status (λ id. extent_len (extent_in places.now id)) (finite.entries places.now.records.of)))) }
{
    let mut text = Vec::new(alloc);
    let mut status = DONE;
    for listed in places.table().entries() {
        let extent = places.extent(listed.0);
        status = status_with(status, &extent);
        put_unpacked(alloc, &mut text, listed, &extent)?;
    }
    Ok(Outcome::saying(text, status))
}

/// Writes what a volume of a source reads to a new file. If the volume can't be read, no file is made.
///
/// # Errors
///
/// `Read` if a read failed. `Write` if the file can't be made, or if a write failed.
fn unpack_volume<D: Disk, S: BlockSource>(
    disk: &mut D,
    geometry: &Geometry,
    source: &mut S,
    places: &Places,
    id: u32,
    path: &str,
    buffer: &mut [u8],
) -> Result<(), ToolError>
    requires places { ArePlacesOf geometry.now (S.known source.old) (S.agrees source.old) places.now }
    requires room { length buffer.old ≡ geometry.now.peb_size }
    ensures known { S.known source.new ≡ after_run (S.known source.old) result }
    ensures narrows { Narrows (S.agrees source.old) (S.agrees source.new) }
    ensures unpacked { OnOk result (WhereHeld (S.agrees source.new) (λ bytes. (h : ArePlaces (image_of geometry.now bytes) places.now) → IsUnpacked (read_volume h.meaning id) path.now (D.files disk.old) (D.files disk.new))) }
    ensures readable { result ≡ Err ToolError.Write → WhereHeld (S.agrees source.new) (λ bytes. (h : ArePlaces (image_of geometry.now bytes) places.now) → (text : List ℕ) × (read_volume h.meaning id ≡ Ok text)) }
    ensures others { OthersStay (D.files disk.old) (D.files disk.new) path.now }
    ensures failed { IfErr result (λ e. e ≢ ToolError.Memory) }
{
    let Ok(extent) = places.extent(id) else {
        return Ok(());
    };
    let Ok(mut file) = disk.create_new(path) else {
        return Err(ToolError::Write);
    };
    let out = &mut file.writer;
    let work = write_places(geometry, source, places, id, extent, buffer, out);
    disk.keep(file);
    match work {
        Ok(_) => Ok(()),
        Err(StreamError::Read(_, _)) => Err(ToolError::Read),
        Err(StreamError::Write(_)) => Err(ToolError::Write),
        // Nothing is refused any more, and no memory is allocated.
        Err(StreamError::Refused(_) | StreamError::Memory) => unreachable!(),
    }
}

/// Unpacks the volumes of a source, each to its file. It stops at the first whose file can't be written, and returns
/// its place; `None` if all are unpacked.
///
/// # Errors
///
/// `Read` if a read failed; then the files of the volumes before it are written.
fn unpack_volumes<D: Disk, S: BlockSource>(
    disk: &mut D,
    geometry: &Geometry,
    source: &mut S,
    places: &Places,
    folder: &Folder<'_>,
    buffer: &mut [u8],
) -> Result<Option<usize>, ToolError>
    requires places { ArePlacesOf geometry.now (S.known source.old) (S.agrees source.old) places.now }
    requires room { length buffer.old ≡ geometry.now.peb_size }
    requires files { AreFilesOf folder.now.path.now (finite.entries places.now.records.of) folder.now.files.items }
    ensures known { S.known source.new ≡ after_run (S.known source.old) result }
    ensures narrows { Narrows (S.agrees source.old) (S.agrees source.new) }
    ensures ends { IfOk result (λ stop. WhereHeld (S.agrees source.new) (λ bytes. (h : ArePlaces (image_of geometry.now bytes) places.now) → Ends (read_volume h.meaning) folder.now.path.now (finite.entries places.now.records.of) (D.files disk.old) (D.files disk.new) stop)) }
    ensures place { IfOk result (λ stop. IfSome stop (λ i. i < length (finite.entries places.now.records.of))) }
    ensures outside { OutsideStay (D.files disk.old) (D.files disk.new) folder.now.path.now }
    ensures failed { IfErr result (λ e. e ≡ ToolError.Read) }
{
    for (i, listed) in places.table().entries().iter().enumerate() {
        let path = folder.files[i].path.as_str();
        match unpack_volume(disk, geometry, source, places, listed.0, path, buffer) {
            Ok(()) => {}
            Err(ToolError::Read) => return Err(ToolError::Read),
            Err(ToolError::Write) => return Ok(Some(i)),
            // No memory is allocated.
            Err(ToolError::Memory) => unreachable!(),
        }
    }
    Ok(None)
}

/// Unpacks the volumes of a source to a folder, which is made, or has to be empty. All memory is allocated before that.
///
/// # Errors
///
/// `Read` if a read failed. `Memory` if memory ran out; then no file is written.
fn unpack_places<D: Disk, S: BlockSource>(
    disk: &mut D,
    alloc: Global,
    geometry: &Geometry,
    source: &mut S,
    places: &Places,
    dir: &str,
) -> Result<Outcome, ToolError>
    requires places { ArePlacesOf geometry.now (S.known source.old) (S.agrees source.old) places.now }
    ensures known { S.known source.new ≡ after_run (S.known source.old) result }
    ensures narrows { Narrows (S.agrees source.old) (S.agrees source.new) }
    ensures ok { IfOk result (UnpacksFrom geometry.now (S.known source.old) (S.agrees source.new) (D.files disk.old) (D.files disk.new)) }
    ensures image { IfOk result (λ o. WhereHeld (S.agrees source.new) (λ bytes. Unpacks (image_of geometry.now bytes) dir.now (D.files disk.old) (D.files disk.new) o)) }
    ensures outside { OutsideStay (D.files disk.old) (D.files disk.new) dir.now }
    ensures memory { result ≡ Err ToolError.Memory → AllStay (D.files disk.old) (D.files disk.new) }
    ensures failed { IfErr result IsNoWrite }
{
    let outcome = unpacked(alloc, places)?;
    let mut folder = folder_of(alloc, dir, places.table().entries())?;
    let config = folder_config(alloc, places, dir)?;
    let unmade = unwritten_line(alloc, dir)?;
    let mut buffer = Vec::from_elem(alloc, 0u8, geometry.peb_size() as usize)?;
    if disk.make_folder(dir).is_err() {
        return Ok(unmade);
    }
    let room = buffer.as_mut_slice();
    match unpack_volumes(disk, geometry, source, places, &folder, room)? {
        None => match write_new(disk, config.path.as_str(), config.text.as_slice()) {
            Ok(()) => Ok(outcome),
            Err(_) => Ok(config.unwritten),
        },
        Some(i) => Ok(folder.files.swap_remove(i).unwritten),
    }
}

/// Unpacks what the volumes of a source read to files of a folder, or answers with the line of its refusal. At most one
/// eraseblock of contents is held.
///
/// The folder is made, or has to be empty; it isn't touched if the image is refused. If it isn't empty or can't be made, or
/// the file of a volume can't be written, it answers with the line of that, and nothing more is written.
///
/// # Errors
///
/// `Read` if a read failed. `Memory` if memory ran out; then no file is written.
pub fn run_unpack_from<D: Disk, S: BlockSource>(
    disk: &mut D,
    alloc: Global,
    geometry: &Geometry,
    source: &mut S,
    dir: &str,
) -> Result<Outcome, ToolError>
    ensures known { S.known source.new ≡ after_run (S.known source.old) result }
    ensures narrows { Narrows (S.agrees source.old) (S.agrees source.new) }
    ensures ok { IfOk result (UnpacksFrom geometry.now (S.known source.old) (S.agrees source.new) (D.files disk.old) (D.files disk.new)) }
    ensures image { IfOk result (λ o. WhereHeld (S.agrees source.new) (λ bytes. Unpacks (image_of geometry.now bytes) dir.now (D.files disk.old) (D.files disk.new) o)) }
    ensures outside { OutsideStay (D.files disk.old) (D.files disk.new) dir.now }
    ensures memory { result ≡ Err ToolError.Memory → AllStay (D.files disk.old) (D.files disk.new) }
    ensures failed { IfErr result IsNoWrite }
{
    match attach_places(alloc, geometry, source) {
        Ok(places) => unpack_places(disk, alloc, geometry, source, &places, dir),
        Err(StreamError::Refused(cause)) => {
            Ok(Outcome::saying(refusal_line(alloc, cause)?, FAILED))
        }
        Err(StreamError::Read(_, _)) => Err(ToolError::Read),
        Err(StreamError::Memory) => Err(ToolError::Memory),
        // Nothing is written.
        Err(StreamError::Write(_)) => unreachable!(),
    }
}

/// What is answered for work over a file: its outcome, or the line of the file, if a read of it failed.
///
/// # Errors
///
/// Memory ran out.
fn told_or(work: Result<Outcome, ToolError>, unread: Outcome) -> Result<Outcome, AllocError>
    requires { IfErr work IsNoWrite }
    ensures told { (path : List ℕ) → Gives unread (says (file_line (codes "cannot read ") path) 1) → IfOk result (IsTold work path) }
    ensures memory { IfErr result (λ _. work ≡ Err ToolError.Memory) }
{
    match work {
        Ok(outcome) => Ok(outcome),
        Err(error) => match error {
            ToolError::Read => Ok(unread),
            ToolError::Memory => Err(AllocError),
            // If a file can't be written, the outcome says so.
            ToolError::Write => unreachable!(),
        },
    }
}

/// Unpacks what the volumes of a dump read to files of a folder. It is known how the dump is read.
fn unpack_dump<D: Disk + Eprint>(
    disk: &mut D,
    alloc: Global,
    known: KnownDump<'_>,
    paths: &Paths<'_>,
) -> Result<Outcome, AllocError>
    requires kept { ForSome known.kept (λ bytes. IsPartOf (D.files disk.old) known.dump paths.now.image.now bytes.items) }
    ensures answer { IfOk result (OfFile (D.files disk.old) known.entry.dump paths.now.image.now (UnpacksOf paths.now.out.now (D.files disk.old) (D.files disk.new))) }
    ensures outside { OutsideStay (D.files disk.old) (D.files disk.new) paths.now.out.now }
    ensures memory { OnErr result (AllStay (D.files disk.old) (D.files disk.new)) }
{
    let unread = unread_line(alloc, paths.image)?;
    let KnownDump { dump, kept } = known;
    let frame = match frame_of(alloc, &dump) {
        Ok(frame) => frame,
        Err(error) => return error.answer(),
    };
    remark_start(disk, paths.image, &frame);
    match open_known(disk, alloc, &frame, kept, paths.image) {
        Ok(OpenImage::AtPlaces(mut file)) => {
            let geometry = file.geometry;
            let work = run_unpack_from(disk, alloc, &geometry, &mut file.source, paths.out);
            if is_done(&work) {
                remark_passed_over(disk, alloc, &geometry, &mut file.source, paths.image);
            }
            told_or(work, unread)
        }
        Ok(OpenImage::Whole(file)) => {
            let mut source = MemorySource::new(file.bytes.as_slice());
            let work = run_unpack_from(disk, alloc, &file.geometry, &mut source, paths.out);
            if is_done(&work) {
                remark_passed_over(disk, alloc, &file.geometry, &mut source, paths.image);
            }
            told_or(work, unread)
        }
        Err(error) => error.answer(),
    }
}

/// Unpacks what the volumes of an image file read to files of a folder. The file is read as the words say, or as its own headers show.
pub fn unpack_file<D: Disk + Eprint>(
    disk: &mut D,
    alloc: Global,
    asked: &Asked<'_>,
    paths: &Paths<'_>,
) -> Result<Outcome, AllocError>
    ensures answer { IfOk result (OfAsked (D.files disk.old) (D.files disk.new) asked.now paths.now.image.now (UnpacksOf paths.now.out.now (D.files disk.old) (D.files disk.new))) }
    ensures outside { OutsideStay (D.files disk.old) (D.files disk.new) paths.now.out.now }
    ensures memory { OnErr result (AllStay (D.files disk.old) (D.files disk.new)) }
{
    match find_dump(disk, alloc, asked, paths.image, "") {
        Ok(known) => unpack_dump(disk, alloc, known, paths),
        Err(unread) => unread.answer(),
    }
}
