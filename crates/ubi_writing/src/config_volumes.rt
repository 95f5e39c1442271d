//! The volumes that the sections of a config give an update, and the files that are to be their contents.

ghost use Rattle.std.specs.Prelude.{◌≡◌, ◌+◌, ◌++◌, ◌∷◌, [], ℕ, Contains, IfErr, IfOk, List, OnOk, map, string_bytes, sum_by, unwrap_or};
ghost use Rattle.ubi_config.specs.declared.section.Section.{Section};
ghost use Rattle.ubi_files.specs.Disk.{Files};
ghost use Rattle.ubi_files.specs.Numbers.{sizes_of};
ghost use Rattle.ubi_files.specs.Told.{Tells};
ghost use Rattle.ubi_files.specs.declared.numbers.Numbers.{Numbers};
ghost use Rattle.ubi_writing.specs.Contents.{IsImageOf, IsUnimaged, section_path};
ghost use Rattle.ubi_writing.specs.inner.Filling.{IsImagedBy, IsVolumeOf, bytes_in};

use crate::contents::{Contents, ContentsFile, held_file, open_contents, push_file};
use crate::gathered::config_line;
use std::alloc::{AllocError, Global};
use std::path::Path;
use ubi_change::NewVolume;
use ubi_config::{ConfigCause, Section};
use ubi_files::{Disk, Numbers, SizedFile, Unread};
use ubi_media::{Geometry, VolumeRecord};

/// A volume of a config, and the path of the file that holds its contents; that of the config, if it names none.
#[derive(Drop)]
struct Image {
    entry: VolumeRecord,
    path: String,
}

impl Contents<'_> {
    /// Adds what is asked for by a section, whose file has so many bytes.
    fn add_image(&mut self, image: Image, len: u64) -> Result<(), AllocError>
        ensures asks { self.new.asks ≡ self.old.asks }
        ensures volumes { OnOk result (self.new.volumes.items ≡ self.old.volumes.items ++ (record { entry = image.entry; start = self.old.total; len = len } ∷ [])) }
        ensures paths { OnOk result (self.new.paths.items ≡ self.old.paths.items ++ (image.path ∷ [])) }
        ensures total { OnOk result (self.new.total ≡ self.old.total + len) }
    {
        let Image { entry, path } = image;
        let volume = NewVolume {
            entry,
            start: self.total,
            len,
        };
        self.volumes.push(volume)?;
        self.add_file(path, len)
    }
}

/// The path of the image file of a section; that of the config, if it names none.
///
/// # Errors
///
/// The line of a path that isn't text; or that memory ran out.
fn section_path(alloc: Global, config: &str, section: &Section) -> Result<String, Unread>
    ensures path { IfOk result (λ path. string_bytes path ≡ section_path config.now section.now) }
    ensures unread { (d : Files) (numbers : Numbers) → IfErr result (Tells (IsUnimaged d numbers config.now section.now)) }
{
    let Some(image) = &section.image else {
        return Ok(String::from_str(alloc, config)?);
    };
    let Ok(image) = str::from_utf8(image.as_bytes()) else {
        return Err(Unread::Told(config_line(alloc, section.line, ConfigCause::Unfit)?));
    };
    let path = Path::new(config).with_file_name(alloc, image)?;
    Ok(String::from_str(alloc, path.as_str())?)
}

/// Opens the image file of a section, if it names one, at its path, and says how many bytes it has. If it names none, there is a file
/// without bytes.
///
/// # Errors
///
/// The line of a file that can't be read; or that memory ran out.
fn open_image<D: Disk + Eprint>(
    disk: &D,
    alloc: Global,
    numbers: Numbers,
    section: &Section,
    path: &str,
    dump: &str,
    before: &[String],
) -> Result<(Option<u64>, SizedFile<ContentsFile<D::Placed>>), Unread>
    ensures image { (config : List ℕ) → path.now ≡ section_path config section.now → IfOk result (λ r. IsImageOf (D.files disk.now) (sizes_of numbers) config section.now r.0 (bytes_in (λ x. D.Placed.bytes x.file) r.1.file)) }
    ensures size { IfOk result (λ r. r.1.len ≡ unwrap_or r.0 0) }
    ensures unread { (config : List ℕ) → path.now ≡ section_path config section.now → IfErr result (Tells (IsUnimaged (D.files disk.now) numbers config section.now)) }
{
    if section.image.is_none() {
        return Ok((None, held_file(Vec::new(alloc))));
    }
    let file = open_contents(disk, alloc, numbers, path, dump, before)?;
    Ok((Some(file.len()), file))
}

/// Opens the image file of a section, if it names one, and gives its volume.
///
/// # Errors
///
/// The line of a file that can't be read, or of a section that gives no volume; or that memory ran out.
fn open_volume<D: Disk + Eprint>(
    disk: &D,
    alloc: Global,
    numbers: Numbers,
    geometry: &Geometry,
    config: &str,
    section: &Section,
    dump: &str,
    before: &[String],
) -> Result<(Image, SizedFile<ContentsFile<D::Placed>>), Unread>
    requires { geometry.now ≡ sizes_of numbers }
    ensures volume { IfOk result (λ r. IsVolumeOf (D.files disk.now) (sizes_of numbers) config.now section.now r.0 r.1.len (bytes_in (λ x. D.Placed.bytes x.file) r.1.file)) }
    ensures unread { IfErr result (Tells (IsUnimaged (D.files disk.now) numbers config.now section.now)) }
{
    let path = section_path(alloc, config, section)?;
    let (len, file) = open_image(disk, alloc, numbers, section, path.as_str(), dump, before)?;
    match section.record(geometry, len) {
        Ok(entry) => Ok((Image { entry, path }, file)),
        Err(cause) => Err(Unread::Told(config_line(alloc, section.line, cause)?)),
    }
}

/// Opens the image files of sections, and adds the volumes to what is asked.
///
/// # Errors
///
/// The line of the first file that can't be read, or of the first section that gives no volume; or that memory ran out.
pub fn gather_volumes<'a, D: Disk + Eprint>(
    disk: &D,
    alloc: Global,
    numbers: Numbers,
    geometry: &Geometry,
    config: &str,
    sections: &[Section],
    dump: &str,
    contents: &mut Contents<'a>,
    files: &mut Vec<SizedFile<ContentsFile<D::Placed>>>,
) -> Result<(), Unread>
    requires { geometry.now ≡ sizes_of numbers }
    ensures imaged { OnOk result (IsImagedBy (D.files disk.now) (sizes_of numbers) config.now sections.now contents.old contents.new (map (λ f. bytes_in (λ x. D.Placed.bytes x.file) f.file) files.old.items) (map (λ f. bytes_in (λ x. D.Placed.bytes x.file) f.file) files.new.items)) }
    ensures total { contents.old.total ≡ sum_by (λ f. f.len) files.old.items → OnOk result (contents.new.total ≡ sum_by (λ f. f.len) files.new.items) }
    ensures unread { IfErr result (Tells (λ o. (x : Section) × Contains sections.now x × IsUnimaged (D.files disk.now) numbers config.now x o)) }
{
    for section in sections {
        let before = contents.paths.as_slice();
        let (image, file) = open_volume(
            disk, alloc, numbers, geometry, config, section, dump, before,
        )?;
        contents.add_image(image, file.len())?;
        push_file(files, file)?;
    }
    Ok(())
}
