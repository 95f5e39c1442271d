//! What the sections of a config give: volumes to build, and the files that hold their bytes.

ghost use Rattle.std.specs.Prelude.{◌≡◌, ◌++◌, ◌<◌, ◌^◌, ◌∷◌, [], ℕ, Contains, Err, IfErr, IfOk, List, OnOk, map, option_map, sum_by};
ghost use Rattle.ubi_writing.specs.Build.{AreBesideOut, AreGathered, IsNoVolume, IsUngathered, config_line};
ghost use Rattle.ubi_writing.specs.inner.Gathering.{AreUnread, IsFoundFile, IsSectionPart, as_list};
ghost use Rattle.ubi_config.specs.declared.section.Section.{Section};
ghost use Rattle.ubi_config.specs.Records.{record_in};
ghost use Rattle.ubi_files.specs.Answer.{Gives, says};
ghost use Rattle.ubi_files.specs.Told.{Tells};
ghost use Rattle.ubi_media.specs.Geometry.{Sizes};

use std::alloc::{AllocError, Global};
use std::path::Path;
use ubi_config::{ConfigCause, ConfigError, Section};
use ubi_files::{Disk, FAILED, Outcome, SizedFile, Unread, refused, unread_line};
use ubi_laid::Part;
use ubi_media::Geometry;
use ubi_scan::PlacedFile;

/// The paths of a config, and of the image that is built from it.
#[derive(Clone, Copy)]
pub struct ConfigPaths<'a> {
    /// The path of the config.
    pub config: &'a str,
    /// The path of the file that is written.
    pub out: &'a str,
}

/// The image file of a section, if it names one, and the answer if that can't be read.
#[derive(Drop)]
struct Found<F: PlacedFile> {
    file: Option<SizedFile<F>>,
    unread: Outcome,
}

/// Volumes to build, and the files that hold their bytes.
#[derive(Drop)]
pub struct Gathered<F: PlacedFile> {
    /// The volumes, in the order of their sections.
    pub parts: Vec<Part>,
    /// The files, in the same order; there is none for a volume without bytes.
    pub files: Vec<SizedFile<F>>,
    /// How many bytes the files have together.
    pub total: u64,
    /// The answer if the bytes of a volume can't be read, for each volume in the same order.
    pub unread: Vec<Outcome>,
}

/// The answer for a line of a config that has a fault.
pub fn config_line(alloc: Global, line: u32, cause: ConfigCause) -> Result<Outcome, AllocError>
    ensures { IfOk result (λ o. Gives o (says (config_line line cause) 1)) }
{
    let text = refused(alloc, &ConfigError::Refused { line, cause })?;
    Ok(Outcome::saying(text, FAILED))
}

/// Opens the image file of a section, if it names one.
///
/// # Errors
///
/// The line of a file that can't be read, or that may be the output; that of a path that isn't text; or that memory ran out.
fn find_image<D: Disk>(
    disk: &D,
    alloc: Global,
    section: &Section,
    paths: ConfigPaths<'_>,
) -> Result<Found<D::Placed>, Unread>
    ensures found { IfOk result (λ f. IsFoundFile (D.files disk.now) paths.entry.config.now section.now f.unread (option_map (λ x. (D.Placed.bytes x.file, x.len)) f.file)) }
    ensures apart { IfOk result (λ _. AreBesideOut paths.entry.config.now paths.entry.out.now (section.now ∷ [])) }
    ensures unread { (s : Sizes) → IfErr result (Tells (IsNoVolume (D.files disk.now) s paths.entry.config.now section.now)) }
{
    let Some(image) = &section.image else {
        let unread = unread_line(alloc, paths.config)?;
        return Ok(Found { file: None, unread });
    };
    let Ok(image) = str::from_utf8(image.as_bytes()) else {
        return Err(Unread::Told(config_line(alloc, section.line, ConfigCause::Unfit)?));
    };
    let path = Path::new(paths.config).with_file_name(alloc, image)?;
    let unread = unread_line(alloc, path.as_str())?;
    match disk.placed_beside(path.as_str(), paths.out) {
        Some(file) => Ok(Found {
            file: Some(file),
            unread,
        }),
        None => {
            disk.tell_unplaced(path.as_str(), paths.out);
            Err(Unread::Told(unread))
        },
    }
}

impl<F: PlacedFile + Drop> Found<F> {
    /// The size of the file in bytes, if there is one.
    fn len(&self) -> Option<u64>
        ensures { result ≡ option_map (λ x. x.len) self.now.file }
    {
        self.file.as_ref().map(|file| file.len())
    }

    /// The volume of a section, whose bytes begin at a place of the source.
    ///
    /// # Errors
    ///
    /// Why the section gives no record.
    fn part(&self, geometry: &Geometry, section: &Section, start: u64) -> Result<Part, ConfigCause>
        ensures part { IfOk result (IsSectionPart geometry.now start (section.now, option_map (λ x. x.len) self.now.file)) }
        ensures place { start < 2 ^ 64 }
        ensures refused { IfErr result (λ c. record_in geometry.now section.now (option_map (λ x. x.len) self.now.file) ≡ Err c) }
    {
        let len = self.len();
        let entry = section.record(geometry, len)?;
        Ok(Part {
            id: section.id,
            entry,
            start,
            len: len.unwrap_or(0),
        })
    }
}

impl<F: PlacedFile + Drop> Gathered<F> {
    /// No volumes yet.
    fn new(alloc: Global) -> Gathered<F>
        ensures parts { result.parts.items ≡ [] }
        ensures files { result.files.items ≡ [] }
        ensures total { result.total ≡ 0 }
        ensures unread { result.unread.items ≡ [] }
    {
        Gathered {
            parts: Vec::new(alloc),
            files: Vec::new(alloc),
            total: 0,
            unread: Vec::new(alloc),
        }
    }

    /// Adds a volume, and its file, if there is one.
    fn add(&mut self, part: Part, found: Found<F>, total: u64) -> Result<(), AllocError>
        ensures parts { OnOk result (self.new.parts.items ≡ self.old.parts.items ++ (part ∷ [])) }
        ensures files { OnOk result (self.new.files.items ≡ self.old.files.items ++ as_list found.file) }
        ensures total { OnOk result (self.new.total ≡ total) }
        ensures unread { OnOk result (self.new.unread.items ≡ self.old.unread.items ++ (found.unread ∷ [])) }
    {
        let Found { file, unread } = found;
        self.parts.push(part)?;
        self.unread.push(unread)?;
        if let Some(file) = file {
            self.files.push(file)?;
        }
        self.total = total;
        Ok(())
    }
}

/// Opens the image files of sections, and gathers their volumes.
///
/// # Errors
///
/// The line of the first section that gives no volume: that of its image file, which can't be read, or may be the output; or
/// why the section gives no record. Or that memory ran out.
pub fn gather<D: Disk>(
    disk: &D,
    alloc: Global,
    geometry: &Geometry,
    sections: &[Section],
    paths: ConfigPaths<'_>,
) -> Result<Gathered<D::Placed>, Unread>
    ensures gathered { IfOk result (λ g. AreGathered (D.files disk.now) geometry.now paths.entry.config.now sections.now g.parts.items (map (λ x. D.Placed.bytes x.file) g.files.items)) }
    ensures apart { IfOk result (λ _. AreBesideOut paths.entry.config.now paths.entry.out.now sections.now) }
    ensures total { IfOk result (λ g. g.total ≡ sum_by (λ x. x.len) g.files.items) }
    ensures lines { IfOk result (λ g. AreUnread paths.entry.config.now sections.now g.unread.items) }
    ensures unread { IfErr result (Tells (IsUngathered (D.files disk.now) geometry.now paths.entry.config.now sections.now)) }
{
    let mut gathered = Gathered::new(alloc);
    for section in sections {
        let found = find_image(disk, alloc, section, paths)?;
        let part = match found.part(geometry, section, gathered.total) {
            Ok(part) => part,
            Err(cause) => return Err(Unread::Told(config_line(alloc, section.line, cause)?)),
        };
        let Some(total) = gathered.total.checked_add(part.len) else {
            return Err(Unread::Told(found.unread));
        };
        gathered.add(part, found, total)?;
    }
    Ok(gathered)
}
