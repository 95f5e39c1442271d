//! All that an update is asked for, by words and by the sections of a config.

ghost use Rattle.std.specs.Prelude.{◌≡◌, ◌++◌, ◌∷◌, [], ℕ, IfErr, IfOk, List, None, OnOk, Some, map, string_bytes, sum_by};
ghost use Rattle.ubi_config.specs.Config.{first_config_fault, sections_of};
ghost use Rattle.ubi_files.specs.Answer.{Gives, says};
ghost use Rattle.ubi_files.specs.Told.{Tells};
ghost use Rattle.ubi_writing.specs.Contents.{IsFaultyLine};
ghost use Rattle.ubi_writing.specs.inner.Filling.{IsAllAsked, IsUnaskedBy, bytes_in};

use crate::config_volumes::gather_volumes;
use crate::contents::{Contents, ContentsFile, gather_contents};
use crate::gathered::config_line;
use crate::orders::Update;
use crate::spec_file::{SpecFile, load_spec};
use std::alloc::{AllocError, Global};
use ubi_config::{ConfigError, Section, parse_config};
use ubi_files::{Disk, Numbers, Outcome, SizedFile, Unread};

impl Contents<'_> {
    /// Adds the path of a file that is read, and holds no contents.
    fn add_read(&mut self, alloc: Global, path: &str) -> Result<(), AllocError>
        ensures asks { self.new.asks ≡ self.old.asks }
        ensures volumes { self.new.volumes ≡ self.old.volumes }
        ensures paths { OnOk result (map string_bytes self.new.paths.items ≡ map string_bytes self.old.paths.items ++ (path.now ∷ [])) }
        ensures total { self.new.total ≡ self.old.total }
    {
        self.paths.push(String::from_str(alloc, path)?)?;
        Ok(())
    }
}

/// What tells of a line, or that memory ran out.
fn telling(line: Result<Outcome, AllocError>) -> Unread
    ensures { (text : List ℕ) → IfOk line (λ o. Gives o (says text 1)) → Tells (λ o. Gives o (says text 1)) result }
{
    match line {
        Ok(outcome) => Unread::Told(outcome),
        Err(AllocError) => Unread::Memory,
    }
}

/// The sections of a config.
///
/// # Errors
///
/// The line of its first fault; or that memory ran out.
fn sections_of(alloc: Global, text: &[u8]) -> Result<Vec<Section>, Unread>
    ensures faultless { IfOk result (λ _. first_config_fault text.now ≡ None) }
    ensures sections { IfOk result (λ xs. xs.items ≡ sections_of text.now) }
    ensures refused { IfErr result (Tells (IsFaultyLine text.now)) }
{
    match parse_config(alloc, text) {
        Ok(sections) => Ok(sections),
        Err(ConfigError::Refused { line, cause }) => Err(telling(config_line(alloc, line, cause))),
        Err(ConfigError::Memory) => Err(Unread::Memory),
    }
}

/// Opens the files that are to be contents of volumes, those of words and those of the sections of a config.
///
/// # Errors
///
/// The line of the config, if it can't be read or has a fault; or of the first file that can't be read, or of the first section that gives
/// no volume; or that memory ran out.
fn gather_with<'a, D: Disk + Eprint>(
    disk: &D,
    alloc: Global,
    numbers: Numbers,
    asked: &Update<'a>,
    config: &str,
) -> Result<(Contents<'a>, Vec<SizedFile<ContentsFile<D::Placed>>>), Unread>
    requires { asked.now.config ≡ Some config }
    ensures asked { IfOk result (λ r. IsAllAsked (D.files disk.now) numbers asked.now r.0 (map (λ f. bytes_in (λ x. D.Placed.bytes x.file) f.file) r.1.items)) }
    ensures total { IfOk result (λ r. r.0.total ≡ sum_by (λ f. f.len) r.1.items) }
    ensures unread { IfErr result (Tells (IsUnaskedBy (D.files disk.now) numbers asked.now)) }
{
    let SpecFile { geometry, text } = load_spec(disk, alloc, numbers, config)?;
    let sections = sections_of(alloc, text.as_slice())?;
    let (mut contents, mut files) = gather_contents(disk, alloc, numbers, asked)?;
    gather_volumes(
        disk,
        alloc,
        numbers,
        &geometry,
        config,
        sections.as_slice(),
        asked.plan.paths.image,
        &mut contents,
        &mut files,
    )?;
    contents.add_read(alloc, config)?;
    Ok((contents, files))
}

/// Opens the files that are to be contents of volumes, and says what is asked of these.
///
/// # Errors
///
/// The line of the config, if it can't be read or has a fault; or of the first file that can't be read, or of the first section that gives
/// no volume; or that memory ran out.
pub fn gather_asked<'a, D: Disk + Eprint>(
    disk: &D,
    alloc: Global,
    numbers: Numbers,
    asked: &Update<'a>,
) -> Result<(Contents<'a>, Vec<SizedFile<ContentsFile<D::Placed>>>), Unread>
    ensures asked { IfOk result (λ r. IsAllAsked (D.files disk.now) numbers asked.now r.0 (map (λ f. bytes_in (λ x. D.Placed.bytes x.file) f.file) r.1.items)) }
    ensures total { IfOk result (λ r. r.0.total ≡ sum_by (λ f. f.len) r.1.items) }
    ensures unread { IfErr result (Tells (IsUnaskedBy (D.files disk.now) numbers asked.now)) }
{
    match asked.config {
        Some(config) => gather_with(disk, alloc, numbers, asked, config),
        None => gather_contents(disk, alloc, numbers, asked),
    }
}

/// The paths, lent.
///
/// # Errors
///
/// Memory ran out.
pub fn lent_paths(alloc: Global, paths: &[String]) -> Result<Vec<&str>, AllocError>
    ensures { IfOk result (λ lent. map (λ p. p.now) lent.items ≡ map string_bytes paths.now) }
{
    let mut lent = Vec::new(alloc);
    for path in paths {
        lent.push(path.as_str())?;
    }
    Ok(lent)
}
