//! What words give: the parts of requests, and which of them words ask for.

ghost use Rattle.std.specs.Option.{ForSome};
ghost use Rattle.std.specs.Prelude.{◌≡◌, ◌↔◌, IsTrue, true};
ghost use Rattle.ubi_config.specs.Words.{most_bytes};
ghost use Rattle.ubi_files.specs.BadBlocks.{is_block_list};
ghost use Rattle.ubi_words.specs.Words.{most_number};
ghost use Rattle.ubi_writing.specs.ByteNumbers.{bytes_within};
ghost use Rattle.ubi_commands.specs.CommandLine.{AsksAsked, AsksBlank, AsksChange, AsksDump, AsksExtract, AsksFormat, AsksKey, AsksNewImage, AsksNumbers, AsksPart, AsksPaths, AsksPlan, AsksRename, AsksSought, AsksUpdate, HasBytes, HasNumber, HasText, HasTexts, MayHaveBytes, MayHaveNumber, MayHaveText, gives_word, gives_no_geometry};
ghost use Rattle.ubi_commands.specs.inner.CommandLine.{IsOneOf};
ghost use Rattle.ubi_commands.specs.inner.CommandLine.{words_in};

use clap::ArgMatches;
use ubi_dumps::{Asked, Paths, Sought};
use ubi_files::{Dump, FilePart, Numbers, is_block_list};
use ubi_reading::Format;
use ubi_writing::{Change, Extract, NewImage, Plan, Rename, Update, VolumeKey, bytes_within};

/// The last place in a file that an option can give, which has 63 bits.
const MOST_BYTES: u64 = 0x7FFF_FFFF_FFFF_FFFF;

/// The one word that `--blank` takes.
const KEEP: &str = "keep";

/// The word for the format of lines for people.
const TEXT: &str = "text";

/// The word for the format of JSON.
const JSON: &str = "json";

/// The volume that the words name, by its number or by its name. `None` if they name none, or give both.
fn key_of<'a>(matches: &'a ArgMatches<'_>) -> Option<VolumeKey<'a>>
    ensures { IsOneOf (AsksKey (words_in matches.now)) result }
{
    match (text_of(matches, "name"), text_of(matches, "id")) {
        (None, _) => Some(VolumeKey::Id(number_of(matches, "id")?)),
        (Some(name), None) => Some(VolumeKey::Name(name)),
        (Some(_), Some(_)) => None,
    }
}

pub fn paths_of<'a>(matches: &'a ArgMatches<'_>) -> Option<Paths<'a>>
    ensures { IsOneOf (AsksPaths (words_in matches.now)) result }
{
    let image = text_of(matches, "IMAGE")?;
    let out = text_of(matches, "out")?;
    Some(Paths { image, out })
}

pub fn volume_extract<'a>(matches: &'a ArgMatches<'_>) -> Option<Extract<'a>>
    ensures { IsOneOf (AsksExtract (words_in matches.now)) result }
{
    Some(Extract {
        paths: paths_of(matches)?,
        key: key_of(matches)?,
    })
}

/// The image that the words ask for, from the file under a name.
pub fn new_image<'a>(matches: &'a ArgMatches<'_>, name: &str) -> Option<NewImage<'a>>
    ensures { IsOneOf (AsksNewImage (words_in matches.now) name.now) result }
{
    Some(NewImage {
        from: text_of(matches, name)?,
        out: text_of(matches, "out")?,
        spares: number_of(matches, "spares").unwrap_or(0),
        image_seq: number_of(matches, "seq").unwrap_or(0),
    })
}

pub fn leb_change<'a>(matches: &'a ArgMatches<'_>) -> Option<Change<'a>>
    ensures { IsOneOf (AsksChange (words_in matches.now)) result }
{
    Some(Change {
        plan: plan_of(matches)?,
        id: number_of(matches, "id")?,
        lnum: number_of(matches, "lnum")?,
        from: text_of(matches, "from")?,
    })
}

pub fn volume_rename<'a>(matches: &'a ArgMatches<'_>) -> Option<Rename<'a>>
    ensures { IsOneOf (AsksRename (words_in matches.now)) result }
{
    Some(Rename {
        plan: plan_of(matches)?,
        id: number_of(matches, "id")?,
        name: text_of(matches, "name")?,
    })
}

pub fn volume_edits<'a>(matches: &'a ArgMatches<'_>) -> Option<Update<'a>>
    ensures { IsOneOf (AsksUpdate (words_in matches.now)) result }
{
    Some(Update {
        plan: plan_of(matches)?,
        names: texts_of(matches, "rename"),
        sizes: texts_of(matches, "resize"),
        removals: texts_of(matches, "remove"),
        contents: texts_of(matches, "write"),
        config: may_text_of(matches, "config"),
    })
}

fn plan_of<'a>(matches: &'a ArgMatches<'_>) -> Option<Plan<'a>>
    ensures { IsOneOf (AsksPlan (words_in matches.now)) result }
{
    Some(Plan {
        paths: paths_of(matches)?,
        stop: number_of(matches, "stop"),
        keeps_blank: blank_of(matches)?,
        pages: may_text_of(matches, "pages"),
    })
}

/// Whether the words keep Blank eraseblocks. `None` if they say something else about them.
pub fn blank_of(matches: &ArgMatches<'_>) -> Option<bool>
    ensures { IsOneOf (AsksBlank (words_in matches.now)) result }
{
    match may_text_of(matches, "blank") {
        None => Some(false),
        Some(word) if word == KEEP => Some(true),
        Some(_) => None,
    }
}

/// The format of the answer; if the words name none, it is that of lines. `None` if they name an unknown one.
pub fn format_of(matches: &ArgMatches<'_>) -> Option<Format>
    ensures { IsOneOf (AsksFormat (words_in matches.now)) result }
{
    match may_text_of(matches, "format") {
        None => Some(Format::Text),
        Some(word) if word == TEXT => Some(Format::Text),
        Some(word) if word == JSON => Some(Format::Json),
        Some(_) => None,
    }
}

/// How a dump is read: as the words say, or if they give no geometry, as its own headers show. `None` if they give half a geometry, if
/// the list of its bad eraseblocks isn't a list, or if what they give for a number of bytes isn't one.
pub fn asked_of<'a>(matches: &'a ArgMatches<'_>) -> Option<Asked<'a>>
    ensures { IsOneOf (AsksAsked (words_in matches.now)) result }
{
    if gives_no_geometry(matches) {
        Some(Asked::Sought(sought_of(matches)?))
    } else {
        Some(Asked::Given(dump_of(matches)?))
    }
}

/// Whether the words say nothing about a geometry except how many eraseblocks there are.
pub fn gives_no_geometry(matches: &ArgMatches<'_>) -> bool
    ensures { result ≡ gives_no_geometry (words_in matches.now) }
{
    !gives(matches, "peb")
        && !gives(matches, "page")
        && !gives(matches, "vid")
        && !gives(matches, "data")
        && !gives(matches, "oob")
}

/// Whether the words give anything under a name.
pub fn gives(matches: &ArgMatches<'_>, name: &str) -> bool
    ensures { result ≡ gives_word (words_in matches.now) name.now }
{
    matches.get_str(name).is_some()
}

/// A dump without a geometry in the words. `None` if the list of its bad eraseblocks isn't a list, or if what they give for its part isn't
/// a number of bytes.
fn sought_of<'a>(matches: &'a ArgMatches<'_>) -> Option<Sought<'a>>
    ensures { IsOneOf (AsksSought (words_in matches.now)) result }
{
    let bad = may_text_of(matches, "bad");
    if !are_listed(bad) {
        return None;
    }
    Some(Sought {
        part: part_of(matches)?,
        pebs: number_of(matches, "pebs"),
        bad,
    })
}

/// A dump with its geometry in the words. `None` if they lack a size, if the list of its bad eraseblocks isn't a list, or if what they give
/// for a number of bytes isn't one.
pub fn dump_of<'a>(matches: &'a ArgMatches<'_>) -> Option<Dump<'a>>
    ensures { IsOneOf (AsksDump (words_in matches.now)) result }
{
    let numbers = numbers_of(matches)?;
    let bad = may_text_of(matches, "bad");
    if !are_listed(bad) {
        return None;
    }
    Some(Dump {
        numbers,
        part: part_of(matches)?,
        oob: may_size_of(matches, "oob")?.unwrap_or(0),
        bad,
        counts_before: true,
    })
}

/// The part of a file. `None` if what the words give for it isn't a number of bytes.
pub fn part_of(matches: &ArgMatches<'_>) -> Option<FilePart>
    ensures { IsOneOf (AsksPart (words_in matches.now)) result }
{
    Some(FilePart {
        start: may_place_of(matches, "start")?.unwrap_or(0),
        length: may_place_of(matches, "length")?,
    })
}

/// Whether a word, if there is one, is a list of eraseblocks.
pub fn are_listed(word: Option<&str>) -> bool
    ensures { IsTrue result ↔ ForSome word.entry (λ list. is_block_list list.now ≡ true) }
{
    match word {
        Some(word) => is_block_list(word.as_bytes()),
        None => true,
    }
}

/// The numbers of a geometry. `None` if the words lack a size, or if what they give for a number of bytes isn't one.
pub fn numbers_of(matches: &ArgMatches<'_>) -> Option<Numbers>
    ensures { IsOneOf (AsksNumbers (words_in matches.now)) result }
{
    Some(Numbers {
        peb_size: size_of(matches, "peb")?,
        page: size_of(matches, "page")?,
        vid_offset: may_size_of(matches, "vid")?,
        data_offset: may_size_of(matches, "data")?,
        pebs: number_of(matches, "pebs"),
    })
}

/// Whether what the words give for numbers of bytes are such numbers.
pub fn are_bytes(matches: &ArgMatches<'_>) -> bool {
    let are_sizes = ["peb", "page", "vid", "data", "oob"]
        .iter()
        .all(|name| may_size_of(matches, name).is_some());
    are_sizes && part_of(matches).is_some()
}

/// The text that a word gives.
pub fn text_of<'a>(matches: &'a ArgMatches<'_>, name: &str) -> Option<&'a str>
    ensures { IsOneOf (HasText (words_in matches.now) name.now) result }
{
    matches.get_str(name)
}

/// The text that a word gives, if it is there.
pub fn may_text_of<'a>(matches: &'a ArgMatches<'_>, name: &str) -> Option<&'a str>
    ensures { MayHaveText (words_in matches.now) name.now result }
{
    matches.get_str(name)
}

/// The texts that an option gives, in order: one each time that it is given.
fn texts_of<'a>(matches: &'a ArgMatches<'_>, name: &str) -> &'a [&'a str]
    ensures { HasTexts (words_in matches.now) name.now result.now }
{
    matches.get_strs(name).unwrap_or(&[])
}

/// The number that an option gives.
pub fn number_of(matches: &ArgMatches<'_>, name: &str) -> Option<u32>
    ensures one { IsOneOf (HasNumber (words_in matches.now) name.now) result }
    ensures whole { MayHaveNumber (words_in matches.now) name.now result }
{
    matches.get_one::<u32>(name)
}

/// The number of bytes, of 32 bits, that a word stands for. `None` if it stands for none, or for a greater one.
fn size_in(word: &str) -> Option<u32>
    ensures { result ≡ bytes_within most_number word.now }
{
    let bytes = bytes_within(u64::from(u32::MAX), word.as_bytes())?;
    Some(bytes as u32)
}

/// The number of bytes, of 32 bits, that an option gives. `None` if it gives none.
fn size_of(matches: &ArgMatches<'_>, name: &str) -> Option<u32>
    ensures { IsOneOf (HasBytes most_number (words_in matches.now) name.now) result }
{
    size_in(may_text_of(matches, name)?)
}

/// The number of bytes, of 32 bits, that an option gives, if it is there. `None` if it is there and gives none.
fn may_size_of(matches: &ArgMatches<'_>, name: &str) -> Option<Option<u32>>
    ensures { IsOneOf (MayHaveBytes most_number (words_in matches.now) name.now) result }
{
    match may_text_of(matches, name) {
        Some(word) => Some(Some(size_in(word)?)),
        None => Some(None),
    }
}

/// The place in a file that an option gives, or a number of its bytes, of 63 bits, if it is there. `None` if it is there and gives none.
fn may_place_of(matches: &ArgMatches<'_>, name: &str) -> Option<Option<u64>>
    ensures { IsOneOf (MayHaveBytes most_bytes (words_in matches.now) name.now) result }
{
    match may_text_of(matches, name) {
        Some(word) => Some(Some(bytes_within(MOST_BYTES, word.as_bytes())?)),
        None => Some(None),
    }
}
