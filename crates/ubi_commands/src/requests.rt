//! What the words of a command line ask for, and how it is done.

ghost use Rattle.clap.specs.Simple.{subcommand_rows_of};
ghost use Rattle.std.specs.Prelude.{◌≡◌, IfOk, OnErr, codes};
ghost use Rattle.ubi_commands.specs.inner.CommandLine.{IsOneOf};
ghost use Rattle.ubi_commands.specs.Commands.{IsAllElse, IsAnswerTo, IsRequest};
ghost use Rattle.ubi_files.specs.Disk.{AllStay};
ghost use Rattle.ubi_commands.specs.inner.CommandLine.{IsAskedBy, words_in};

use crate::given::{
    are_bytes, are_listed, asked_of, blank_of, dump_of, format_of, gives, gives_no_geometry,
    leb_change, may_text_of, new_image, number_of, numbers_of, part_of, paths_of, text_of,
    volume_edits, volume_extract, volume_rename,
};
use clap::ArgMatches;
use std::alloc::{AllocError, Global};
use ubi_dumps::{Asked, KnownDump, Paths};
use ubi_files::{Disk, Dump, FilePart, Numbers, Outcome};
use ubi_reading::{Comparison, Format, Reading, compare_files, map_file, read_dump, read_file};
use ubi_writing::{
    Change, Extract, NewImage, Rename, Update, Writing, build_file, change_file, compose_file,
    rename_file, unpack_file, update_file, write_file,
};

const NO_VOLUME: &str = "error: either '--id <N>' or '--name <NAME>' has to be given

For more information, try '--help'.
";

const TWO_VOLUMES: &str =
    "error: either '--id <N>' or '--name <NAME>' names the volume, and not both

For more information, try '--help'.
";

const BAD_BYTES: &str =
    "error: '--peb', '--page', '--vid', '--data' and '--oob' take a number of bytes below 4GiB, and '--start' and '--length' one below 2^63, as 131072, 128KiB or 0x20000

For more information, try '--help'.
";

const HALF_GEOMETRY: &str =
    "error: '--peb <N>' and '--page <N>' are given together, or left out, and then '--vid', '--data' and '--oob' are too

For more information, try '--help'.
";

const BAD_LIST: &str =
    "error: '--bad <LIST>' takes numbers of eraseblocks and ranges of them, as 3,9,28-31

For more information, try '--help'.
";

const BAD_FORMAT: &str = "error: '--format' takes the word text or json

For more information, try '--help'.
";

const BAD_BLANK: &str = "error: '--blank' takes the word keep

For more information, try '--help'.
";

/// What the words ask for, with the paths as they were given.
#[derive(Clone, Copy)]
pub enum Request<'a> {
    /// The geometries that the headers in a part of a file give.
    Geometry {
        part: FilePart,
        image: &'a str,
        format: Format,
    },
    /// What a command that writes no file prints for one file.
    Tell {
        dump: Asked<'a>,
        image: &'a str,
        command: Reading,
    },
    /// What lies where in one file, and a page that shows it, if one is asked for.
    Map {
        dump: Asked<'a>,
        image: &'a str,
        page: Option<&'a str>,
    },
    /// What a volume of one file reads, written to another.
    Extract {
        dump: Asked<'a>,
        extract: Extract<'a>,
    },
    /// What each volume of a file reads, written to files of a folder.
    Unpack {
        dump: Asked<'a>,
        paths: Paths<'a>,
    },
    /// The image that a text file describes, written to another file.
    Compose {
        numbers: Numbers,
        new: NewImage<'a>,
    },
    /// The image that a config and the files that it names give, written to another file.
    Build {
        numbers: Numbers,
        new: NewImage<'a>,
    },
    /// The normal image of one file, written to another.
    Normalise {
        dump: Asked<'a>,
        paths: Paths<'a>,
    },
    /// What comparing two files answers.
    Compare {
        how: Comparison,
        dump: Asked<'a>,
        left: &'a str,
        right: &'a str,
    },
    /// A change of one file, written to another.
    Change {
        dump: Dump<'a>,
        change: Change<'a>,
    },
    /// A rename of a volume of one file, written to another.
    Rename {
        dump: Dump<'a>,
        rename: Rename<'a>,
    },
    /// Edits of whole volumes of one file, written to another.
    Update {
        dump: Dump<'a>,
        update: Update<'a>,
    },
}

/// What is asked for, if the words name a command and have all that it needs. Words that the command line takes
/// always do.
pub fn request_of<'a>(matches: &'a ArgMatches<'_>) -> Option<Request<'a>>
    ensures { IsOneOf (IsRequest (subcommand_rows_of matches.now)) result }
{
    let (name, inner) = matches.subcommand()?;
    request_under(name, inner)
}

/// What is wrong with words that the command line reads, but that ask for nothing.
pub fn why_unasked(matches: &ArgMatches<'_>) -> &'static str {
    match matches.subcommand() {
        Some((_, words)) if !are_listed(words.get_str("bad")) => BAD_LIST,
        Some((_, words)) if blank_of(words).is_none() => BAD_BLANK,
        Some((_, words)) if format_of(words).is_none() => BAD_FORMAT,
        Some((_, words)) if !are_bytes(words) => BAD_BYTES,
        Some((_, words)) if numbers_of(words).is_none() && !gives_no_geometry(words) =>
            HALF_GEOMETRY,
        Some((_, words)) if gives(words, "id") && gives(words, "name") => TWO_VOLUMES,
        _ => NO_VOLUME,
    }
}

/// What the words of the command of this name ask for.
fn request_under<'a>(name: &str, matches: &'a ArgMatches<'_>) -> Option<Request<'a>>
    ensures { IsOneOf (IsAskedBy name.now (words_in matches.now)) result }
{
    match name {
        "geometry" => geometry_of(matches),
        "list" => list_of(matches),
        "check" => check_of(matches),
        "show" => show_of(matches),
        "map" => map_of(matches),
        "extract" => extract_of(matches),
        "unpack" => unpack_of(matches),
        "compose" => compose_of(matches),
        "build" => build_of(matches),
        "normalise" => normalise_of(matches),
        "same" => same_of(matches),
        "diff" => diff_of(matches),
        "change" => change_of(matches),
        "rename" => rename_of(matches),
        "update" => update_of(matches),
        _ => None,
    }
}

fn geometry_of<'a>(matches: &'a ArgMatches<'_>) -> Option<Request<'a>>
    ensures { IsOneOf (IsAskedBy (codes "geometry") (words_in matches.now)) result }
{
    Some(Request::Geometry {
        part: part_of(matches)?,
        image: text_of(matches, "IMAGE")?,
        format: format_of(matches)?,
    })
}

fn list_of<'a>(matches: &'a ArgMatches<'_>) -> Option<Request<'a>>
    ensures { IsOneOf (IsAskedBy (codes "list") (words_in matches.now)) result }
{
    Some(Request::Tell {
        dump: asked_of(matches)?,
        image: text_of(matches, "IMAGE")?,
        command: Reading::List(format_of(matches)?),
    })
}

fn check_of<'a>(matches: &'a ArgMatches<'_>) -> Option<Request<'a>>
    ensures { IsOneOf (IsAskedBy (codes "check") (words_in matches.now)) result }
{
    Some(Request::Tell {
        dump: asked_of(matches)?,
        image: text_of(matches, "IMAGE")?,
        command: Reading::Check(format_of(matches)?),
    })
}

fn show_of<'a>(matches: &'a ArgMatches<'_>) -> Option<Request<'a>>
    ensures { IsOneOf (IsAskedBy (codes "show") (words_in matches.now)) result }
{
    Some(Request::Tell {
        dump: asked_of(matches)?,
        image: text_of(matches, "IMAGE")?,
        command: Reading::Show(number_of(matches, "block")?),
    })
}

fn map_of<'a>(matches: &'a ArgMatches<'_>) -> Option<Request<'a>>
    ensures { IsOneOf (IsAskedBy (codes "map") (words_in matches.now)) result }
{
    Some(Request::Map {
        dump: asked_of(matches)?,
        image: text_of(matches, "IMAGE")?,
        page: may_text_of(matches, "out"),
    })
}

fn extract_of<'a>(matches: &'a ArgMatches<'_>) -> Option<Request<'a>>
    ensures { IsOneOf (IsAskedBy (codes "extract") (words_in matches.now)) result }
{
    Some(Request::Extract {
        dump: asked_of(matches)?,
        extract: volume_extract(matches)?,
    })
}

fn unpack_of<'a>(matches: &'a ArgMatches<'_>) -> Option<Request<'a>>
    ensures { IsOneOf (IsAskedBy (codes "unpack") (words_in matches.now)) result }
{
    Some(Request::Unpack {
        dump: asked_of(matches)?,
        paths: paths_of(matches)?,
    })
}

fn compose_of<'a>(matches: &'a ArgMatches<'_>) -> Option<Request<'a>>
    ensures { IsOneOf (IsAskedBy (codes "compose") (words_in matches.now)) result }
{
    Some(Request::Compose {
        numbers: numbers_of(matches)?,
        new: new_image(matches, "SPEC")?,
    })
}

fn build_of<'a>(matches: &'a ArgMatches<'_>) -> Option<Request<'a>>
    ensures { IsOneOf (IsAskedBy (codes "build") (words_in matches.now)) result }
{
    Some(Request::Build {
        numbers: numbers_of(matches)?,
        new: new_image(matches, "CONFIG")?,
    })
}

fn normalise_of<'a>(matches: &'a ArgMatches<'_>) -> Option<Request<'a>>
    ensures { IsOneOf (IsAskedBy (codes "normalise") (words_in matches.now)) result }
{
    Some(Request::Normalise {
        dump: asked_of(matches)?,
        paths: paths_of(matches)?,
    })
}

fn same_of<'a>(matches: &'a ArgMatches<'_>) -> Option<Request<'a>>
    ensures { IsOneOf (IsAskedBy (codes "same") (words_in matches.now)) result }
{
    Some(Request::Compare {
        how: Comparison::Same(format_of(matches)?),
        dump: asked_of(matches)?,
        left: text_of(matches, "IMAGE")?,
        right: text_of(matches, "OTHER")?,
    })
}

fn diff_of<'a>(matches: &'a ArgMatches<'_>) -> Option<Request<'a>>
    ensures { IsOneOf (IsAskedBy (codes "diff") (words_in matches.now)) result }
{
    Some(Request::Compare {
        how: Comparison::Diff(format_of(matches)?),
        dump: asked_of(matches)?,
        left: text_of(matches, "IMAGE")?,
        right: text_of(matches, "OTHER")?,
    })
}

fn change_of<'a>(matches: &'a ArgMatches<'_>) -> Option<Request<'a>>
    ensures { IsOneOf (IsAskedBy (codes "change") (words_in matches.now)) result }
{
    Some(Request::Change {
        dump: dump_of(matches)?,
        change: leb_change(matches)?,
    })
}

fn rename_of<'a>(matches: &'a ArgMatches<'_>) -> Option<Request<'a>>
    ensures { IsOneOf (IsAskedBy (codes "rename") (words_in matches.now)) result }
{
    Some(Request::Rename {
        dump: dump_of(matches)?,
        rename: volume_rename(matches)?,
    })
}

fn update_of<'a>(matches: &'a ArgMatches<'_>) -> Option<Request<'a>>
    ensures { IsOneOf (IsAskedBy (codes "update") (words_in matches.now)) result }
{
    Some(Request::Update {
        dump: dump_of(matches)?,
        update: volume_edits(matches)?,
    })
}

/// Runs a request.
pub fn run_request<D: Disk + Eprint>(
    disk: &mut D,
    alloc: Global,
    request: Request<'_>,
    is_watched: bool,
) -> Result<Outcome, AllocError>
    ensures answer { IfOk result (IsAnswerTo (D.files disk.old) (D.files disk.new) request.entry) }
    ensures others { IsAllElse request.entry (D.files disk.old) (D.files disk.new) }
    ensures memory { OnErr result (AllStay (D.files disk.old) (D.files disk.new)) }
{
    match request {
        Request::Geometry {
            part,
            image,
            format,
        } => {
            let known = KnownDump::given(Dump::greatest(part));
            read_dump(disk, alloc, known, image, &Reading::Geometry(part, format))
        }
        Request::Tell {
            dump,
            image,
            command,
        } => read_file(disk, alloc, &dump, image, &command),
        Request::Map { dump, image, page } => map_file(disk, alloc, &dump, image, page),
        Request::Extract { dump, extract } => {
            let command = Writing::Extract(extract.key);
            write_file(disk, alloc, &dump, &extract.paths, &command, false)
        }
        Request::Unpack { dump, paths } => unpack_file(disk, alloc, &dump, &paths),
        Request::Compose { numbers, new } => compose_file(disk, alloc, numbers, &new),
        Request::Build { numbers, new } => build_file(disk, alloc, numbers, &new),
        Request::Normalise { dump, paths } => {
            write_file(disk, alloc, &dump, &paths, &Writing::Normalise, is_watched)
        }
        Request::Compare {
            how,
            dump,
            left,
            right,
        } => compare_files(disk, alloc, how, &dump, left, right),
        Request::Change { dump, change } => change_file(disk, alloc, &dump, &change),
        Request::Rename { dump, rename } => rename_file(disk, alloc, &dump, &rename),
        Request::Update { dump, update } => update_file(disk, alloc, &dump, &update),
    }
}
