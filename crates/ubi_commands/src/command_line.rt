//! The command line: a row for each command, and for each of its arguments. What several commands take is said once.

ghost use Rattle.std.specs.Prelude.{◌≡◌, IfOk, false};
ghost use Rattle.clap.specs.Built.{subcommand_names};
ghost use Rattle.clap.specs.Simple.{app_of};
ghost use Rattle.clap.specs.Walk.{rule_of};
ghost use Rattle.ubi_commands.specs.inner.CommandLine.{command_names};
ghost use Rattle.ubi_commands.specs.Commands.{tool as whole};
ghost use Rattle.ubi_commands.specs.inner.CommandLine.{bare_tool, command_row, rule, telling_tool, with_commands, with_rows};

use self::Need::{Needed, Optional};
use self::Takes::{Bytes, Count, Number, Size, Text, Texts, Word, WordFor};
use clap::{Arg, ArgAction, Command, value_parser};
use std::alloc::{AllocError, Global};

/// What `--version` shows.
const VERSION: &str = "0.1.0";

const ABOUT: &str = "Reads raw NAND dumps that hold UBI volumes";

/// What stands below the help of the program.
const EXAMPLES: &str = "Examples, for eraseblocks of 128 KiB with pages of 2 KiB:
  ubi_tool list dump.img
  ubi_tool extract dump.img --name rootfs --out rootfs.bin
  ubi_tool list chip.img --peb 128KiB --page 2KiB --vid 512 --data 2KiB --start 1MiB
  ubi_tool compose spec.txt --out new.img --peb 128KiB --page 2KiB

A number of bytes may have a unit, KiB, MiB or GiB, as in 128KiB, or be hexadecimal,
as in 0x20000.

Exit status: 0 done; 1 refused, different, a file that fails, or out of memory;
2 bad arguments, help, or an invalid geometry.";

/// What stands above the options of a geometry in the help.
const GEOMETRY: &str = "Geometry";

/// A command.
struct CommandRow {
    /// Its name.
    name: &'static str,
    /// What the help says about it.
    about: &'static str,
    /// What it takes, in groups that commands share, in the order of the help.
    arguments: &'static [&'static [Argument]],
}

/// The commands that print what an image file holds, in the order of the help.
static TELLING: [CommandRow; 5] = [
    CommandRow {
        name: "geometry",
        about: "Prints the geometry that the headers of a dump give and where the image lies, as options of the other commands",
        arguments: &[IMAGE_PART, &[FORMAT]],
    },
    CommandRow {
        name: "list",
        about: "Prints the volumes of an image: kind, size, flags, name",
        arguments: &[FOUND, IMAGE_PART, IMAGE_PAGES, &[FORMAT]],
    },
    CommandRow {
        name: "check",
        about: "Says why an image is refused, or counts what its eraseblocks are",
        arguments: &[FOUND, IMAGE_PART, IMAGE_PAGES, &[FORMAT]],
    },
    CommandRow {
        name: "show",
        about: "Prints the two headers of an eraseblock",
        arguments: &[FOUND, IMAGE_PART, IMAGE_PAGES, &[BLOCK]],
    },
    CommandRow {
        name: "map",
        about: "Prints a letter for each eraseblock, and draws them on an HTML page",
        arguments: &[FOUND, IMAGE_PART, IMAGE_PAGES, &[PAGE_FILE]],
    },
];

/// The other commands, which follow them.
static WORKING: [CommandRow; 10] = [
    CommandRow {
        name: "extract",
        about: "Writes the contents of a volume to a file",
        arguments: &[FOUND, IMAGE_PART, IMAGE_PAGES, &[OUT, ID, NAME]],
    },
    CommandRow {
        name: "unpack",
        about: "Writes the contents of each volume to a file in a directory",
        arguments: &[FOUND, IMAGE_PART, IMAGE_PAGES, &[OUT_FOLDER]],
    },
    CommandRow {
        name: "compose",
        about: "Writes the image that a text describes",
        arguments: &[GIVEN, &[SPEC], NEW_IMAGE],
    },
    CommandRow {
        name: "build",
        about: "Writes the image that a config of ubinize and the files in it give",
        arguments: &[GIVEN, &[CONFIG], NEW_IMAGE],
    },
    CommandRow {
        name: "normalise",
        about: "Writes the normal image: the same bytes for all images with the same contents",
        arguments: &[FOUND, IMAGE_PART, IMAGE_PAGES, &[OUT]],
    },
    CommandRow {
        name: "same",
        about: "Says whether two images have the same contents",
        arguments: &[FOUND, IMAGE_PART, IMAGE_PAGES, &[OTHER, FORMAT]],
    },
    CommandRow {
        name: "diff",
        about: "Prints how the contents of two images differ",
        arguments: &[FOUND, IMAGE_PART, IMAGE_PAGES, &[OTHER, FORMAT]],
    },
    CommandRow {
        name: "change",
        about: "Plans an update of a logical eraseblock that survives a power cut, and writes the resulting image",
        arguments: &[
            GIVEN,
            IMAGE_PART,
            IMAGE_PAGES,
            &[OUT, VOLUME, LNUM, FROM],
            PLAN,
        ],
    },
    CommandRow {
        name: "rename",
        about: "Plans a rename of a volume that survives a power cut, and writes the resulting image",
        arguments: &[
            GIVEN,
            IMAGE_PART,
            IMAGE_PAGES,
            &[OUT, VOLUME, NEW_NAME],
            PLAN,
        ],
    },
    CommandRow {
        name: "update",
        about: "Plans new contents, names and sizes of whole volumes in one commit that survives a power cut, and writes the resulting image",
        arguments: &[GIVEN, IMAGE_PART, IMAGE_PAGES, &[OUT], EDITS, PLAN],
    },
];

/// The numbers of a geometry that has to be given.
const GIVEN: &[Argument] = &[PEB, PAGE, VID, DATA, PEBS];

/// The numbers of a geometry that the dump's headers show if it isn't given.
const FOUND: &[Argument] = &[FOUND_PEB, FOUND_PAGE, VID, DATA, PEBS];

/// The word that names an image file, and the options for the part of the file that is the image.
const IMAGE_PART: &[Argument] = &[IMAGE, START, LENGTH];

/// What follows its pages, and which of its eraseblocks are bad.
const IMAGE_PAGES: &[Argument] = &[OOB, BAD];

/// The file of a new image, and what isn't said in its description.
const NEW_IMAGE: &[Argument] = &[OUT, SPARES, SEQ];

/// What is asked of the volumes of an image, each as often as wanted but the config.
const EDITS: &[Argument] = &[WRITE, VOLUMES, RENAME, RESIZE, REMOVE];

/// What a plan does with its steps.
const PLAN: &[Argument] = &[STOP, BLANK, PAGES];

const PEB: Argument = Argument(Needed, "peb", Size, "Eraseblock size in bytes");

const PAGE: Argument = Argument(Needed, "page", Size, "Page size in bytes");

const FOUND_PEB: Argument = Argument(
    Optional,
    "peb",
    Size,
    "Eraseblock size in bytes [default: what the dump's headers say]",
);

const FOUND_PAGE: Argument = Argument(
    Optional,
    "page",
    Size,
    "Page size in bytes [default: what the dump's headers say]",
);

const VID: Argument = Argument(
    Optional,
    "vid",
    Size,
    "Offset of the VID header in an eraseblock [default: one page]",
);

const DATA: Argument = Argument(
    Optional,
    "data",
    Size,
    "Offset of the data in an eraseblock [default: two pages]",
);

const PEBS: Argument = Argument(
    Optional,
    "pebs",
    Count,
    "Number of eraseblocks of the device [default: 1048576]",
);

const IMAGE: Argument = Argument(Needed, "IMAGE", Word, "Raw dump");

const START: Argument = Argument(
    Optional,
    "start",
    Bytes,
    "Offset of the image in the file in bytes [default: 0]",
);

const LENGTH: Argument = Argument(
    Optional,
    "length",
    Bytes,
    "Length of the image in bytes [default: up to the end of the file]",
);

const OOB: Argument = Argument(
    Optional,
    "oob",
    Bytes,
    "Out-of-band bytes after each page [default: 0]",
);

const BAD: Argument = Argument(
    Optional,
    "bad",
    Text("LIST"),
    "Bad eraseblocks, as 3,9,28-31: they read 0xFF [default: none]",
);

const FORMAT: Argument = Argument(
    Optional,
    "format",
    Text("WORD"),
    "How the answer is printed: text, or json, one object on one line [default: text]",
);

const OTHER: Argument = Argument(
    Needed,
    "OTHER",
    WordFor("IMAGE"),
    "Raw dump to compare it with",
);

const SPEC: Argument = Argument(Needed, "SPEC", Word, "Text that describes the volumes");

const CONFIG: Argument = Argument(Needed, "CONFIG", Word, "Config of ubinize: an ini file");

const OUT: Argument = Argument(Needed, "out", Text("FILE"), "File to write");

const PAGE_FILE: Argument = Argument(
    Optional,
    "out",
    Text("FILE.html"),
    "Page to write, for a browser [default: none]",
);

const OUT_FOLDER: Argument = Argument(
    Needed,
    "out",
    Text("DIR"),
    "Directory to make, or one that is empty",
);

const SPARES: Argument = Argument(
    Optional,
    "spares",
    Number("N"),
    "Spare eraseblocks to append [default: 0]",
);

const SEQ: Argument = Argument(
    Optional,
    "seq",
    Number("N"),
    "Image sequence number [default: 0]",
);

const BLOCK: Argument = Argument(
    Needed,
    "block",
    Number("P"),
    "Number of the eraseblock, from 0",
);

const ID: Argument = Argument(Optional, "id", Number("N"), "Number of the volume");

const VOLUME: Argument = Argument(Needed, "id", Number("N"), "Number of the volume");

const NAME: Argument = Argument(
    Optional,
    "name",
    Text("NAME"),
    "Name of the volume as `list` prints it, instead of --id",
);

const NEW_NAME: Argument = Argument(
    Needed,
    "name",
    Text("NAME"),
    "New name of the volume, in the form in which `list` prints names",
);

const LNUM: Argument = Argument(
    Needed,
    "lnum",
    Number("N"),
    "Number of the logical eraseblock (LEB) in the volume",
);

const FROM: Argument = Argument(
    Needed,
    "from",
    Text("FILE"),
    "File with the new bytes, which are whole pages",
);

const WRITE: Argument = Argument(
    Optional,
    "write",
    Texts("NAME=FILE"),
    "New contents of the volume NAME, which the file holds",
);

const VOLUMES: Argument = Argument(
    Optional,
    "config",
    Text("CONFIG"),
    "Config of ubinize: its volumes take the places of those that have their names, or are new",
);

const RENAME: Argument = Argument(
    Optional,
    "rename",
    Texts("OLD=NEW"),
    "New name of the volume OLD, in the form in which `list` prints names",
);

const RESIZE: Argument = Argument(
    Optional,
    "resize",
    Texts("NAME=SIZE"),
    "Number of bytes that the volume NAME has to hold",
);

const REMOVE: Argument = Argument(Optional, "remove", Texts("NAME"), "Volume to remove");

const STOP: Argument = Argument(
    Optional,
    "stop",
    Number("N"),
    "Stop after N steps of the plan [default: all]",
);

const BLANK: Argument = Argument(
    Optional,
    "blank",
    Text("keep"),
    "Take no blank eraseblock [default: blank ones are taken]",
);

const PAGES: Argument = Argument(
    Optional,
    "pages",
    Text("FILE"),
    "File to write the programmed pages to, in the order of the plan",
);

/// An argument of a command: whether it has to be given, its name, what it takes, and what the help says about it.
struct Argument(Need, &'static str, Takes, &'static str);

/// Whether an argument has to be given.
#[derive(Clone, Copy)]
enum Need {
    /// It has to be.
    Needed,
    /// It may be left out.
    Optional,
}

/// What an argument takes, with what the help calls its value.
#[derive(Clone, Copy)]
enum Takes {
    /// A word, known by its place.
    Word,
    /// A word that the help calls by another name than its own.
    WordFor(&'static str),
    /// An option, and a text.
    Text(&'static str),
    /// An option that may be given more than once, and a text each time.
    Texts(&'static str),
    /// An option, and a number of 32 bits.
    Number(&'static str),
    /// An option, and a number of bytes, which is a text here.
    Bytes,
    /// An option, and a number of bytes of the geometry. The help lists these below the others.
    Size,
    /// An option, and another number of the geometry, of 32 bits.
    Count,
}

/// The whole command line. Reading words uses up a command line, so each call makes a new one.
pub fn tool_command<'a>(alloc: Global) -> Result<Command<'a>, AllocError>
    ensures names { IfOk result (λ c. subcommand_names c ≡ command_names) }
    ensures app { IfOk result (λ c. app_of c ≡ whole) }
{
    let tool = Command::new(alloc, "ubi_tool")
        .about(ABOUT)
        .version(VERSION)
        .after_help(EXAMPLES)
        .subcommand_required(true);
    let tool = with_commands(alloc, tool, telling_rows())?;
    with_commands(alloc, tool, working_rows())
}

/// The rows of the commands that print what an image file holds.
fn telling_rows() -> &'static [CommandRow]
    ensures { with_commands bare_tool result.now ≡ telling_tool }
{
    &TELLING
}

/// The rows of the other commands.
fn working_rows() -> &'static [CommandRow]
    ensures { with_commands telling_tool result.now ≡ whole }
{
    &WORKING
}

/// Adds commands to the command line.
fn with_commands<'a>(
    alloc: Global,
    tool: Command<'a>,
    rows: &'static [CommandRow],
) -> Result<Command<'a>, AllocError>
    ensures { IfOk result (λ c. app_of c ≡ with_commands (app_of tool.entry) rows.now) }
{
    let mut tool = tool;
    for row in rows {
        tool = tool.subcommand(command_of(alloc, row)?)?;
    }
    Ok(tool)
}

/// The command of a row.
fn command_of<'a>(alloc: Global, row: &'static CommandRow) -> Result<Command<'a>, AllocError>
    ensures { IfOk result (λ c. app_of c ≡ command_row row.now) }
{
    let mut command = Command::new(alloc, row.name).about(row.about);
    for arguments in row.arguments {
        command = with_arguments(alloc, command, arguments)?;
    }
    Ok(command)
}

/// Adds arguments to a command.
fn with_arguments<'a>(
    alloc: Global,
    command: Command<'a>,
    arguments: &'static [Argument],
) -> Result<Command<'a>, AllocError>
    ensures { IfOk result (λ c. app_of c ≡ with_rows (app_of command.entry) arguments.now) }
{
    let mut command = command;
    for argument in arguments {
        command = command.arg(arg_of(alloc, argument))?;
    }
    Ok(command)
}

/// The argument of a row.
fn arg_of<'a>(alloc: Global, row: &'static Argument) -> Arg<'a>
    ensures rule { rule_of result ≡ rule row.now }
    ensures global { result.global ≡ false }
{
    let Argument(need, name, takes, help) = row;
    let is_needed = match need {
        Needed => true,
        Optional => false,
    };
    let arg = Arg::new(alloc, name).help(help).required(is_needed);
    match *takes {
        Word => arg,
        WordFor(called) => arg.value_name(called),
        Text(called) => arg.long(name).value_name(called),
        Texts(called) => arg.long(name).value_name(called).action(ArgAction::Append),
        Number(called) => arg
            .long(name)
            .value_name(called)
            .value_parser(value_parser!(u32)),
        Bytes => arg.long(name).value_name("N"),
        Size => arg.long(name).value_name("N").help_heading(GEOMETRY),
        Count => {
            let arg = arg.long(name).value_name("N").help_heading(GEOMETRY);
            arg.value_parser(value_parser!(u32))
        }
    }
}
