//! The laws that the program stands on, each as the contract of a function that does nothing.

ghost use Rattle.ubi_commands.specs.BuildLaws.{BuildReads};
ghost use Rattle.ubi_commands.specs.ComposedLaws.{ComposedIsFound};
ghost use Rattle.ubi_commands.specs.FolderLaws.{BuildsTheImage, FolderConfigReads};
ghost use Rattle.ubi_commands.specs.Headline.{Headline};
ghost use Rattle.ubi_commands.specs.Laws.{ListsComposed, OneComposed};
ghost use Rattle.ubi_commands.specs.PageLaws.{LeastTold};
ghost use Rattle.ubi_commands.specs.PlanLaws.{LinesReadBack};
ghost use Rattle.ubi_commands.specs.UntypedLaws.{UntypedIsTyped};

/// Of accepted images of one geometry, two mean the same exactly if their normalised images are equal byte for byte;
/// normalising keeps the meaning and twice is once; an image has at most one meaning; it is refused exactly where a stated
/// fault stands, with its cause and its eraseblock, if one is at fault, named; and an atomic change cut after any whole step
/// means the old or the new, and touches no bad eraseblock; it means one of them too if the power fails at any instant, where what is left
/// of the step's eraseblock meets the premises of `ubi_change::laws::plan_survives_tears`.
pub fn headline()
    ensures { Headline }
{}

/// What composing answers is a function of the text, the number of spare eraseblocks and the image sequence number.
pub fn one_composed()
    ensures { OneComposed }
{}

/// `list` of a composed image shows the meaning that the text comes to.
pub fn lists_composed()
    ensures { ListsComposed }
{}

/// A composed image is found in its own bytes, and its own geometry is among those that are found: if an eraseblock ends with 16
/// bytes 0xFF, the data begin where Linux has them, no volume holds what would be read as a header of an eraseblock, and pages
/// with out-of-band bytes aren't as likely.
pub fn composed_is_found()
    ensures { ComposedIsFound }
{}

/// If a build ended with the status 0, over a disk on which it is known what each file holds, the output holds an image that is
/// accepted. The volume of each section then reads what the file of its `image` key holds; a dynamic one reads 0xFF after that,
/// to the end of what it reserves.
pub fn build_reads()
    ensures { BuildReads }
{}

/// The config that `unpack` writes for an accepted image has no fault, and its sections are those of the volumes that aren't
/// left out.
pub fn folder_config_reads()
    ensures { FolderConfigReads }
{}

/// From the config that `unpack` writes for an accepted image, if it describes each volume, and from the files with what these
/// read, `build` makes the normal image of the image, byte for byte. It does if it ends with the status 0 over a disk on which it
/// is known what each file holds.
pub fn builds_the_image()
    ensures { BuildsTheImage }
{}

/// Of what is found in a file, the first has the least page. If pages have no out-of-band bytes, nothing else
/// differs, and an image that is accepted with another one is accepted with the first, with the same meaning except
/// for the page, and the same normal image.
pub fn least_told()
    ensures { LeastTold }
{}

/// The printed lines of a plan, with the pages that its steps program, are read as its steps, line by line.
pub fn lines_read_back()
    ensures { LinesReadBack }
{}

/// With no number of a geometry typed, a command that reads one image answers what it answers with the numbers typed of what is found first
/// in its file, which `geometry` prints first; or nothing is found there, or several images that are apart.
pub fn untyped_is_typed()
    ensures { UntypedIsTyped }
{}
