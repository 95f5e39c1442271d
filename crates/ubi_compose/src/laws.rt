//! Laws of the definitions that the contracts cite, each as the contract of a function that does nothing.

ghost use Rattle.ubi_compose.specs.BuiltAgain.{BuiltAgain, PartsBuildAgain};
ghost use Rattle.ubi_compose.specs.BuiltLaws.{BuiltAccepted, BuiltReads};
ghost use Rattle.ubi_compose.specs.Laws.{Normalising, TwiceIsOnce};
ghost use Rattle.ubi_compose.specs.NormalLaws.{NormalAccepted, NormalFits, NormalForm};
ghost use Rattle.ubi_compose.specs.PageLaws.{LesserAcceptsMore, NormalWithLesserPage};
ghost use Rattle.ubi_compose.specs.TextLaws.{OneAnswer};

/// The normal image of a meaning is accepted with that meaning, followed by any number of spare eraseblocks, as far as
/// the device has room.
pub fn normal_accepted()
    ensures { NormalAccepted }
{}

/// The normal image of a meaning fits the device.
pub fn normal_fits()
    ensures { NormalFits }
{}

/// Two meanings of one geometry are the same exactly if their normal images are.
pub fn normal_form()
    ensures { NormalForm }
{}

/// Normalising a normalised image gives it again.
pub fn twice_is_once()
    ensures { TwiceIsOnce }
{}

/// Of accepted images of one geometry, two mean the same exactly if their normalised images are equal byte for byte;
/// normalising keeps the meaning, and twice is once.
pub fn normalising()
    ensures { Normalising }
{}

/// A text without a line at fault comes to one meaning, or to one cause for which its volumes have none together.
pub fn one_answer()
    ensures { OneAnswer }
{}

/// Each volume that is built reads the bytes of its part; a dynamic one reads 0xFF after them, up to the end of what it
/// reserves.
pub fn built_reads()
    ensures { BuiltReads }
{}

/// What is built is a meaning: its normal image is accepted with it, followed by any number of spare eraseblocks, as
/// far as the device has room for them and for all pieces.
pub fn built_accepted()
    ensures { BuiltAccepted }
{}

/// If all volumes of an accepted image can be read, what is built from their records and from what they read is the meaning of
/// the image. So its normal image is that of the image.
pub fn built_again()
    ensures { BuiltAgain }
{}

/// If all volumes of an accepted image can be read, they have a meaning together, and the device has room for all pieces of what they read.
/// So they can be built again.
pub fn parts_build_again()
    ensures { PartsBuildAgain }
{}

/// The normal image of a meaning is the same bytes with each page. So an image is normalised to the same bytes with
/// each page of which its own is a multiple.
pub fn normal_with_lesser_page()
    ensures { NormalWithLesserPage }
{}

/// A page can accept what a multiple of it refuses.
pub fn lesser_accepts_more()
    ensures { LesserAcceptsMore }
{}
