//! Laws of the definitions that the contracts cite, each as the contract of a function that does nothing.

ghost use Rattle.ubi_detect.specs.DetectLaws.{DetectedOrNot, DetectedOrRefused, EachOnGrid, GeometryOfImage, GreatestSize, OneDetection, OneFound, OneImage, OneUndetected, OutOfBandOfImage, PlaceOnGrid, SizeOfImage, TwoHeaders};
ghost use Rattle.ubi_detect.specs.FoundLaws.{ImageIsFound, PowersOfTwo, ShownAmongOthers};
ghost use Rattle.ubi_detect.specs.PartLaws.{PartOfFile, SureOfPart, ToldOfPart};

/// The headers of a file say at most one image, and a file holds at most one.
pub fn one_image()
    ensures headers { OneImage }
    ensures file { OneFound }
{}

/// At least two headers say the image of a file.
pub fn two_headers()
    ensures { TwoHeaders }
{}

/// What is found in a file is one list; a file in which something is found isn't refused; and it is refused for at most one cause.
pub fn one_detection()
    ensures geometries { OneDetection }
    ensures refusal { DetectedOrNot }
    ensures cause { OneUndetected }
{}

/// The headers of an image stand at multiples of its size from the first one, up to the last one, and no greater size has that. The
/// place that is found for it is all whole eraseblocks of the file at such multiples, before the first header and behind the last too.
pub fn image_on_grid()
    ensures each { EachOnGrid }
    ensures greatest { GreatestSize }
    ensures size { SizeOfImage }
    ensures place { PlaceOnGrid }
{}

/// The geometry of an image is among those that are found for it, without out-of-band bytes and with them.
pub fn geometry_of_image()
    ensures plain { GeometryOfImage }
    ensures out_of_band { OutOfBandOfImage }
{}

/// In each file something is found, or it is refused for a cause.
pub fn detected_or_refused()
    ensures { DetectedOrRefused }
{}

/// If an image lies in a file, with anything before and after it, the file shows the geometries that the image's own bytes show, unless
/// something else in the file takes its place. So it does its group, and whether its size is sure.
pub fn part_of_file()
    ensures image { PartOfFile }
    ensures sure { SureOfPart }
    ensures told { ToldOfPart }
{}

/// If some places of a file hold what they hold in an image, the image is found, with its own numbers. What has to stand there can be
/// seen in the bytes, and it can be seen in those of the image alone if no header stands before or after it.
pub fn image_is_found()
    ensures found { ImageIsFound }
    ensures powers { PowersOfTwo }
    ensures among { ShownAmongOthers }
{}
