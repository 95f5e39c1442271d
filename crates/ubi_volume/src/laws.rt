//! Laws of the definitions that the contracts cite, each as the contract of a function that does nothing.

ghost use Rattle.ubi_volume.specs.Laws.{NeverBoth, OneCause, OneOrOther};
ghost use Rattle.ubi_volume.specs.MeaningLaws.{JudgedAlone, OneAttached, OneFirst, OneMeaning, Reorder};
ghost use Rattle.ubi_volume.specs.PageLaws.{LesserPage};

/// An image has at most one meaning.
pub fn one_meaning()
    ensures { OneMeaning }
{}

/// Attaching an image gives one value.
pub fn one_attached()
    ensures { OneAttached }
{}

/// An image that is accepted isn't refused.
pub fn never_both()
    ensures { NeverBoth }
{}

/// An image is refused for at most one cause.
pub fn one_cause()
    ensures { OneCause }
{}

/// An image is accepted, or it is refused.
pub fn accepted_or_refused()
    ensures { OneOrOther }
{}

/// Volumes that have no meaning together have one first cause.
pub fn one_first()
    ensures { OneFirst }
{}

/// If two images of one geometry have the same eraseblocks in any order, and one is accepted, the other is accepted
/// with the same meaning.
pub fn reorder()
    ensures { Reorder }
{}

/// The first bytes of a file, up to one more than the device has, decide what it means, or why it is refused.
pub fn judged_alone()
    ensures { JudgedAlone }
{}

/// An image that is accepted with some page is also accepted with each page of which that one is a multiple, all other
/// sizes being equal. The meaning is then the same except for the page, and so is the rest of what attaching it gives.
/// One that is refused with the lesser page isn't accepted with the greater one. One that is accepted with the lesser
/// page is accepted with the greater one, or refused for a record whose alignment isn't a multiple of the greater one.
pub fn lesser_page()
    ensures { LesserPage }
{}
