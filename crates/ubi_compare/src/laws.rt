//! Laws of the definitions that the contracts cite, each as the contract of a function that does nothing.

ghost use Rattle.ubi_compare.specs.Laws.{NothingDiffers};

/// There is no difference between two meanings of one geometry exactly if they are the same.
pub fn nothing_differs()
    ensures { NothingDiffers }
{}
