//! Laws of the definitions that the contracts cite, each as the contract of a function that does nothing.

ghost use Rattle.ubi_laid.specs.Laws.{AllApart, EachCanBeLaid, LaidRead};

/// Each logical eraseblock of the volumes of a meaning can be laid out: its text has room, and its header breaks no rule.
pub fn each_can_be_laid()
    ensures { EachCanBeLaid }
{}

/// No two of the eraseblocks in which volumes are laid out are of one logical eraseblock.
pub fn all_apart()
    ensures { AllApart }
{}

/// Volumes that are laid out among eraseblocks without a fault read what they hold, wherever each of their logical
/// eraseblocks lies, and under whatever sequence number.
pub fn laid_read()
    ensures { LaidRead }
{}
