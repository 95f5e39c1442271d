//! Laws of the definitions that the contracts cite, each as the contract of a function that does nothing.

ghost use Rattle.ubi_config.specs.Laws.{SectionsDiffer};
ghost use Rattle.ubi_config.specs.WrittenLaws.{SectionGivesRecord, WrittenReads};

/// A config that is read has at most 128 sections, no two of them have one volume number, or one name, and at most one
/// volume grows to the size of the device.
pub fn sections_differ()
    ensures { SectionsDiffer }
{}

/// The config that [`write_config`](crate::write_config) writes for the volumes of a device has no fault, and its sections
/// are those of the volumes that aren't left out.
pub fn written_reads()
    ensures { WrittenReads }
{}

/// The section of a volume gives back its record, with the eraseblocks that it reserves.
pub fn section_gives_record()
    ensures { SectionGivesRecord }
{}
