//! Steps on a chip.

ghost use Rattle.std.specs.Prelude.{◌≡◌};
ghost use Rattle.ubi_change.specs.Steps.{target};

use ubi_volume::Bytes;

/// One step: it erases an eraseblock, or programs a page of it.
#[derive(Debug, Drop, PartialEq)]
pub enum Step {
    /// The eraseblock becomes 0xFF throughout.
    Erase {
        /// The number of the eraseblock.
        pnum: u32,
    },
    /// One page of the eraseblock gets its bytes, each bit kept or cleared.
    Program {
        /// The number of the eraseblock.
        pnum: u32,
        /// The number of the page in the eraseblock, from 0.
        page: u32,
        /// The bytes of the page.
        bytes: Bytes,
    },
}

impl Step {
    /// The number of the eraseblock that the step changes.
    pub fn eraseblock(&self) -> u32
        ensures { result ≡ target self.now }
    {
        match self {
            Step::Erase { pnum } => *pnum,
            Step::Program { pnum, .. } => *pnum,
        }
    }
}
