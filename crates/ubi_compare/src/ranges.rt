//! Ranges of logical eraseblocks that read differently.

ghost use Rattle.std.specs.Prelude.{◌≡◌, ◌↔◌, ◌∷◌, ◌+◌, ◌==◌, [], ℕ, IfOk, IsTrue, List, None, OnOk};
ghost use Rattle.ubi_compare.specs.inner.Ranges.{told_with};

use crate::difference::Difference;
use std::alloc::{AllocError, Global};

/// The ranges of logical eraseblocks of a volume that were found so far, in ascending order.
#[derive(Drop)]
pub struct Ranges {
    /// The number of the volume.
    pub id: u32,
    /// The ranges that have ended.
    pub told: Vec<Difference>,
    /// The first and the last of a range that may go on.
    pub begun: Option<(u32, u32)>,
}

impl Ranges {
    /// No ranges yet.
    pub fn new(alloc: Global, id: u32) -> Ranges
        ensures id { result.id ≡ id }
        ensures told { result.told.items ≡ [] }
        ensures begun { result.begun ≡ None }
    {
        Ranges {
            id,
            told: Vec::new(alloc),
            begun: None,
        }
    }

    /// Whether no range was found.
    pub fn is_empty(&self) -> bool
        ensures { IsTrue result ↔ (told_with self.now [] ≡ []) }
    {
        self.begun.is_none() && self.told.is_empty()
    }

    /// Ends the range that has begun, if there is one.
    fn end(&mut self) -> Result<(), AllocError>
        ensures told { OnOk result (self.new.told.items ≡ told_with self.old []) }
        ensures id { self.new.id ≡ self.old.id }
    {
        if let Some((first, last)) = self.begun {
            let id = self.id;
            self.told.push(Difference::Lebs { id, first, last })?;
        }
        Ok(())
    }

    /// Adds a logical eraseblock that comes after those that were added.
    ///
    /// # Errors
    ///
    /// Memory ran out.
    pub fn add(&mut self, lnum: u32) -> Result<(), AllocError>
        ensures { OnOk result ((rest : List ℕ) → told_with self.old (lnum ∷ rest) ≡ told_with self.new rest) }
    {
        if let Some((first, last)) = self.begun {
            if follows(lnum, last) {
                self.begun = Some((first, lnum));
                return Ok(());
            }
        }
        self.end()?;
        self.begun = Some((lnum, lnum));
        Ok(())
    }

    /// All of the ranges.
    ///
    /// # Errors
    ///
    /// Memory ran out.
    pub fn finish(mut self) -> Result<Vec<Difference>, AllocError>
        ensures { IfOk result (λ all. all.items ≡ told_with self []) }
    {
        self.end()?;
        Ok(self.told)
    }
}

/// Whether a logical eraseblock comes right after another.
fn follows(lnum: u32, last: u32) -> bool
    ensures { result ≡ (lnum == last + 1) }
{
    last.checked_add(1) == Some(lnum)
}
