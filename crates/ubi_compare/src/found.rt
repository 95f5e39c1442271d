//! The differences that are found.

ghost use Rattle.std.specs.Prelude.{◌≡◌, ◌≢◌, ◌∷◌, [], ◌++◌, IsTrue, OnOk, true};
ghost use Rattle.ubi_compare.specs.Differences.{unless};
ghost use Rattle.ubi_compare.specs.inner.Found.{Adds};

use crate::difference::Difference;
use std::alloc::{AllocError, Global};

/// The differences that were found so far.
#[derive(Drop)]
pub struct Found {
    /// The differences, in the order in which they are printed.
    pub list: Vec<Difference>,
    /// Whether only the existence of a difference is asked: then those after the first may be left out.
    pub is_brief: bool,
}

impl Found {
    /// No differences yet.
    pub fn new(alloc: Global, is_brief: bool) -> Found
        ensures none { result.list.items ≡ [] }
        ensures brief { result.is_brief ≡ is_brief }
    {
        Found {
            list: Vec::new(alloc),
            is_brief,
        }
    }

    /// Whether nothing more is asked.
    pub fn is_settled(&self) -> bool
        ensures brief { IsTrue result → self.now.is_brief ≡ true }
        ensures some { IsTrue result → self.now.list.items ≢ [] }
    {
        self.is_brief && !self.list.is_empty()
    }

    /// Adds a difference.
    ///
    /// # Errors
    ///
    /// Memory ran out.
    pub fn add(&mut self, difference: Difference) -> Result<(), AllocError>
        ensures { OnOk result (Adds self.old self.new (difference ∷ [])) }
    {
        self.list.push(difference)?;
        Ok(())
    }

    /// Adds a difference, unless two things are the same.
    ///
    /// # Errors
    ///
    /// Memory ran out.
    pub fn add_unless(&mut self, is_same: bool, difference: Difference) -> Result<(), AllocError>
        ensures { OnOk result (Adds self.old self.new (unless is_same difference)) }
    {
        if is_same {
            return Ok(());
        }
        self.add(difference)
    }

    /// Adds some differences.
    ///
    /// # Errors
    ///
    /// Memory ran out.
    pub fn extend(&mut self, differences: &[Difference]) -> Result<(), AllocError>
        ensures { OnOk result (Adds self.old self.new differences.now) }
    {
        self.list.extend_from_slice(differences)?;
        Ok(())
    }
}
