//! Where the steps of a plan are.

use std::alloc::AllocError;
use ubi_change::Step;

/// How an eraseblock is written: which one, whether it is prepared, its pages from the header's to the last one that is
/// programmed, and the eraseblock that is erased after it.
#[derive(Clone, Copy)]
pub struct Written {
    pub target: u32,
    pub is_prepared: bool,
    pub pages: (u32, u32),
    pub given_up: Option<u32>,
}

/// The place of an erase among those of pages.
const ERASE: u32 = u32::MAX;

impl Written {
    /// Adds the eraseblock and the page of each step.
    pub fn put_places(&self, places: &mut Vec<(u32, u32)>) -> Result<(), AllocError> {
        if self.is_prepared {
            places.extend_from_slice(&[(self.target, ERASE), (self.target, 0)])?;
        }
        let (first, last) = self.pages;
        for page in first..last.saturating_add(1) {
            places.push((self.target, page))?;
        }
        match self.given_up {
            Some(old) => places.extend_from_slice(&[(old, ERASE), (old, 0)]),
            None => Ok(()),
        }
    }
}

/// The eraseblock of a step, and its page.
pub fn place_of(step: &Step) -> (u32, u32) {
    match step {
        Step::Erase { pnum } => (*pnum, ERASE),
        Step::Program { pnum, page, .. } => (*pnum, *page),
    }
}
