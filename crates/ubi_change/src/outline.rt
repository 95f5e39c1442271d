//! The steps of a plan of edits without the bytes that they program, which are made without a read of contents.

ghost use Rattle.std.specs.Prelude.{◌≡◌, ℕ, ◌/◌, ◌+◌, ◌++◌, ◌∷◌, ◌<◌, ◌≤◌, [], IfOk, List, OnOk, length};
ghost use Rattle.ubi_change.specs.UpdatePlan.{FitsUpdate, IsLaidFrom, IsOutline};
ghost use Rattle.ubi_change.specs.declared.step.Step.{Step};
ghost use Rattle.ubi_change.specs.inner.Outline.{HavePageNumbers, lay_lines, page_lines, release_lines, renew_lines};

use crate::basis::Basis;
use crate::copies::Holders;
use crate::sites::Site;
use crate::step::Step;
use crate::takeable::stays;
use crate::update::UpdatePlan;
use std::alloc::{AllocError, Global};
use ubi_media::Geometry;
use ubi_volume::Bytes;

/// Adds the program of a page.
fn push_page(alloc: Global, steps: &mut Vec<Step>, p: u32, page: u32) -> Result<(), AllocError>
    ensures { OnOk result (steps.new.items ≡ steps.old.items ++ (Step.Program p page [] ∷ [])) }
{
    steps.push(Step::Program {
        pnum: p,
        page,
        bytes: Bytes::new(Vec::new(alloc)),
    })?;
    Ok(())
}

/// Adds the programs of as many pages as are counted, from one on.
fn push_pages(
    alloc: Global,
    steps: &mut Vec<Step>,
    p: u32,
    first: u32,
    count: u32,
) -> Result<(), AllocError>
    ensures { OnOk result (HavePageNumbers first count → steps.new.items ≡ steps.old.items ++ page_lines p first count) }
{
    for page in first..first.saturating_add(count) {
        push_page(alloc, steps, p, page)?;
    }
    Ok(())
}

/// Adds the erase of an eraseblock, and the program of its erase-counter header.
fn push_renewed(alloc: Global, steps: &mut Vec<Step>, p: u32) -> Result<(), AllocError>
    ensures { OnOk result (steps.new.items ≡ steps.old.items ++ renew_lines p) }
{
    steps.push(Step::Erase { pnum: p })?;
    push_page(alloc, steps, p, 0)
}

/// Adds what makes an eraseblock ready, and gives it a volume-identifier header and as many pages of contents as are counted.
fn push_lay(
    alloc: Global,
    steps: &mut Vec<Step>,
    geometry: &Geometry,
    site: &Site,
    count: u32,
) -> Result<(), AllocError>
    ensures { OnOk result (HavePageNumbers (geometry.now.data_offset / geometry.now.page) count → steps.new.items ≡ steps.old.items ++ lay_lines geometry.now site.now count) }
{
    if !site.is_clean {
        push_renewed(alloc, steps, site.pnum)?;
    }
    let page = geometry.page();
    push_page(alloc, steps, site.pnum, geometry.vid_offset() / page)?;
    push_pages(
        alloc,
        steps,
        site.pnum,
        geometry.data_offset() / page,
        count,
    )
}

/// Adds the erase of an eraseblock that held a copy of the volume table, unless it stays.
fn push_released(
    alloc: Global,
    steps: &mut Vec<Step>,
    basis: &Basis,
    old: &Site,
) -> Result<(), AllocError>
    ensures { OnOk result (steps.new.items ≡ steps.old.items ++ release_lines basis.now old.now) }
{
    if stays(basis, old, old.ec) {
        return Ok(());
    }
    push_renewed(alloc, steps, old.pnum)
}

impl UpdatePlan {
    /// The eraseblock that the k-th group gives up, if it writes a copy of the volume table.
    fn given_up(&self, k: usize) -> &Site
        ensures first { k ≡ length self.now.layings.items → result.now ≡ self.now.holders.first }
        ensures second { k ≡ length self.now.layings.items + 1 → result.now ≡ self.now.holders.second }
    {
        let Holders { first, second } = &self.holders;
        if k == self.layings.len() {
            first
        } else {
            second
        }
    }

    /// The lines of the steps that write a logical eraseblock of a volume.
    fn laid_lines(
        &self,
        alloc: Global,
        geometry: &Geometry,
        k: usize,
    ) -> Result<Vec<Step>, AllocError>
        requires fits { (n : ℕ) × FitsUpdate geometry.now n self.now }
        requires inside { k < length self.now.layings.items }
        ensures { IfOk result (λ steps. (bytes : List ℕ) → IsLaidFrom geometry.now bytes self.now → IsOutline geometry.now bytes self.now k steps.items) }
    {
        let mut steps = Vec::new(alloc);
        let count = self.layings[k].pages;
        push_lay(alloc, &mut steps, geometry, &self.sites[k], count)?;
        Ok(steps)
    }

    /// The lines of the steps that write a copy of the volume table, and then erase the eraseblock that held it.
    fn copy_lines(
        &self,
        alloc: Global,
        geometry: &Geometry,
        k: usize,
    ) -> Result<Vec<Step>, AllocError>
        requires fits { (n : ℕ) × FitsUpdate geometry.now n self.now }
        requires behind { length self.now.layings.items ≤ k }
        requires inside { k < length self.now.layings.items + 2 }
        ensures { IfOk result (λ steps. (bytes : List ℕ) → IsOutline geometry.now bytes self.now k steps.items) }
    {
        let mut steps = Vec::new(alloc);
        let count = self.pages.len() as u32 / geometry.page();
        push_lay(alloc, &mut steps, geometry, &self.sites[k], count)?;
        push_released(alloc, &mut steps, &self.basis(), self.given_up(k))?;
        Ok(steps)
    }

    /// The steps of a group, without the bytes that they program. No contents are read.
    ///
    /// # Errors
    ///
    /// Memory ran out.
    pub fn outline(
        &self,
        alloc: Global,
        geometry: &Geometry,
        k: usize,
    ) -> Result<Vec<Step>, AllocError>
        requires fits { (n : ℕ) × FitsUpdate geometry.now n self.now }
        requires inside { k < length self.now.layings.items + 2 }
        ensures { IfOk result (λ steps. (bytes : List ℕ) → IsLaidFrom geometry.now bytes self.now → IsOutline geometry.now bytes self.now k steps.items) }
    {
        if k < self.layings.len() {
            self.laid_lines(alloc, geometry, k)
        } else {
            self.copy_lines(alloc, geometry, k)
        }
    }
}
