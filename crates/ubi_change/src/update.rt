//! The plan of edits, and its steps.

ghost use Rattle.std.specs.Prelude.{◌≡◌, ℕ, ◌+◌, ◌<◌, IfErr, IfOk, List, Some, length, slice_get};
ghost use Rattle.ubi_change.specs.Fitting.{AllWithin};
ghost use Rattle.ubi_change.specs.Laying.{after_contents};
ghost use Rattle.ubi_change.specs.UpdatePlan.{base_of, copy_steps, in_order, leb_count, plan_groups};
ghost use Rattle.ubi_change.specs.declared.sites.Site.{Site};
ghost use Rattle.ubi_change.specs.Sites.{FitsIn};
ghost use Rattle.ubi_change.specs.UpdatePlan.{FitsUpdate, IsGroupError};
ghost use Rattle.ubi_change.specs.inner.Updating.{listed_in};
ghost use Rattle.ubi_scan.specs.Source.{Narrows, WhereHeld};

use crate::avoided::Avoided;
use crate::basis::Basis;
use crate::copies::Holders;
use crate::errors::ContentsError;
use crate::laying::{Laying, read_piece};
use crate::plan_steps::{Replacement, Target, push_copy, push_laid};
use crate::sites::Site;
use crate::step::Step;
use crate::trim::trimmed_text;
use crate::written_out::Ready;
use std::alloc::{AllocError, Global};
use ubi_laid::{Part, header_of};
use ubi_media::{Geometry, VidHeader};
use ubi_scan::BlockSource;
use ubi_volume::Surveyed;

/// A plan of edits. Its steps come in groups, in order: one for each logical eraseblock that is written, and then one for each copy of the
/// volume table.
#[derive(Drop)]
pub struct UpdatePlan {
    pub(crate) surveyed: Surveyed,
    /// The sequence number that those of the plan are above, as far as it isn't the image that asks for it.
    pub(crate) above: u64,
    /// The volumes that are written, each with its slot.
    pub(crate) parts: Vec<Part>,
    /// The logical eraseblocks that are written.
    pub(crate) layings: Vec<Laying>,
    /// The eraseblocks that are taken, in order.
    pub(crate) sites: Vec<Site>,
    /// The eraseblocks that hold the copies of the volume table.
    pub(crate) holders: Holders,
    /// The pages of the new table.
    pub(crate) pages: Vec<u8>,
}

/// The steps that write a piece.
///
/// # Errors
///
/// `Read` if the read failed. `Memory` if memory ran out.
fn lay_group<T: BlockSource>(
    alloc: Global,
    geometry: &Geometry,
    plan: &UpdatePlan,
    k: usize,
    contents: &mut T,
    buffer: &mut [u8],
) -> Result<Vec<Step>, ContentsError>
    requires fits { FitsUpdate geometry.now (T.known contents.old).size plan.now }
    requires inside { k < length plan.now.layings.items }
    requires room { length buffer.old ≡ geometry.now.peb_size }
    ensures known { T.known contents.new ≡ after_contents (T.known contents.old) result }
    ensures narrows { Narrows (T.agrees contents.old) (T.agrees contents.new) }
    ensures steps { IfOk result (λ steps. WhereHeld (T.agrees contents.new) (λ bytes. slice_get (plan_groups geometry.now plan.now bytes) k ≡ Some steps.items)) }
    ensures within { IfOk result (λ steps. AllWithin geometry.now (length plan.now.surveyed.states) steps.items) }
    ensures refused { IfErr result (IsGroupError geometry.now plan.now k (T.failed_at contents.new)) }
{
    let basis = plan.basis();
    let (laying, site) = (plan.layings[k], plan.sites[k]);
    read_piece(geometry, &laying.piece, contents, buffer)?;
    let header = VidHeader {
        sqnum: basis.top_sqnum() + 1 + k as u64,
        ..header_of(geometry, &laying.piece, buffer)
    };
    let text = trimmed_text(geometry, laying.piece.len, buffer);
    let mut steps = Vec::new(alloc);
    push_laid(alloc, &mut steps, geometry, &basis, &site, &header, text)?;
    Ok(steps)
}

/// The steps that write a copy of the volume table, and then erase the eraseblock that held it.
///
/// # Errors
///
/// Memory ran out.
fn copy_group(
    alloc: Global,
    geometry: &Geometry,
    plan: &UpdatePlan,
    copy: u32,
    k: usize,
    old: &Site,
) -> Result<Vec<Step>, AllocError>
    requires copy { copy < 2 }
    requires old { FitsIn (length plan.now.surveyed.states) old.now }
    requires fits { (n : ℕ) × FitsUpdate geometry.now n plan.now }
    requires inside { k < length plan.now.layings.items + 2 }
    ensures steps { IfOk result (λ steps. (t : Site) × (slice_get plan.now.sites.items k ≡ Some t)
        × (steps.items ≡ copy_steps geometry.now (base_of plan.now) plan.now.pages.items copy k t old.now)) }
    ensures within { IfOk result (λ steps. AllWithin geometry.now (length plan.now.surveyed.states) steps.items) }
{
    let basis = plan.basis();
    let pages = plan.pages.as_slice();
    let replacement = Replacement {
        target: plan.sites[k],
        header: Target::of_table(copy).copy_header(basis.top_sqnum() + 1 + k as u64, pages),
        old: *old,
        old_ec: old.ec,
    };
    let mut steps = Vec::new(alloc);
    push_copy(alloc, &mut steps, geometry, &basis, &replacement, pages)?;
    Ok(steps)
}

impl UpdatePlan {
    /// The plan that writes this.
    pub(crate) fn of(
        surveyed: Surveyed,
        above: u64,
        ready: Ready,
        layings: Vec<Laying>,
        sites: Vec<Site>,
    ) -> UpdatePlan
        ensures { result ≡ record { surveyed = surveyed; above = above; parts = ready.parts; layings = layings; sites = sites; holders = ready.holders; pages = ready.pages } }
    {
        let Ready {
            parts,
            pages,
            holders,
        } = ready;
        UpdatePlan {
            surveyed,
            above,
            parts,
            layings,
            sites,
            holders,
            pages,
        }
    }

    /// What its headers are made from.
    pub(crate) fn basis(&self) -> Basis<'_>
        ensures { result ≡ base_of self.now }
    {
        Basis::new(self.surveyed.scan(), self.above)
    }

    /// The number of the first listed eraseblock that the plan works on, if there is one.
    pub(crate) fn listed(&self, avoided: &Avoided) -> Option<u32>
        ensures { result ≡ listed_in avoided.now.marks self.now }
    {
        let Holders { first, second } = self.holders;
        let taken = avoided.listed_site(self.sites.as_slice());
        taken.or(avoided.listed_site(&[first, second]))
    }

    /// How many groups of steps there are.
    pub fn group_count(&self) -> usize
        ensures { result ≡ length self.now.layings.items + 2 }
    {
        self.layings.len() + 2
    }

    /// The volumes that are written, each with its slot, in the order of their edits.
    pub fn parts(&self) -> &[Part]
        ensures { result.now ≡ self.now.parts.items }
    {
        self.parts.as_slice()
    }

    /// How many logical eraseblocks of the volume in a slot are written: those that aren't left blank.
    pub fn leb_count(&self, id: u32) -> usize
        ensures { result ≡ leb_count self.now id }
    {
        self.layings
            .iter()
            .filter(|laying| laying.piece.header.vol_id == id)
            .count()
    }

    /// The steps of a group. The contents are read again, and the buffer has the size of an eraseblock.
    ///
    /// # Errors
    ///
    /// `Read` if the read failed. `Memory` if memory ran out.
    pub fn group<T: BlockSource>(
        &self,
        alloc: Global,
        geometry: &Geometry,
        k: usize,
        contents: &mut T,
        buffer: &mut [u8],
    ) -> Result<Vec<Step>, ContentsError>
        requires fits { FitsUpdate geometry.now (T.known contents.old).size self.now }
        requires inside { k < length self.now.layings.items + 2 }
        requires room { length buffer.old ≡ geometry.now.peb_size }
        ensures known { T.known contents.new ≡ after_contents (T.known contents.old) result }
        ensures narrows { Narrows (T.agrees contents.old) (T.agrees contents.new) }
        ensures steps { IfOk result (λ steps. WhereHeld (T.agrees contents.new) (λ bytes. slice_get (plan_groups geometry.now self.now bytes) k ≡ Some steps.items)) }
        ensures within { IfOk result (λ steps. AllWithin geometry.now (length self.now.surveyed.states) steps.items) }
        ensures refused { IfErr result (IsGroupError geometry.now self.now k (T.failed_at contents.new)) }
    {
        let written = self.layings.len();
        if k < written {
            lay_group(alloc, geometry, self, k, contents, buffer)
        } else if k == written {
            Ok(copy_group(alloc, geometry, self, 0, k, &self.holders.first)?)
        } else {
            Ok(copy_group(alloc, geometry, self, 1, k, &self.holders.second)?)
        }
    }

    /// All steps: those of each group, in order. The contents are read again, and the buffer has the size of an eraseblock.
    ///
    /// # Errors
    ///
    /// `Read` if a read failed. `Memory` if memory ran out.
    pub fn steps<T: BlockSource>(
        &self,
        alloc: Global,
        geometry: &Geometry,
        contents: &mut T,
        buffer: &mut [u8],
    ) -> Result<Vec<Step>, ContentsError>
        requires fits { FitsUpdate geometry.now (T.known contents.old).size self.now }
        requires room { length buffer.old ≡ geometry.now.peb_size }
        ensures known { T.known contents.new ≡ after_contents (T.known contents.old) result }
        ensures narrows { Narrows (T.agrees contents.old) (T.agrees contents.new) }
        ensures steps { IfOk result (λ steps. WhereHeld (T.agrees contents.new) (λ bytes. steps.items ≡ in_order (plan_groups geometry.now self.now bytes))) }
        ensures within { IfOk result (λ steps. AllWithin geometry.now (length self.now.surveyed.states) steps.items) }
        ensures refused { IfErr result (λ e. (k : ℕ) × IsGroupError geometry.now self.now k (T.failed_at contents.new) e) }
    {
        let mut steps = Vec::new(alloc);
        for k in 0..self.group_count() {
            let mut group = self.group(alloc, geometry, k, contents, buffer)?;
            steps.append(&mut group)?;
        }
        Ok(steps)
    }
}
