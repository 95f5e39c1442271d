//! The first steps of a plan of edits, made when they are carried out.

ghost use Rattle.std.specs.Prelude.{◌≡◌, ◌+◌, ◌<◌, IfErr, OnOk, false, length, map, take};
ghost use Rattle.ubi_change.specs.Laying.{after_contents};
ghost use Rattle.ubi_change.specs.Steps.{block_cut};
ghost use Rattle.ubi_change.specs.UpdatePlan.{FitsUpdate, in_order, plan_groups};
ghost use Rattle.ubi_change.specs.inner.Updating.{IsApart};
ghost use Rattle.ubi_scan.specs.Source.{Narrows, WhereHeld};

use crate::block_steps::apply_all;
use crate::copies::Holders;
use crate::errors::ContentsError;
use crate::update::UpdatePlan;
use std::alloc::Global;
use ubi_media::Geometry;
use ubi_scan::BlockSource;

impl UpdatePlan {
    /// Whether a group may work on an eraseblock.
    fn may_work_on(&self, k: usize, p: u32) -> bool
        requires { k < length self.now.sites.items }
        ensures { result ≡ false → IsApart self.now k p }
    {
        let Holders { first, second } = &self.holders;
        self.sites[k].pnum == p
            || (k >= self.layings.len() && (first.pnum == p || second.pnum == p))
    }
}

/// The first steps of a plan of edits.
#[derive(Clone, Copy)]
pub struct FirstSteps<'a> {
    /// The plan.
    pub plan: &'a UpdatePlan,
    /// How many steps each of its groups has.
    pub counts: &'a [usize],
    /// How many steps are carried out; all, if the plan has no more.
    pub stop: usize,
}

impl FirstSteps<'_> {
    /// Carries out, on an eraseblock, those of the steps that change it. Only the groups that work on it are made; the contents of these
    /// are read again, to a buffer that has the size of an eraseblock.
    ///
    /// # Errors
    ///
    /// `Read` if a read failed. `Memory` if memory ran out. The eraseblock may then hold any bytes.
    pub fn apply_in<T: BlockSource>(
        &self,
        alloc: Global,
        geometry: &Geometry,
        p: u32,
        contents: &mut T,
        block: &mut [u8],
        buffer: &mut [u8],
    ) -> Result<(), ContentsError>
        requires fits { FitsUpdate geometry.now (T.known contents.old).size self.now.plan.now }
        requires counts { WhereHeld (T.agrees contents.old) (λ bytes. self.now.counts.now ≡ map length (plan_groups geometry.now self.now.plan.now bytes)) }
        requires counted { length self.now.counts.now ≡ length self.now.plan.now.layings.items + 2 }
        requires size { length block.old ≡ geometry.now.peb_size }
        requires room { length buffer.old ≡ geometry.now.peb_size }
        ensures known { T.known contents.new ≡ after_contents (T.known contents.old) result }
        ensures narrows { Narrows (T.agrees contents.old) (T.agrees contents.new) }
        ensures size { length block.new ≡ geometry.now.peb_size }
        ensures room { length buffer.new ≡ geometry.now.peb_size }
        ensures done { OnOk result (WhereHeld (T.agrees contents.new) (λ bytes. block.new ≡ block_cut geometry.now p (take self.now.stop (in_order (plan_groups geometry.now self.now.plan.now bytes))) block.old)) }
    {
        let mut left = self.stop;
        for k in 0..self.plan.group_count() {
            if self.plan.may_work_on(k, p) {
                let mut steps = self.plan.group(alloc, geometry, k, contents, buffer)?;
                steps.truncate(left);
                apply_all(geometry, p, block, steps.as_slice());
            }
            left = left.saturating_sub(self.counts[k]);
        }
        Ok(())
    }
}
