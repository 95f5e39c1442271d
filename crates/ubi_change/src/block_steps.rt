//! Steps as far as they change one eraseblock.

ghost use Rattle.std.specs.Prelude.{◌≡◌, ℕ, List, OnOk, length, []};
ghost use Rattle.ubi_change.specs.Fitting.{WorkWithin};
ghost use Rattle.ubi_change.specs.Laying.{StaysOpen};
ghost use Rattle.ubi_change.specs.Steps.{block_cut};
ghost use Rattle.ubi_change.specs.declared.step.Step.{Step};
ghost use Rattle.ubi_scan.specs.Source.{Agreed, Narrows, Source, WhereHeld, holds, memory};
ghost use Rattle.ubi_media.specs.Geometry.{Sizes};

use crate::errors::ContentsError;
use crate::image_after::apply_to;
use crate::step::Step;
use ubi_media::Geometry;

/// Steps that are carried out on one eraseblock after the other.
pub trait BlockSteps {
    // The steps, by the bytes of the source of the contents that they write.
    ghost plan: { Self → List ℕ → List Step };

    // What is known of that source.
    ghost known: { Self → Source };

    // Which bytes it may hold: those that agree with each of its reads.
    ghost agrees: { Self → Agreed };

    // They are ready for eraseblocks of a geometry.
    ghost ready: { Self → Sizes → Type 0 };

    /// Carries out, on an eraseblock, those of the steps that change it.
    ///
    /// # Errors
    ///
    /// They can't be made, since a read failed or memory ran out. The eraseblock may then hold any bytes.
    fn apply_in(
        &mut self,
        geometry: &Geometry,
        p: u32,
        block: &mut [u8],
    ) -> Result<(), ContentsError>
        requires ready { ready self.old geometry.now }
        requires size { length block.old ≡ geometry.now.peb_size }
        ensures ready { ready self.new geometry.now }
        ensures same { plan self.new ≡ plan self.old }
        ensures known { StaysOpen (known self.old) (known self.new) }
        ensures narrows { Narrows (agrees self.old) (agrees self.new) }
        ensures size { length block.new ≡ geometry.now.peb_size }
        ensures done { OnOk result (WhereHeld (agrees self.new) (λ bytes. block.new ≡ block_cut geometry.now p (plan self.old bytes) block.old)) };

    // Each of them works within an eraseblock.
    ghost within: { (e : Self) (s : Sizes) → ready e s → WhereHeld (agrees e) (λ bytes. WorkWithin s (plan e bytes)) };
}

/// Carries out, on an eraseblock, those of some steps that change it.
pub fn apply_all(geometry: &Geometry, p: u32, block: &mut [u8], steps: &[Step])
    requires size { length block.old ≡ geometry.now.peb_size }
    requires within { WorkWithin geometry.now steps.now }
    ensures done { block.new ≡ block_cut geometry.now p steps.now block.old }
    ensures size { length block.new ≡ geometry.now.peb_size }
{
    for step in steps {
        if step.eraseblock() == p {
            apply_to(geometry, block, step);
        }
    }
}

/// Steps that are held in memory.
#[derive(Clone, Copy)]
pub struct HeldSteps<'a> {
    /// The steps, in order.
    pub steps: &'a [Step],
}

impl BlockSteps for HeldSteps<'_> {
    ghost plan = { λ e _. e.steps.now };

    ghost known = { λ _. memory [] };

    ghost agrees = { λ _. holds [] };

    ghost ready = { λ e s. WorkWithin s e.steps.now };

    fn apply_in(
        &mut self,
        geometry: &Geometry,
        p: u32,
        block: &mut [u8],
    ) -> Result<(), ContentsError> {
        apply_all(geometry, p, block, self.steps);
        Ok(())
    }

    ghost within = { λ e s ready _ _. ready };
}
