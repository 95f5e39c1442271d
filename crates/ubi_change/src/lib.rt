//! Plans that change an image and survive a power cut: a plan gives one logical eraseblock (LEB) new bytes
//! ([`plan_change`]), or a volume another name ([`plan_rename`]), or makes edits of whole volumes in one commit
//! ([`plan_update_from`]).
//!
//! A plan is a list of steps, each of which erases an eraseblock or programs one page. After any whole number of steps the
//! image is accepted, and means the old or the new. A plan is made from the bytes of an image, or from a source that is
//! read at places ([`plan_change_from`], [`plan_rename_from`]); [`write_after`] writes the image that its steps leave.
//!
//! A caller, proved from the contracts alone (`crates/ubi_uses`):
//!
//! ```
//! use std::alloc::Global;
//! use ubi_change::{ChangeRefusal, Step, plan_change};
//! use ubi_media::Geometry;
//!
//! /// The steps by which the first logical eraseblock of a volume gets new bytes. The power may fail after any of them.
//! pub fn update(
//!     alloc: Global,
//!     geometry: &Geometry,
//!     image: &[u8],
//!     id: u32,
//!     new: &[u8],
//! ) -> Result<Vec<Step>, ChangeRefusal>
//!     ensures survives { IfOk result (λ steps. SurvivesCutsOf (image_of geometry.now image.now) id 0 new.now steps.items) }
//!     ensures rises { IfOk result (λ steps. of_blocks RisesBetweenErases (image_of geometry.now image.now) steps.items) }
//! {
//!     plan_change(alloc, geometry, image, id, 0, new)
//! }
//! ```
#![tactic(auto)]

mod avoided;
mod basis;
mod block_steps;
mod change;
mod copies;
mod drafting;
mod edit;
mod errors;
mod first_steps;
mod ground;
mod hidden;
mod image_after;
mod judging;
mod known;
pub mod laws;
mod laying;
mod outline;
mod pages;
mod placing;
mod plan_steps;
mod rename;
mod sites;
mod step;
mod takeable;
mod trim;
mod update;
mod updating;
mod weak_check;
mod written_out;

pub use avoided::Avoided;
pub use block_steps::{BlockSteps, HeldSteps};
pub use change::{plan_change, plan_change_from};
pub use edit::{Edit, NewVolume};
pub use errors::{
    ChangeRefusal, ContentsError, EditFault, PlanError, RenameRefusal, UpdateError, UpdateRefusal,
};
pub use first_steps::FirstSteps;
pub use hidden::{Hidden, find_hidden};
pub use image_after::{apply, step_fits, write_after};
pub use rename::{plan_rename, plan_rename_from};
pub use step::Step;
pub use update::UpdatePlan;
pub use updating::plan_update_from;
