//! The pages that a plan programs, and what they are made of.

ghost use Rattle.std.specs.Io.KnownBytes.{Appends};
ghost use Rattle.std.specs.Prelude.{◌≡◌, ◌∷◌, [], OnOk, length};
ghost use Rattle.ubi_change.specs.Laying.{StaysOpen};
ghost use Rattle.ubi_change.specs.Pages.{programmed};
ghost use Rattle.ubi_scan.specs.Source.{Narrows, WhereHeld};
ghost use Rattle.ubi_writing.specs.Pages.{IsReadyFor, IsSoundPages, IsSoundPlan, first_steps, made_steps, made_within, pages_made};

use std::alloc::Global;
use std::io::Write;
use ubi_change::{BlockSteps, ContentsError, FirstSteps, Step, UpdatePlan};
use ubi_files::ToolError;
use ubi_media::Geometry;
use ubi_scan::BlockSource;
use ubi_volume::write_all;

/// The first steps of a plan of edits, which are made again whenever they are needed.
#[derive(Drop)]
pub struct MadeEdits {
    pub(crate) geometry: Geometry,
    pub(crate) plan: UpdatePlan,
    /// How many steps each group of the plan has.
    pub(crate) counts: Vec<usize>,
    /// How many steps are carried out.
    pub(crate) stop: usize,
}

/// What the pages of a plan are made of.
#[derive(Drop)]
pub enum Made {
    /// There are none.
    Nothing,
    /// They are held.
    Held(Vec<u8>),
    /// The first steps of a plan of edits program them.
    Edits(MadeEdits),
}

/// The pages that a plan programs, and the source of the contents that it writes.
#[derive(Drop)]
pub struct Pages<T: BlockSource> {
    alloc: Global,
    pub(crate) contents: T,
    pub(crate) made: Made,
    /// Room for an eraseblock, once there is a plan of edits.
    pub(crate) buffer: Vec<u8>,
}

impl<T: BlockSource> Pages<T> {
    /// No pages yet. What is written comes from this source.
    pub fn of(alloc: Global, contents: T) -> Pages<T>
        ensures contents { result.contents ≡ contents }
        ensures made { result.made ≡ Made.Nothing }
    {
        Pages {
            alloc,
            contents,
            made: Made::Nothing,
            buffer: Vec::new(alloc),
        }
    }

    /// Makes these the pages.
    pub fn hold(&mut self, pages: Vec<u8>)
        ensures contents { self.new.contents ≡ self.old.contents }
        ensures made { self.new.made ≡ Made.Held pages }
    {
        self.made = Made::Held(pages);
    }

    /// The source of contents.
    pub fn contents(&self) -> &T
        ensures { result.now ≡ self.now.contents }
    {
        &self.contents
    }
}

impl<T: BlockSource> BlockSteps for Pages<T> {
    ghost plan = { λ pages. made_steps pages.made };

    ghost known = { λ pages. T.known pages.contents };

    ghost agrees = { λ pages. T.agrees pages.contents };

    ghost ready = { λ pages s. IsReadyFor s (T.known pages.contents).size (T.agrees pages.contents) (length pages.buffer.items) pages.made };

    fn apply_in(
        &mut self,
        geometry: &Geometry,
        p: u32,
        block: &mut [u8],
    ) -> Result<(), ContentsError> {
        match &self.made {
            Made::Edits(made) => {
                let first = FirstSteps {
                    plan: &made.plan,
                    counts: made.counts.as_slice(),
                    stop: made.stop,
                };
                let buffer = self.buffer.as_mut_slice();
                first.apply_in(self.alloc, geometry, p, &mut self.contents, block, buffer)
            }
            // These aren't carried out so.
            Made::Nothing | Made::Held(_) => unreachable!(),
        }
    }

    ghost within = { λ pages s ready. made_within s (T.known pages.contents).size (T.agrees pages.contents) (length pages.buffer.items) pages.made ready };
}

/// Writes the page that a step programs, if it programs one.
///
/// # Errors
///
/// `Write` if a write failed.
fn write_page<W: Write>(writer: &mut W, step: &Step) -> Result<(), ToolError>
    ensures { OnOk result (Appends (W.contents writer.old) (W.contents writer.new) (programmed (step.now ∷ []))) }
{
    match step {
        Step::Program { bytes, .. } => match write_all(writer, bytes.as_slice()) {
            Ok(()) => Ok(()),
            Err(_) => Err(ToolError::Write),
        },
        Step::Erase { .. } => Ok(()),
    }
}

/// Writes the pages that steps program, in order.
///
/// # Errors
///
/// `Write` if a write failed.
fn write_pages<W: Write>(writer: &mut W, steps: &[Step]) -> Result<(), ToolError>
    ensures { OnOk result (Appends (W.contents writer.old) (W.contents writer.new) (programmed steps.now)) }
{
    for step in steps {
        write_page(writer, step)?;
    }
    Ok(())
}

/// Writes the pages that the first steps of a plan of edits program. The contents are read again; the buffer has the size of an eraseblock.
///
/// # Errors
///
/// `Write` if a write failed, or if the steps couldn't be made, since a read failed or memory ran out.
fn write_made<T: BlockSource, W: Write>(
    alloc: Global,
    made: &MadeEdits,
    contents: &mut T,
    buffer: &mut [u8],
    writer: &mut W,
) -> Result<(), ToolError>
    requires { IsSoundPlan (T.known contents.old).size (T.agrees contents.old) (length buffer.old) made.now }
    ensures contents { StaysOpen (T.known contents.old) (T.known contents.new) }
    ensures narrows { Narrows (T.agrees contents.old) (T.agrees contents.new) }
    ensures room { length buffer.new ≡ length buffer.old }
    ensures written { OnOk result (WhereHeld (T.agrees contents.new) (λ bytes. Appends (W.contents writer.old) (W.contents writer.new) (programmed (first_steps made.now bytes)))) }
{
    let mut left = made.stop;
    for k in 0..made.plan.group_count() {
        let Ok(mut steps) = made.plan.group(alloc, &made.geometry, k, contents, buffer) else {
            return Err(ToolError::Write);
        };
        let count = steps.len();
        steps.truncate(left);
        write_pages(writer, steps.as_slice())?;
        left = left.saturating_sub(count);
    }
    Ok(())
}

impl<T: BlockSource> Pages<T> {
    /// Writes all pages, in order.
    ///
    /// # Errors
    ///
    /// `Write` if a write failed, or if the pages couldn't be made, since a read of contents failed or memory ran out.
    pub fn write_to<W: Write>(&mut self, writer: &mut W) -> Result<(), ToolError>
        requires { IsSoundPages (T.known self.old.contents).size (T.agrees self.old.contents) (length self.old.buffer.items) self.old.made }
        ensures sound { IsSoundPages (T.known self.new.contents).size (T.agrees self.new.contents) (length self.new.buffer.items) self.new.made }
        ensures made { self.new.made ≡ self.old.made }
        ensures contents { StaysOpen (T.known self.old.contents) (T.known self.new.contents) }
        ensures narrows { Narrows (T.agrees self.old.contents) (T.agrees self.new.contents) }
        ensures written { OnOk result (WhereHeld (T.agrees self.new.contents) (λ bytes. Appends (W.contents writer.old) (W.contents writer.new) (pages_made self.new.made bytes))) }
    {
        match &self.made {
            Made::Nothing => Ok(()),
            Made::Held(bytes) => match write_all(writer, bytes.as_slice()) {
                Ok(()) => Ok(()),
                Err(_) => Err(ToolError::Write),
            },
            Made::Edits(made) => {
                let buffer = self.buffer.as_mut_slice();
                write_made(self.alloc, made, &mut self.contents, buffer, writer)
            }
        }
    }
}
