//! The calls that plan an edit: the lines of its steps, and the pages that these program.

ghost use Rattle.std.specs.Prelude.{◌≡◌, ◌≢◌, ◌++◌, [], IfErr, IfOk, List, Ok, codes, length, true, ℕ};
ghost use Rattle.ubi_files.specs.Answer.{Gives, says};
ghost use Rattle.ubi_scan.specs.Image.{image_of, of_blocks};
ghost use Rattle.ubi_change.specs.Avoided.{ReadBlank};
ghost use Rattle.ubi_change.specs.Listed.{hidden_in};
ghost use Rattle.ubi_scan.specs.Source.{blocks_of};
ghost use Rattle.ubi_calls.specs.Calls.{FillsBoth, Under};
ghost use Rattle.ubi_calls.specs.EditLines.{AreAsksOf};
ghost use Rattle.ubi_calls.specs.Edits.{PlansChange, PlansRename, PlansUpdate, image_without, spared, wrong_line};
ghost use Rattle.ubi_calls.specs.inner.Editing.{HandsPlan, edit_plan, given_pages, spared_plan};

use crate::answer::{NO_MEMORY, hand, limit_outcome, put_all};
use crate::edit_lines::{NoEdits, asks_in};
use crate::numbers::{DeviceSizes, geometry_of};
use std::alloc::{AllocError, Global};
use std::io;
use ubi_change::{Avoided, Hidden, find_hidden};
use ubi_files::{DONE, FAILED, Outcome, ToolError, marks_by_number, mask, put_number, put_word};
use ubi_media::Geometry;
use ubi_scan::MemorySource;
use ubi_writing::{Ask, Edits, NewBytes, Pages, run_change_from, run_rename_from, run_update_from};

/// An edit of an image.
#[derive(Clone, Copy)]
enum Edit<'a> {
    /// These bytes for a logical eraseblock.
    Change(NewBytes<'a>),
    /// The name that a word shows for the volume with this number.
    Rename(u32, &'a [u8]),
    /// The edits of whole volumes for which the lines of a text ask, and the contents that they write.
    Update(&'a [u8], &'a [u8]),
}

/// What a plan spares on a chip.
#[derive(Clone, Copy)]
struct Spared<'a> {
    /// The numbers of the bad eraseblocks.
    bad: &'a [u32],
    /// Whether no Blank eraseblock may be touched.
    keeps_blank: bool,
}

/// The outcome of work over memory that writes nowhere.
///
/// # Errors
///
/// Memory ran out.
fn outcome_of(work: Result<Outcome, ToolError>) -> Result<Outcome, AllocError>
    requires { IfErr work (λ e. e ≢ ToolError.Read) }
    ensures { IfOk result (λ o. work ≡ Ok o) }
{
    match work {
        Ok(outcome) => Ok(outcome),
        // What writes nowhere takes all bytes.
        Err(ToolError::Write | ToolError::Memory) => Err(AllocError),
        // Reading memory doesn't fail.
        Err(ToolError::Read) => unreachable!(),
    }
}

/// Plans a change of an image: returns what is printed for it, and adds the pages that it programs.
///
/// # Errors
///
/// Memory ran out.
fn plan_change(
    alloc: Global,
    geometry: &Geometry,
    image: &[u8],
    avoided: &Avoided<'_>,
    new: &NewBytes<'_>,
    pages: &mut Vec<u8>,
) -> Result<Outcome, AllocError>
    requires empty { pages.old.items ≡ [] }
    requires blank { of_blocks ReadBlank (image_of geometry.now image.now) avoided.now }
    ensures { IfOk result (λ o. PlansChange (image_of geometry.now image.now) avoided.now new.now.id new.now.lnum new.now.bytes.now (given_pages o.status pages.new.items) o.text.items o.status) }
{
    let mut source = MemorySource::new(image);
    let mut nowhere = io::sink();
    let work = run_change_from(
        alloc,
        geometry,
        &mut source,
        avoided,
        new,
        None,
        &mut nowhere,
        pages,
    );
    outcome_of(work)
}

/// Plans a rename of a volume of an image: returns what is printed for it, and adds the pages that it programs.
///
/// # Errors
///
/// Memory ran out.
fn plan_rename(
    alloc: Global,
    geometry: &Geometry,
    image: &[u8],
    avoided: &Avoided<'_>,
    id: u32,
    word: &[u8],
    pages: &mut Vec<u8>,
) -> Result<Outcome, AllocError>
    requires empty { pages.old.items ≡ [] }
    requires blank { of_blocks ReadBlank (image_of geometry.now image.now) avoided.now }
    ensures { IfOk result (λ o. PlansRename (image_of geometry.now image.now) avoided.now id word.now (given_pages o.status pages.new.items) o.text.items o.status) }
{
    let mut source = MemorySource::new(image);
    let mut nowhere = io::sink();
    let work = run_rename_from(
        alloc,
        geometry,
        &mut source,
        avoided,
        id,
        word,
        None,
        &mut nowhere,
        pages,
    );
    outcome_of(work)
}

/// What is answered for a text whose line with this number is wrong.
///
/// # Errors
///
/// Memory ran out.
fn wrong_outcome(alloc: Global, number: u64) -> Result<Outcome, AllocError>
    ensures { IfOk result (λ o. Gives o (says (wrong_line number) 1)) }
{
    let mut line = Vec::new(alloc);
    put_number(&mut line, "refused E1 BadEdit line=", number)?;
    put_word(&mut line, "\n")?;
    Ok(Outcome::saying(line, FAILED))
}

/// Whether a line says that contents can't be read.
fn is_unread(text: &[u8]) -> bool
    ensures { (path : List ℕ) → text.now ≡ codes "cannot read " ++ path → result ≡ true }
{
    text.starts_with(b"cannot read ")
}

/// Plans edits of whole volumes of an image: returns what is printed for them, and adds the pages that they program.
///
/// # Errors
///
/// Memory ran out.
fn plan_asks(
    alloc: Global,
    geometry: &Geometry,
    image: &[u8],
    avoided: &Avoided<'_>,
    asks: &[Ask<'_>],
    contents: &[u8],
    pages: &mut Vec<u8>,
) -> Result<Outcome, AllocError>
    requires empty { pages.old.items ≡ [] }
    requires blank { of_blocks ReadBlank (image_of geometry.now image.now) avoided.now }
    ensures { (text : List ℕ) → AreAsksOf text (length contents.now) asks.now
        → IfOk result (λ o. PlansUpdate (image_of geometry.now image.now) avoided.now text contents.now (given_pages o.status pages.new.items) o.text.items o.status) }
{
    let asked = Edits {
        asks,
        volumes: &[],
        paths: &[],
    };
    let mut source = MemorySource::new(image);
    let mut nowhere = io::sink();
    let mut made = Pages::of(alloc, MemorySource::new(contents));
    let work = run_update_from(
        alloc,
        geometry,
        &mut source,
        avoided,
        &asked,
        None,
        &mut nowhere,
        &mut made,
    );
    let outcome = outcome_of(work)?;
    // Contents in memory can be read, so only memory runs out.
    if is_unread(outcome.text.as_slice()) || made.write_to(pages).is_err() {
        return Err(AllocError);
    }
    Ok(outcome)
}

/// Plans the edits of whole volumes for which the lines of a text ask: returns what is printed for them, and adds the pages that they
/// program.
///
/// # Errors
///
/// Memory ran out.
fn plan_update(
    alloc: Global,
    geometry: &Geometry,
    image: &[u8],
    avoided: &Avoided<'_>,
    text: &[u8],
    contents: &[u8],
    pages: &mut Vec<u8>,
) -> Result<Outcome, AllocError>
    requires empty { pages.old.items ≡ [] }
    requires blank { of_blocks ReadBlank (image_of geometry.now image.now) avoided.now }
    ensures { IfOk result (λ o. PlansUpdate (image_of geometry.now image.now) avoided.now text.now contents.now (given_pages o.status pages.new.items) o.text.items o.status) }
{
    match asks_in(alloc, text, contents.len() as u64) {
        Ok(asks) => {
            let asks = asks.as_slice();
            plan_asks(alloc, geometry, image, avoided, asks, contents, pages)
        }
        Err(NoEdits::Line(number)) => wrong_outcome(alloc, number),
        Err(NoEdits::Memory) => Err(AllocError),
    }
}

/// Hands over what is printed for a plan, and its pages, if it is one; returns the status.
fn hand_plan(
    answer: Result<Outcome, AllocError>,
    pages: &[u8],
    out: &mut [u8],
    len: &mut usize,
    room: &mut [u8],
    pages_len: &mut usize,
) -> u32
    ensures { HandsPlan answer pages.now out.old out.new len.new room.old room.new pages_len.new result }
{
    match answer {
        Ok(outcome) => {
            if outcome.status == DONE {
                put_all(pages, room, pages_len);
            } else {
                *pages_len = 0;
            }
            hand(outcome.text.as_slice(), outcome.status, out, len)
        }
        Err(_) => {
            *len = 0;
            *pages_len = 0;
            NO_MEMORY
        }
    }
}

/// What headers in listed eraseblocks of an image name.
///
/// # Errors
///
/// Memory ran out.
fn hidden_of(
    alloc: Global,
    geometry: &Geometry,
    image: &[u8],
    marks: &[bool],
) -> Result<Hidden, AllocError>
    ensures { IfOk result (λ h. h ≡ hidden_in geometry.now (blocks_of geometry.now image.now) marks.now) }
{
    match find_hidden(alloc, geometry, &mut MemorySource::new(image), marks) {
        Ok(hidden) => Ok(hidden),
        // Reading memory doesn't fail.
        Err(_) => Err(AllocError),
    }
}

impl Edit<'_> {
    /// Plans the edit of an image in which no listed eraseblock holds anything: returns what is printed for it, and adds the pages
    /// that it programs.
    ///
    /// # Errors
    ///
    /// Memory ran out.
    fn plan(
        &self,
        alloc: Global,
        geometry: &Geometry,
        image: &[u8],
        avoided: &Avoided<'_>,
        pages: &mut Vec<u8>,
    ) -> Result<Outcome, AllocError>
        requires empty { pages.old.items ≡ [] }
        requires blank { of_blocks ReadBlank (image_of geometry.now image.now) avoided.now }
        ensures { IfOk result (λ o. edit_plan self.now (image_of geometry.now image.now) avoided.now (given_pages o.status pages.new.items) o.text.items o.status) }
    {
        match self {
            Edit::Change(new) => plan_change(alloc, geometry, image, avoided, new, pages),
            Edit::Rename(id, word) => {
                plan_rename(alloc, geometry, image, avoided, *id, word, pages)
            }
            Edit::Update(text, contents) => {
                plan_update(alloc, geometry, image, avoided, text, contents, pages)
            }
        }
    }

    /// Plans the edit of an image on a chip: its bad eraseblocks read 0xFF, in a copy of the image if there are some.
    ///
    /// # Errors
    ///
    /// Memory ran out.
    fn plan_sparing(
        &self,
        alloc: Global,
        geometry: &Geometry,
        image: &[u8],
        spared: &Spared<'_>,
        pages: &mut Vec<u8>,
    ) -> Result<Outcome, AllocError>
        requires { pages.old.items ≡ [] }
        ensures { IfOk result (λ o. spared_plan self.now spared.now geometry.now image.now (given_pages o.status pages.new.items) o.text.items o.status) }
    {
        let marks = marks_by_number(alloc, geometry.pebs(), spared.bad)?;
        let marks = marks.as_slice();
        let hidden = hidden_of(alloc, geometry, image, marks)?;
        let avoided = Avoided::new(marks, spared.keeps_blank, hidden.above(), hidden.ends());
        if marks.is_empty() {
            return self.plan(alloc, geometry, image, &avoided, pages);
        }
        let mut seen = Vec::from_slice(alloc, image)?;
        mask(seen.as_mut_slice(), geometry.peb_size(), marks);
        self.plan(alloc, geometry, seen.as_slice(), &avoided, pages)
    }

    /// Plans the edit under numbers.
    ///
    /// # Errors
    ///
    /// Memory ran out.
    fn plan_under(
        &self,
        alloc: Global,
        sizes: &DeviceSizes,
        image: &[u8],
        spared: &Spared<'_>,
        pages: &mut Vec<u8>,
    ) -> Result<Outcome, AllocError>
        requires { pages.old.items ≡ [] }
        ensures { IfOk result (λ o. Under sizes.now (λ s. spared_plan self.now spared.now s image.now (given_pages o.status pages.new.items)) o.text.items o.status) }
    {
        match geometry_of(sizes) {
            Ok(geometry) => self.plan_sparing(alloc, &geometry, image, spared, pages),
            Err(limit) => limit_outcome(alloc, limit),
        }
    }

    /// Hands over the plan of the edit under numbers; returns the status.
    fn tell(
        &self,
        alloc: Global,
        sizes: &DeviceSizes,
        image: &[u8],
        spared: &Spared<'_>,
        out: &mut [u8],
        len: &mut usize,
        room: &mut [u8],
        pages_len: &mut usize,
    ) -> u32
        ensures { FillsBoth (λ pages. Under sizes.now (λ s. spared_plan self.now spared.now s image.now pages)) out.old out.new len.new room.old room.new pages_len.new result }
    {
        let mut pages = Vec::new(alloc);
        let answer = self.plan_under(alloc, sizes, image, spared, &mut pages);
        hand_plan(answer, pages.as_slice(), out, len, room, pages_len)
    }
}

/// The plan of a change on a chip with these bad eraseblocks: its lines, as `change` prints them with `--bad`, and with `--blank keep` if
/// `keeps_blank`; and the pages that its steps program, in order. Or the line of the refusal, and no pages.
pub fn change(
    alloc: Global,
    sizes: &DeviceSizes,
    image: &[u8],
    bad: &[u32],
    keeps_blank: bool,
    id: u32,
    lnum: u32,
    new: &[u8],
    out: &mut [u8],
    len: &mut usize,
    pages: &mut [u8],
    pages_len: &mut usize,
) -> u32
    ensures { FillsBoth (λ programmed. Under sizes.now (λ s. PlansChange (image_without s bad.now image.now) (spared s bad.now keeps_blank image.now) id lnum new.now programmed)) out.old out.new len.new pages.old pages.new pages_len.new result }
{
    let edit = Edit::Change(NewBytes {
        id,
        lnum,
        bytes: new,
    });
    let spared = Spared { bad, keeps_blank };
    edit.tell(alloc, sizes, image, &spared, out, len, pages, pages_len)
}

/// The plan of a rename on a chip with these bad eraseblocks, to the name that a word shows: its lines, as `rename` prints them with
/// `--bad`, and with `--blank keep` if `keeps_blank`; and the pages that its steps program, in order. Or the line of the refusal, and no
/// pages.
pub fn rename(
    alloc: Global,
    sizes: &DeviceSizes,
    image: &[u8],
    bad: &[u32],
    keeps_blank: bool,
    id: u32,
    word: &[u8],
    out: &mut [u8],
    len: &mut usize,
    pages: &mut [u8],
    pages_len: &mut usize,
) -> u32
    ensures { FillsBoth (λ programmed. Under sizes.now (λ s. PlansRename (image_without s bad.now image.now) (spared s bad.now keeps_blank image.now) id word.now programmed)) out.old out.new len.new pages.old pages.new pages_len.new result }
{
    let spared = Spared { bad, keeps_blank };
    Edit::Rename(id, word).tell(alloc, sizes, image, &spared, out, len, pages, pages_len)
}

/// The plan of edits of whole volumes in one commit on a chip with these bad eraseblocks. `text` has a line for each edit, done in this
/// order: `rename NAME=NEW`, `resize NAME=SIZE`, `remove NAME`, or `write NAME=LENGTH`, where the volume's contents are the next so many bytes
/// of `contents`, and `SIZE` is that of `update --resize`. Names are those in the image, in the form in which they are printed.
///
/// The answer is the lines of the volumes that are written, and of the steps, as `update` prints them with `--bad`, and with `--blank keep`
/// if `keeps_blank`; and the pages that the steps program, in order. Or the line of the refusal, and no pages: E1 BadEdit comes first, with
/// the first line that asks for no edit, or for more contents than are left, or with the one after the last if contents are left.
pub fn update(
    alloc: Global,
    sizes: &DeviceSizes,
    image: &[u8],
    bad: &[u32],
    keeps_blank: bool,
    text: &[u8],
    contents: &[u8],
    out: &mut [u8],
    len: &mut usize,
    pages: &mut [u8],
    pages_len: &mut usize,
) -> u32
    ensures { FillsBoth (λ programmed. Under sizes.now (λ s. PlansUpdate (image_without s bad.now image.now) (spared s bad.now keeps_blank image.now) text.now contents.now programmed)) out.old out.new len.new pages.old pages.new pages_len.new result }
{
    let spared = Spared { bad, keeps_blank };
    Edit::Update(text, contents).tell(alloc, sizes, image, &spared, out, len, pages, pages_len)
}
