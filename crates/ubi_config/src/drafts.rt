//! What the lines of a section say together.

ghost use Rattle.std.specs.List.{before_first};
ghost use Rattle.std.specs.Prelude.{◌≡◌, IfOk, MatchResult, Ok, OnOk, position};
ghost use Rattle.ubi_config.specs.Above.{is_heading};
ghost use Rattle.ubi_config.specs.inner.Reading.{IsRefused};
ghost use Rattle.ubi_config.specs.Sections.{draft_of, finished, may_skip, needs_image, no_draft, with_line};
ghost use Rattle.ubi_media.specs.Kind.{is_static};

use crate::errors::{ConfigCause, LineError};
use crate::key::Key;
use crate::line::Line;
use crate::section::Section;
use crate::text::Text;
use std::alloc::{AllocError, Global};
use ubi_media::{VolKind, VolName};

/// The flag of a volume that grows to the size of the device (`UBI_VTBL_AUTORESIZE_FLG`).
const AUTORESIZE: u8 = 0x01;

/// The flag of a static volume whose CRCs aren't checked when it's opened (`UBI_VTBL_SKIP_CRC_CHECK_FLG`).
const SKIP_CHECK: u8 = 0x02;

/// What the lines of a section say together.
#[derive(Drop)]
pub(crate) struct Draft {
    mode: bool,
    image: Option<Text>,
    id: Option<u32>,
    size: Option<u64>,
    kind: VolKind,
    name: Option<VolName>,
    flags: u8,
    alignment: u32,
}

impl Draft {
    /// A section about which nothing is said.
    fn new() -> Draft
        ensures { result ≡ no_draft }
    {
        Draft {
            mode: false,
            image: None,
            id: None,
            size: None,
            kind: VolKind::Dynamic,
            name: None,
            flags: 0,
            alignment: 1,
        }
    }

    /// Takes what one more line of the section says.
    fn take(&mut self, alloc: Global, line: &Line) -> Result<(), AllocError>
        ensures { OnOk result (self.new ≡ with_line self.old line.now) }
    {
        match line {
            Line::Heading(_, _) => (),
            Line::Mode => self.mode = true,
            Line::Image(path) => self.image = Some(Text::new(alloc, path.as_bytes())?),
            Line::Id(id) => self.id = Some(*id),
            Line::Size(bytes) => self.size = Some(*bytes),
            Line::Kind(kind) => self.kind = *kind,
            Line::Name(name) => self.name = Some(*name),
            Line::Autoresize => self.flags = AUTORESIZE,
            Line::SkipCheck => self.flags = SKIP_CHECK,
            Line::Alignment(alignment) => self.alignment = *alignment,
        }
        Ok(())
    }

    /// Whether the section has to name an image: it's static, or without a size.
    fn needs_image(&self) -> bool
        ensures { result ≡ needs_image self.now }
    {
        self.kind == VolKind::Static || self.size.is_none()
    }

    /// Whether the section may skip its CRCs, or doesn't: a dynamic volume has none.
    fn may_skip(&self) -> bool
        ensures { result ≡ may_skip self.now }
    {
        self.kind == VolKind::Static || self.flags != SKIP_CHECK
    }

    /// The section that begins at a line.
    #[tactic(auto, unfolding(crate::specs::Sections::finished))]
    fn finished(self, line: u32) -> Result<Section, ConfigCause>
        ensures { result ≡ finished line self }
    {
        if !self.mode {
            return Err(ConfigCause::Missing(Key::Mode));
        }
        let id = self.id.ok_or(ConfigCause::Missing(Key::Id))?;
        let name = self.name.ok_or(ConfigCause::Missing(Key::Name))?;
        if self.image.is_none() && self.needs_image() {
            return Err(ConfigCause::Missing(Key::Image));
        }
        if !self.may_skip() {
            return Err(ConfigCause::SkipCheck);
        }
        Ok(Section {
            line,
            id,
            name,
            kind: self.kind,
            alignment: self.alignment,
            flags: self.flags,
            size: self.size,
            image: self.image,
        })
    }
}

/// What the lines of a section say together.
#[tactic(auto, unfolding(crate::specs::Sections::draft_of))]
fn draft_of(alloc: Global, lines: &[Line]) -> Result<Draft, AllocError>
    ensures { IfOk result (λ d. d ≡ draft_of lines.now) }
{
    let mut draft = Draft::new();
    for line in lines {
        draft.take(alloc, line)?;
    }
    Ok(draft)
}

/// Where the next section begins.
fn heading_place(lines: &[Line]) -> Option<usize>
    ensures { result ≡ position is_heading lines.now }
{
    lines.iter().position(|line| line.is_heading())
}

/// The lines before the next section.
#[tactic(auto, using(crate::proofs::FirstPlace::first_or_end))]
fn settings(lines: &[Line]) -> &[Line]
    ensures { result.now ≡ before_first is_heading lines.now }
{
    &lines[..heading_place(lines).unwrap_or(lines.len())]
}

/// The section that begins at a line, with what the lines below say about it.
pub(crate) fn section_of(alloc: Global, line: u32, below: &[Line]) -> Result<Section, LineError>
    ensures { let made = finished line (draft_of (before_first is_heading below.now)) in MatchResult result (λ s. made ≡ Ok s) (IsRefused made) }
{
    let draft = draft_of(alloc, settings(below))?;
    Ok(draft.finished(line)?)
}
