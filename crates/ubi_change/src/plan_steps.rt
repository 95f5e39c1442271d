//! The parts of a plan, each added to the steps before it, and the headers that they write.

ghost use Rattle.std.specs.Prelude.{◌≡◌, ◌++◌, ◌∷◌, [], ◌%◌, ◌^◌, ◌≤◌, ◌<◌, IfSome, OnOk, length};
ghost use Rattle.ubi_change.specs.inner.Making.{table_target, target_header};
ghost use Rattle.ubi_change.specs.Sites.{copy_on, lay_on, mount_on, release_on};
ghost use Rattle.ubi_change.specs.inner.Sites.{ready_on};
ghost use Rattle.ubi_change.specs.Plan.{blank_header, copy_header, next_ec, program_header, program_text, renew};

use crate::basis::Basis;
use crate::pages::{ec_page, vid_page};
use crate::sites::Site;
use crate::step::Step;
use crate::takeable::stays;
use std::alloc::{AllocError, Global};
use ubi_media::{EcHeader, Geometry, LAYOUT_VOLUME, REJECT, VidHeader, VolKind, crc, write_ec};
use ubi_volume::Bytes;

/// A copy that takes the place of the winner of a logical eraseblock.
#[derive(Clone, Copy)]
pub struct Replacement {
    /// The eraseblock that gets the copy.
    pub target: Site,
    /// The volume-identifier header of the copy.
    pub header: VidHeader,
    /// The eraseblock that has won the logical eraseblock so far.
    pub old: Site,
    /// The erase-counter header that the old eraseblock then has.
    pub old_ec: Option<EcHeader>,
}

/// The erase-counter header after an erase: its counter is one above that of the header before, or the mean if there was
/// none.
fn next_ec(basis: &Basis, old: Option<EcHeader>) -> EcHeader
    requires { IfSome old (λ header. header.counter ≤ 2 ^ 31) }
    ensures { result ≡ next_ec basis.now old }
{
    EcHeader {
        counter: match old {
            Some(header) => header.counter + 1,
            None => basis.mean_ec(),
        },
        image_seq: basis.image_seq(),
    }
}

/// The erase-counter header of an eraseblock that was made ready.
pub fn ready_ec(basis: &Basis, site: &Site) -> Option<EcHeader>
    requires mean { basis.now.mean_ec ≤ 0x7FFFFFFF }
    requires counter { IfSome site.now.ec (λ header. header.counter ≤ 0x7FFFFFFF) }
    ensures value { result ≡ ready_on basis.now site.now }
    ensures small { IfSome result (λ header. header.counter ≤ 2 ^ 31) }
{
    if site.is_clean {
        site.ec
    } else {
        Some(next_ec(basis, site.ec))
    }
}

/// Adds an erase, and the program of a rewritten erase-counter header.
fn push_renew(
    alloc: Global,
    steps: &mut Vec<Step>,
    geometry: &Geometry,
    p: u32,
    header: &EcHeader,
) -> Result<(), AllocError>
    ensures { OnOk result (steps.new.items ≡ steps.old.items ++ renew geometry.now p header.now) }
{
    steps.push(Step::Erase { pnum: p })?;
    let bytes = ec_page(alloc, geometry, header)?;
    steps.push(Step::Program {
        pnum: p,
        page: 0,
        bytes,
    })?;
    Ok(())
}

/// Adds the program of a volume-identifier header, after the erase-counter header with these bytes.
fn push_header(
    alloc: Global,
    steps: &mut Vec<Step>,
    geometry: &Geometry,
    p: u32,
    ec: &[u8],
    header: &VidHeader,
) -> Result<(), AllocError>
    requires { length ec.now ≡ 64 }
    ensures { OnOk result (steps.new.items ≡ steps.old.items ++ (program_header geometry.now p ec.now header.now ∷ [])) }
{
    let bytes = vid_page(alloc, geometry, ec, header)?;
    steps.push(Step::Program {
        pnum: p,
        page: geometry.vid_offset() / geometry.page(),
        bytes,
    })?;
    Ok(())
}

/// Adds the programs of the pages of some contents, from the data offset on.
fn push_text(
    alloc: Global,
    steps: &mut Vec<Step>,
    geometry: &Geometry,
    p: u32,
    new: &[u8],
) -> Result<(), AllocError>
    requires paged { length new.now % geometry.now.page ≡ 0 }
    requires short { length new.now < 2 ^ 31 }
    ensures { OnOk result (steps.new.items ≡ steps.old.items ++ program_text geometry.now p new.now) }
{
    let page = geometry.page();
    let first = geometry.data_offset() / page;
    for i in 0..new.len() as u32 / page {
        let start = i as usize * page as usize;
        let bytes = Vec::from_slice(alloc, &new[start..start + page as usize])?;
        steps.push(Step::Program {
            pnum: p,
            page: first + i,
            bytes: Bytes::new(bytes),
        })?;
    }
    Ok(())
}

/// Adds what makes an eraseblock ready and gives it a volume-identifier header.
pub fn push_mount(
    alloc: Global,
    steps: &mut Vec<Step>,
    geometry: &Geometry,
    basis: &Basis,
    site: &Site,
    header: &VidHeader,
) -> Result<(), AllocError>
    requires { IfSome site.now.ec (λ header. header.counter ≤ 0x7FFFFFFF) }
    ensures { OnOk result (steps.new.items ≡ steps.old.items ++ mount_on geometry.now basis.now site.now header.now) }
{
    if site.is_clean {
        return push_header(alloc, steps, geometry, site.pnum, &site.ec_area, header);
    }
    let ec = next_ec(basis, site.ec);
    push_renew(alloc, steps, geometry, site.pnum, &ec)?;
    push_header(
        alloc,
        steps,
        geometry,
        site.pnum,
        &write_ec(geometry, &ec),
        header,
    )
}

/// Adds the erase of an old winner, which then has this erase-counter header. The winner is left if it can't count the
/// erase, or is the only one that names the image.
fn push_release(
    alloc: Global,
    steps: &mut Vec<Step>,
    geometry: &Geometry,
    basis: &Basis,
    site: &Site,
    ec: Option<EcHeader>,
) -> Result<(), AllocError>
    requires { IfSome ec (λ header. header.counter ≤ 2 ^ 31) }
    ensures { OnOk result (steps.new.items ≡ steps.old.items ++ release_on geometry.now basis.now site.now ec) }
{
    if stays(basis, site, ec) {
        return Ok(());
    }
    push_renew(alloc, steps, geometry, site.pnum, &next_ec(basis, ec))
}

/// Adds what makes an eraseblock ready, and gives it a volume-identifier header and a text behind it.
pub fn push_laid(
    alloc: Global,
    steps: &mut Vec<Step>,
    geometry: &Geometry,
    basis: &Basis,
    site: &Site,
    header: &VidHeader,
    text: &[u8],
) -> Result<(), AllocError>
    requires counter { IfSome site.now.ec (λ header. header.counter ≤ 0x7FFFFFFF) }
    requires paged { length text.now % geometry.now.page ≡ 0 }
    requires short { length text.now < 2 ^ 31 }
    ensures { OnOk result (steps.new.items ≡ steps.old.items ++ lay_on geometry.now basis.now site.now header.now text.now) }
{
    push_mount(alloc, steps, geometry, basis, site, header)?;
    push_text(alloc, steps, geometry, site.pnum, text)
}

/// Adds a copy with these contents, and then the erase of the old winner.
pub fn push_copy(
    alloc: Global,
    steps: &mut Vec<Step>,
    geometry: &Geometry,
    basis: &Basis,
    copy: &Replacement,
    new: &[u8],
) -> Result<(), AllocError>
    requires target { IfSome copy.now.target.ec (λ header. header.counter ≤ 0x7FFFFFFF) }
    requires counter { IfSome copy.now.old_ec (λ header. header.counter ≤ 2 ^ 31) }
    requires paged { length new.now % geometry.now.page ≡ 0 }
    requires short { length new.now < 2 ^ 31 }
    ensures { OnOk result (steps.new.items ≡ steps.old.items
        ++ copy_on geometry.now basis.now copy.now.target copy.now.header new.now copy.now.old copy.now.old_ec) }
{
    push_laid(
        alloc,
        steps,
        geometry,
        basis,
        &copy.target,
        &copy.header,
        new,
    )?;
    push_release(alloc, steps, geometry, basis, &copy.old, copy.old_ec)
}

/// A logical eraseblock of a dynamic volume, a user's or the layout volume.
#[derive(Clone, Copy)]
pub struct Target {
    /// The number of the volume.
    pub id: u32,
    /// The number of the logical eraseblock.
    pub lnum: u32,
    /// What has to be done with the volume if it isn't known: 0 for a user's.
    pub compat: u8,
    /// How many bytes the volume leaves free at the end of each logical eraseblock.
    pub data_pad: u32,
}

impl Target {
    /// The logical eraseblock that holds a copy of the volume table.
    pub fn of_table(copy: u32) -> Target
        ensures { result ≡ table_target copy }
    {
        Target {
            id: LAYOUT_VOLUME,
            lnum: copy,
            compat: REJECT,
            data_pad: 0,
        }
    }

    /// The header of the logical eraseblock, as long as it names no data.
    fn header(&self) -> VidHeader
        ensures { result ≡ target_header self.now }
    {
        VidHeader::plain(
            VolKind::Dynamic,
            self.compat,
            self.data_pad,
            self.id,
            self.lnum,
        )
    }

    /// The header under which the logical eraseblock reads 0xFF.
    pub fn blank_header(&self, sqnum: u64) -> VidHeader
        ensures { result ≡ blank_header (target_header self.now) sqnum }
    {
        let leb = self.header();
        VidHeader { sqnum, ..leb }
    }

    /// The header of a copy with these contents.
    pub fn copy_header(&self, sqnum: u64, new: &[u8]) -> VidHeader
        requires { length new.now < 2 ^ 31 }
        ensures { result ≡ copy_header (target_header self.now) sqnum new.now }
    {
        VidHeader {
            copy_flag: true,
            data_size: new.len() as u32,
            data_crc: crc(new),
            sqnum,
            ..self.header()
        }
    }
}
