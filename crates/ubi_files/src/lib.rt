//! Files by their paths: how a dump is opened and read, how an output is written, and what is printed if either fails.
//!
//! A [`Disk`] reaches files by their paths; [`Host`] is the system's own. A [`Dump`] says how the bytes of a file are read:
//! the pages of a part of it, with 0xFF in place of bad eraseblocks and of those before the part. [`open_dump`] opens it once its [`Frame`] is known; it
//! is read at places if it can be. A [`LateFile`] is an output file that is opened at the first write.
#![tactic(auto)]

mod bad_blocks;
mod behind;
mod disk;
mod dump;
mod file_row;
mod folder;
mod held_file;
mod host;
mod host_file;
mod image_file;
mod image_source;
mod late_file;
mod lines;
mod masked;
mod numbers;
mod open_image;
mod outcome;
mod pages;
mod part;
mod progress;
mod read;
mod replaced;
mod standard;
mod view;
mod whole_dump;

pub use bad_blocks::{is_block_list, marks_by_number, without_plus};
pub use behind::Behind;
pub use disk::{Disk, OutputFile, WholeFile};
pub use dump::Dump;
pub use file_row::{FileRow, SizedFile};
pub use held_file::HeldFile;
pub use host::Host;
pub use host_file::HostFile;
pub use image_file::{ImageFile, Unread, allowed_geometry, load, unread_file, unread_line};
pub use late_file::{LateFile, Target};
pub use lines::{
    file_line, geometry_line, misfit_line, put_number, put_word, refusal_line, refused,
};
pub use masked::{Masked, mask};
pub use numbers::{GREATEST, Numbers, geometry_of};
pub use open_image::{
    DumpSource, Frame, OpenImage, PlacedImage, Seen, frame_of, open_beside, open_dump,
};
pub use outcome::{DONE, FAILED, Outcome, SidesError, ToolError, WRONG_WORDS, in_memory, nothing};
pub use pages::Pages;
pub use part::Part;
pub use progress::ProgressWriter;
pub use read::read_limited;
pub use standard::STREAM;
pub use view::{FilePart, Misfit, WHOLE_FILE};
pub use whole_dump::see_kept;
