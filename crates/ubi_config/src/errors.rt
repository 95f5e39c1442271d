//! Why a config isn't read, or a section has no record.

ghost use Rattle.std.specs.Prelude.{◌≡◌, Some};
ghost use Rattle.ubi_config.specs.ErrorTexts.{config_cause_name, config_cause_text, config_error_text};
ghost use Rattle.ubi_config.specs.inner.Reading.{error_at};
ghost use Rattle.ubi_config.specs.declared.errors.ConfigError.{ConfigError};
ghost use Rattle.ubi_config.specs.declared.errors.LineError.{LineError};

use crate::key::Key;
use std::alloc::AllocError;
use std::error::Error;
use std::fmt;
use ubi_media::RecFault;

/// What is wrong with a line of a config, or with its section.
#[derive(Clone, Copy, Debug, PartialEq, Eq)]
pub enum ConfigCause {
    /// The line is longer than 1,022 bytes, has a zero byte, or ends with a backslash.
    Line,
    /// The line is neither `[NAME]`, where NAME has 1 to 128 bytes and neither `]` nor `:`, nor `KEY = VALUE`.
    Form,
    /// There is no such key.
    Key,
    /// The value is empty, its quote isn't closed, a blank stands before the closing quote, or more than a remark stands
    /// after it.
    Value,
    /// The key doesn't take the value.
    Unfit,
    /// No section stands above the line, or none in the whole config.
    NoSection,
    /// The section's name, or the key in this section, already stands above.
    Again,
    /// There are already 128 sections above.
    TooMany,
    /// A section above has this `vol_id`.
    SameId,
    /// A section above has this `vol_name`.
    SameName,
    /// A section above has `autoresize`.
    Autoresize,
    /// The section lacks the key.
    Missing(Key),
    /// The section is dynamic, and `skip-check` is for static volumes.
    SkipCheck,
    /// The image file of a dynamic volume is empty, or a volume without an image file has no byte.
    Empty,
    /// The image file has more bytes than `vol_size`.
    LongImage,
    /// The record of the volume breaks a rule, and this is the first that it breaks.
    Record(RecFault),
    /// The volume would reserve 2^31 eraseblocks or more.
    TooLarge,
    /// The number of the volume isn't below the number of slots.
    IdRange,
}

impl ConfigCause {
    /// The name of what is wrong, with its number, and without the key or the fault of a record.
    fn name(self) -> &'static str
        ensures { result.now ≡ config_cause_name self }
    {
        match self {
            ConfigCause::Line => "I1 Line",
            ConfigCause::Form => "I2 Form",
            ConfigCause::Key => "I3 Key",
            ConfigCause::Value => "I4 Value",
            ConfigCause::Unfit => "I5 Unfit",
            ConfigCause::NoSection => "I6 NoSection",
            ConfigCause::Again => "I7 Again",
            ConfigCause::TooMany => "I8 TooMany",
            ConfigCause::SameId => "I9 SameId",
            ConfigCause::SameName => "I10 SameName",
            ConfigCause::Autoresize => "I11 Autoresize",
            ConfigCause::Missing(_) => "I12 Missing",
            ConfigCause::SkipCheck => "I18 SkipCheck",
            ConfigCause::Empty => "I13 Empty",
            ConfigCause::LongImage => "I14 LongImage",
            ConfigCause::Record(_) => "I15 Record",
            ConfigCause::TooLarge => "I16 TooLarge",
            ConfigCause::IdRange => "I17 IdRange",
        }
    }
}

impl fmt::Display for ConfigCause {
    ghost output = { λ cause. Some (config_cause_text cause) };

    fn fmt<W: fmt::Write>(&self, f: &mut fmt::Formatter<W>) -> fmt::Result {
        match self {
            ConfigCause::Missing(key) => {
                let key = key.name();
                write!(f, "I12 Missing {key}")
            }
            ConfigCause::Record(fault) => write!(f, "I15 Record {fault}"),
            _ => f.write_str(self.name()),
        }
    }
}

impl Error for ConfigCause {}

/// Why a config isn't read.
#[derive(Clone, Copy, Debug, PartialEq, Eq)]
pub enum ConfigError {
    /// The first fault: the number of its line, counted from 1, and what it is.
    Refused { line: u32, cause: ConfigCause },
    /// Memory ran out.
    Memory,
}

impl fmt::Display for ConfigError {
    ghost output = { λ error. Some (config_error_text error) };

    fn fmt<W: fmt::Write>(&self, f: &mut fmt::Formatter<W>) -> fmt::Result {
        match self {
            ConfigError::Refused {
                line,
                cause: ConfigCause::Missing(key),
            } => {
                let key = key.name();
                write!(f, "I12 Missing line={line} {key}")
            }
            ConfigError::Refused {
                line,
                cause: ConfigCause::Record(fault),
            } => write!(f, "I15 Record line={line} {fault}"),
            ConfigError::Refused { line, cause } => {
                let name = cause.name();
                write!(f, "{name} line={line}")
            }
            ConfigError::Memory => f.write_str("out of memory"),
        }
    }
}

impl Error for ConfigError {}

impl From<AllocError> for ConfigError {
    ghost from_gives = { λ _ e. e ≡ ConfigError.Memory };

    fn from(_: AllocError) -> ConfigError {
        ConfigError::Memory
    }
}

/// Why a line isn't read, or a section isn't finished.
#[derive(Clone, Copy)]
pub(crate) enum LineError {
    /// What is wrong with it.
    Cause(ConfigCause),
    /// Memory ran out.
    Memory,
}

impl LineError {
    /// Why a config isn't read whose first line at fault has this number.
    pub(crate) fn at(self, line: u32) -> ConfigError
        ensures { result ≡ error_at line self }
    {
        match self {
            LineError::Cause(cause) => ConfigError::Refused { line, cause },
            LineError::Memory => ConfigError::Memory,
        }
    }
}

impl From<AllocError> for LineError {
    ghost from_gives = { λ _ e. e ≡ LineError.Memory };

    fn from(_: AllocError) -> LineError {
        LineError::Memory
    }
}

impl From<ConfigCause> for LineError {
    ghost from_gives = { λ c e. e ≡ LineError.Cause c };

    fn from(cause: ConfigCause) -> LineError {
        LineError::Cause(cause)
    }
}
