//! What is printed of a config that isn't read.

use std::test::Fail;
use ubi_config::{ConfigCause, ConfigError, Key};
use ubi_media::RecFault;

/// A cause, and its text on line 3.
static SHOWN: [(ConfigCause, &str, &str); 18] = [
    (ConfigCause::Line, "I1 Line", "I1 Line line=3"),
    (ConfigCause::Form, "I2 Form", "I2 Form line=3"),
    (ConfigCause::Key, "I3 Key", "I3 Key line=3"),
    (ConfigCause::Value, "I4 Value", "I4 Value line=3"),
    (ConfigCause::Unfit, "I5 Unfit", "I5 Unfit line=3"),
    (
        ConfigCause::NoSection,
        "I6 NoSection",
        "I6 NoSection line=3",
    ),
    (ConfigCause::Again, "I7 Again", "I7 Again line=3"),
    (ConfigCause::TooMany, "I8 TooMany", "I8 TooMany line=3"),
    (ConfigCause::SameId, "I9 SameId", "I9 SameId line=3"),
    (ConfigCause::SameName, "I10 SameName", "I10 SameName line=3"),
    (
        ConfigCause::Autoresize,
        "I11 Autoresize",
        "I11 Autoresize line=3",
    ),
    (
        ConfigCause::Missing(Key::Id),
        "I12 Missing vol_id",
        "I12 Missing line=3 vol_id",
    ),
    (
        ConfigCause::SkipCheck,
        "I18 SkipCheck",
        "I18 SkipCheck line=3",
    ),
    (ConfigCause::Empty, "I13 Empty", "I13 Empty line=3"),
    (
        ConfigCause::LongImage,
        "I14 LongImage",
        "I14 LongImage line=3",
    ),
    (
        ConfigCause::Record(RecFault::AlignmentPage),
        "I15 Record AlignmentPage",
        "I15 Record line=3 AlignmentPage",
    ),
    (ConfigCause::TooLarge, "I16 TooLarge", "I16 TooLarge line=3"),
    (ConfigCause::IdRange, "I17 IdRange", "I17 IdRange line=3"),
];

#[test]
fn prints_causes(rt: HostRuntime) -> Result<(), Fail> {
    for (cause, text, told) in &SHOWN {
        let error = ConfigError::Refused {
            line: 3,
            cause: *cause,
        };
        assert!(rt;
            format!(in rt.alloc(); "{cause}")?.as_str() == *text,
            "{text}"
        );
        assert!(rt;
            format!(in rt.alloc(); "{error}")?.as_str() == *told,
            "{told}"
        );
    }
    assert!(rt; format!(in rt.alloc(); "{}", ConfigError::Memory)?.as_str() == "out of memory");
    Ok(())
}
