//! Bytes and readings of records of the volume table, and the rules that a value breaks.

use std::test::Fail;
use ubi_media::{
    RecFault, RecRead, VolKind, VolName, VolumeRecord, read_rec, rec_fault, write_rec,
};
use ubi_probe::pebs::small;
use ubi_probe::records::{ALIGNMENT_0, ALIGNMENT_256, BEHIND, EMPTY, KIND_3, ROOT, Slot};

/// What the fields of a record say of a volume.
#[derive(Clone, Copy)]
struct Said {
    alignment: u32,
    kind: VolKind,
    marker: bool,
    name: &'static [u8],
    flags: u8,
}

/// What those of the volume `root` say.
const SAID: Said = Said {
    alignment: 1,
    kind: VolKind::Dynamic,
    marker: false,
    name: b"root",
    flags: 0,
};

impl Said {
    /// The volume.
    fn volume(&self) -> Result<VolumeRecord, Fail> {
        Ok(VolumeRecord {
            reserved: 20,
            alignment: self.alignment,
            kind: self.kind,
            marker: self.marker,
            name: VolName::new(self.name).ok_or("a name")?,
            flags: self.flags,
        })
    }
}

/// Records, and what they say.
static VALID: [(&str, Slot, Said); 5] = [
    ("a sound record", ROOT, SAID),
    (
        "an alignment with its padding",
        ALIGNMENT_256,
        Said {
            alignment: 256,
            ..SAID
        },
    ),
    (
        "the longest name",
        Slot {
            name: &[b'a'; 127],
            name_len: 127,
            check: 0x4529_D27C,
            ..ROOT
        },
        Said {
            name: &[b'a'; 127],
            ..SAID
        },
    ),
    ("a byte behind the zero of the name", BEHIND, SAID),
    (
        "a static volume, marked and with flags",
        Slot {
            kind: 2,
            marker: 1,
            flags: 0xFF,
            check: 0xB52A_4690,
            ..ROOT
        },
        Said {
            kind: VolKind::Static,
            marker: true,
            flags: 0xFF,
            ..SAID
        },
    ),
];

/// Records, and the first rule that each breaks.
static AT_FAULT: [(&str, Slot, RecFault); 13] = [
    (
        "none reserved",
        Slot {
            reserved: 0,
            check: 0xFF45_2C6C,
            ..ROOT
        },
        RecFault::NotEmpty,
    ),
    (
        "the empty record but for one byte of padding",
        Slot {
            padding: 1,
            check: 0x6A65_29BF,
            ..EMPTY
        },
        RecFault::NotEmpty,
    ),
    (
        "a negative number of eraseblocks",
        Slot {
            reserved: 0x8000_0000,
            check: 0xCD67_473E,
            ..ROOT
        },
        RecFault::Negative,
    ),
    ("alignment 0", ALIGNMENT_0, RecFault::Alignment),
    (
        "an alignment above a logical eraseblock",
        Slot {
            alignment: 448,
            check: 0x773C_EDCA,
            ..ROOT
        },
        RecFault::Alignment,
    ),
    (
        "an alignment that is no page",
        Slot {
            alignment: 65,
            check: 0x490A_BFE5,
            ..ROOT
        },
        RecFault::AlignmentPage,
    ),
    (
        "an alignment without its padding",
        Slot {
            alignment: 256,
            check: 0x3E43_FEC2,
            ..ROOT
        },
        RecFault::DataPad,
    ),
    ("type 3", KIND_3, RecFault::Kind),
    (
        "update marker 2",
        Slot {
            marker: 2,
            check: 0x7F12_F77C,
            ..ROOT
        },
        RecFault::Marker,
    ),
    (
        "a name too long",
        Slot {
            name_len: 128,
            check: 0x4A3D_C51A,
            ..ROOT
        },
        RecFault::NameTooLong,
    ),
    (
        "no name",
        Slot {
            name: b"",
            name_len: 0,
            check: 0xC238_261D,
            ..ROOT
        },
        RecFault::NameBlank,
    ),
    (
        "a name longer than its length",
        Slot {
            name_len: 3,
            check: 0xF1FC_C4F2,
            ..ROOT
        },
        RecFault::NameLength,
    ),
    (
        "a name without end",
        Slot {
            name: &[b'a'; 128],
            name_len: 127,
            check: 0xEBA1_9757,
            ..ROOT
        },
        RecFault::NameLength,
    ),
];

#[test]
fn reads_records_or_finds_their_faults(rt: HostRuntime) -> Result<(), Fail> {
    let geometry = small()?;
    for (what, record, said) in &VALID {
        let read = read_rec(&geometry, &record.bytes());
        assert!(rt; read == RecRead::Valid(said.volume()?), "{what}");
    }
    for (what, record, fault) in &AT_FAULT {
        let read = read_rec(&geometry, &record.bytes());
        assert!(rt; read == RecRead::Fault(*fault), "{what}");
    }
    assert!(rt; read_rec(&geometry, &[0; 172]) == RecRead::BadCrc);
    Ok(())
}

/// How many eraseblocks a record reserves, its alignment, and the first rule that it breaks.
static FAULTS: [(u32, u32, RecFault); 5] = [
    (0, 1, RecFault::NotEmpty),
    (0x8000_0000, 1, RecFault::Negative),
    (20, 0, RecFault::Alignment),
    (20, 448, RecFault::Alignment),
    (20, 65, RecFault::AlignmentPage),
];

#[test]
fn writes_records_and_finds_their_faults(rt: HostRuntime) -> Result<(), Fail> {
    let geometry = small()?;
    let root = SAID.volume()?;
    assert!(rt; rec_fault(&geometry, &root).is_none());
    assert!(rt; write_rec(&geometry, Some(&root)) == ROOT.bytes());
    assert!(rt; write_rec(&geometry, None) == EMPTY.bytes());
    assert!(rt; read_rec(&geometry, &EMPTY.bytes()) == RecRead::Empty);
    for (reserved, alignment, fault) in &FAULTS {
        let volume = VolumeRecord {
            reserved: *reserved,
            alignment: *alignment,
            ..root
        };
        assert!(rt;
            rec_fault(&geometry, &volume) == Some(*fault),
            "of {reserved}, {alignment}"
        );
    }
    Ok(())
}
