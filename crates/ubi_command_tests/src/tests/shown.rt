//! Lines that several tests expect.

/// What `geometry` prints for images of small eraseblocks: pages of 64 and of 128 bytes fit.
pub const SMALL: &str =
    "--peb 512 --page 64 --vid 64 --data 128\n--peb 512 --page 128 --vid 64 --data 128\n";

/// What `show` prints for a blank eraseblock.
pub const BLANK_SHOWN: &str =
    "ec blank ffffffffffffffffffffffffffffffffffffffffffffffffffffffffffffffff\
    ffffffffffffffffffffffffffffffffffffffffffffffffffffffffffffffff\n\
    vid blank ffffffffffffffffffffffffffffffffffffffffffffffffffffffffffffffff\
    ffffffffffffffffffffffffffffffffffffffffffffffffffffffffffffffff\n";

/// What it prints for logical eraseblock 2 of `root`.
pub const ROOT_SHOWN: &str =
    "ec valid 5542492301000000000000000000000000000040000000801234567800000000\
    000000000000000000000000000000000000000000000000000000005b73f913\n\
    vid valid 5542492101010000000000000000000200000000000000000000000000000000\
    00000000000000000000000000000000000000000000000000000000efecfd8e\n";

/// What `list` prints for the volume `root`.
pub const ROOT_LISTED: &str = "geometry peb=512 page=64 vid=64 data=128 leb=384 slots=2 pebs=32\n\
    volume 0 dynamic reserved=20 alignment=1 usable=384 flags=00 lebs=3 name=root\n\
    volumes 1\n";

/// What `check` prints for `root`.
pub const ROOT_CHECKED: &str = "blocks 5\nblank 0\nfree 0\ntable 2\nused 3\nstale 0\norphan 0\n\
    dropped 0\ncorrupt 0\ngarbage 0\ntop sqnum 0\nimage seq 305419896\n\
    mean counter 0\naccepted\n";

/// The plan of a change of a page of logical eraseblock 1 of `root`.
pub const CHANGED: &str = "steps 4\nprogram block=5 page=1\nprogram block=5 page=2\n\
    erase block=3\nprogram block=3 page=0\n";

/// The plan that renames a volume of an image with two spare eraseblocks.
pub const RENAMED: &str = "steps 18\n\
    program block=5 page=1\nprogram block=5 page=2\nprogram block=5 page=3\n\
    program block=5 page=4\nprogram block=5 page=5\nprogram block=5 page=6\n\
    program block=5 page=7\nerase block=0\n\
    program block=0 page=0\n\
    program block=6 page=1\nprogram block=6 page=2\nprogram block=6 page=3\n\
    program block=6 page=4\nprogram block=6 page=5\nprogram block=6 page=6\n\
    program block=6 page=7\nerase block=1\n\
    program block=1 page=0\n";

/// The plan that gives a volume of an image with three spare eraseblocks one page of contents.
pub const UPDATED: &str = "volume 1 replaces 0 lebs=1 name=root\n\
    steps 20\n\
    program block=5 page=1\nprogram block=5 page=2\n\
    program block=6 page=1\nprogram block=6 page=2\nprogram block=6 page=3\n\
    program block=6 page=4\nprogram block=6 page=5\nprogram block=6 page=6\n\
    program block=6 page=7\nerase block=0\n\
    program block=0 page=0\n\
    program block=7 page=1\nprogram block=7 page=2\nprogram block=7 page=3\n\
    program block=7 page=4\nprogram block=7 page=5\nprogram block=7 page=6\n\
    program block=7 page=7\nerase block=1\n\
    program block=1 page=0\n";

/// What `geometry`, `check` and `list` print for `root` as JSON.
pub const SMALL_OBJECT: &str =
    "{\"geometries\":[{\"data\":128,\"length\":2560,\"oob\":0,\"page\":64,\"peb\":512,\"start\":0,\"vid\":64},\
    {\"data\":128,\"length\":2560,\"oob\":0,\"page\":128,\"peb\":512,\"start\":0,\"vid\":64}],\"images\":[]}\n";

pub const ROOT_COUNTS: &str =
    "{\"accepted\":true,\"blocks\":5,\"image_seq\":305419896,\"mean_counter\":0,\
    \"states\":{\"blank\":0,\"corrupt\":0,\"dropped\":0,\"free\":0,\"garbage\":0,\"orphan\":0,\"stale\":0,\
    \"table\":2,\"used\":3},\"top_sqnum\":0}\n";

pub const ROOT_VOLUMES: &str =
    "{\"geometry\":{\"data\":128,\"leb\":384,\"page\":64,\"peb\":512,\"pebs\":32,\
    \"slots\":2,\"vid\":64},\"volumes\":[{\"alignment\":1,\"flags\":0,\"id\":0,\"kind\":\"dynamic\",\"lebs\":3,\
    \"name\":\"root\",\"reserved\":20,\"usable\":384}]}\n";

/// The config that `unpack` writes of `root` in an image of 32 small eraseblocks.
pub const ROOT_CONFIG: &[u8] =
    b"# ubi_tool build ubi.ini --out IMAGE --peb 512 --page 64 --vid 64 --data 128 --pebs 32 --seq 305419896\n\
    \n\
    [volume-0]\n\
    mode=ubi\n\
    vol_id=0\n\
    vol_type=dynamic\n\
    vol_name=\"root\"\n\
    vol_size=7680\n\
    vol_alignment=1\n\
    image=\"0-root\"\n";
