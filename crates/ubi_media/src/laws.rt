//! Laws of the definitions that the contracts cite, each as the contract of a function that does nothing.

ghost use Rattle.std.specs.Prelude.{◌≡◌, ℕ, ◌+◌, ◌++◌, ◌^◌, ◌<◌, ◌↔◌, List, None, Option};
ghost use Rattle.std.specs.Option.{ForSome};
ghost use Rattle.ubi_media.specs.Check.{check_from, remainder};
ghost use Rattle.ubi_media.specs.Ec as ec;
ghost use Rattle.ubi_media.specs.Ec.{EcIs, ec_bytes, ec_reading, ec_start, offsets_in};
ghost use Rattle.ubi_media.specs.First.{IsFirst};
ghost use Rattle.ubi_media.specs.Geometry.{IsGeometry, Sizes};
ghost use Rattle.ubi_media.specs.Limits.{first_broken};
ghost use Rattle.ubi_media.specs.Record as rec;
ghost use Rattle.ubi_media.specs.Record.{RecIs, rec_bytes, rec_reading};
ghost use Rattle.ubi_media.specs.Remainder.{IsRemainder};
ghost use Rattle.ubi_media.specs.Vid as vid;
ghost use Rattle.ubi_media.specs.Vid.{VidIs, vid_bytes, vid_reading};
ghost use Rattle.ubi_media.specs.Widths.{EcFits, RecFits, VidFits};
ghost use Rattle.ubi_media.specs.declared.ec.EcFields.{EcFields};
ghost use Rattle.ubi_media.specs.declared.ec.EcHeader.{EcHeader};
ghost use Rattle.ubi_media.specs.declared.ec.EcRead.{EcRead};
ghost use Rattle.ubi_media.specs.declared.ec.EcRead.TheVariants as EcRead;
ghost use Rattle.ubi_media.specs.declared.ec.EcStart.TheVariants as EcStart;
ghost use Rattle.ubi_media.specs.declared.record.RecFields.{RecFields};
ghost use Rattle.ubi_media.specs.declared.record.RecRead.{RecRead};
ghost use Rattle.ubi_media.specs.declared.record.VolumeRecord.{VolumeRecord};
ghost use Rattle.ubi_media.specs.declared.vid.VidFields.{VidFields};
ghost use Rattle.ubi_media.specs.declared.vid.VidHeader.{VidHeader};
ghost use Rattle.ubi_media.specs.declared.vid.VidRead.{VidRead};

/// Numbers are those of a geometry exactly if they break no limit.
pub fn limits_of_geometry()
    ensures { (s : Sizes) → (first_broken s ≡ None) ↔ IsGeometry s }
{}

/// The division by the generator leaves a remainder, and only one.
pub fn one_remainder()
    ensures { (k p r : ℕ) → p < 2 ^ (32 + k) → IsRemainder p r ↔ (r ≡ remainder k p) }
{}

/// The CRC of a message that goes on is that of the whole.
pub fn check_goes_on()
    ensures { (state : ℕ) (xs ys : List ℕ) → state < 2 ^ 32 → check_from (check_from state xs) ys ≡ check_from state (xs ++ ys) }
{}

/// The fault of an erase-counter header is the first whose rule is broken.
pub fn first_ec_fault()
    ensures { (s : Sizes) (f : EcFields) → IsFirst (ec.breaks s f) ec.faults (ec.first_fault s f) }
{}

/// The fault of a volume-identifier header is the first whose rule is broken.
pub fn first_vid_fault()
    ensures { (s : Sizes) (f : VidFields) → IsFirst (vid.breaks s f) vid.faults (vid.first_fault s f) }
{}

/// The fault of a record is the first whose rule is broken.
pub fn first_rec_fault()
    ensures { (s : Sizes) (f : RecFields) → IsFirst (rec.breaks s f) rec.faults (rec.first_fault s f) }
{}

/// Bytes have one reading as an erase-counter header, and no other.
pub fn one_ec_reading()
    ensures { (s : Sizes) (bytes : List ℕ) (read : EcRead) → EcIs s bytes read ↔ (read ≡ ec_reading s bytes) }
{}

/// A header that is Valid for some geometry starts with a header that names the offsets of this geometry. What is blank is
/// also blank if no geometry is known.
pub fn start_of_any_geometry()
    ensures named { (s : Sizes) (bytes : List ℕ) (h : EcHeader) → ec_reading s bytes ≡ EcRead.Valid h → ec_start bytes ≡ EcStart.Header (offsets_in s) }
    ensures blank { (s : Sizes) (bytes : List ℕ) → ec_reading s bytes ≡ EcRead.Blank → ec_start bytes ≡ EcStart.Blank }
{}

/// Bytes have one reading as a volume-identifier header, and no other.
pub fn one_vid_reading()
    ensures { (s : Sizes) (bytes : List ℕ) (read : VidRead) → VidIs s bytes read ↔ (read ≡ vid_reading s bytes) }
{}

/// Bytes have one reading as a record of the volume table, and no other.
pub fn one_rec_reading()
    ensures { (s : Sizes) (bytes : List ℕ) (read : RecRead) → RecIs s bytes read ↔ (read ≡ rec_reading s bytes) }
{}

/// Two erase-counter headers with the same bytes are the same.
pub fn one_ec_header()
    ensures { (s : Sizes) (h k : EcHeader) → EcFits h → EcFits k → ec_bytes s h ≡ ec_bytes s k → h ≡ k }
{}

/// Two volume-identifier headers with the same bytes are the same.
pub fn one_vid_header()
    ensures { (h k : VidHeader) → VidFits h → VidFits k → vid_bytes h ≡ vid_bytes k → h ≡ k }
{}

/// Two slots of the volume table with the same bytes are both empty, or have the same record.
pub fn one_slot()
    ensures { (s : Sizes) (h k : Option VolumeRecord) → ForSome h RecFits → ForSome k RecFits → rec_bytes s h ≡ rec_bytes s k → h ≡ k }
{}
