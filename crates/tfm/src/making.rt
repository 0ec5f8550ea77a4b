// A TFM shelf made from bytes and entries, each checked in its turn.
ghost use Rattle.std.specs.Prelude.{◌≡◌, ◌+◌, ◌≤◌, map, length, IfSome, IfOk, if◌then◌else◌, Some, None, nat_le};
ghost use Rattle.std.specs.Option.{option_map};
ghost use Rattle.shelf.specs.Names.{found_in};
ghost use Rattle.shelf.specs.Spelling.{spelled};
ghost use Rattle.tfm.specs.Making.{slice, entered, Made};
ghost use Rattle.tfm.specs.Listing.{outline_in, Listed};
ghost use Rattle.tfm.specs.Outlines.{outline_of};
ghost use Rattle.tfm.specs.Unlike.{face_names};

use crate::entries::{Entry, NotMade};
use crate::faces::TfmFace;
use crate::files::TfmFile;
use crate::naming::new_name;
use crate::shelves::TfmShelf;
use shelf::Refusal;
use std::alloc::Global;

const MAX_ENTRIES: usize = 32;

const MAX_BYTES: usize = 1_048_576;

impl TfmShelf {
    // A shelf whose font k and face k is entry k; its bytes are copied.
    pub fn new(bytes: &[u8], entries: &[Entry], heap: Global) -> Result<TfmShelf, NotMade>
        ensures { Made bytes.now entries.now result }
    {
        if entries.len() > MAX_ENTRIES || bytes.len() > MAX_BYTES {
            return Err(NotMade::Refused(Refusal::ShelfFull));
        }
        let faces = faces_of(bytes, entries, heap)?;
        let bytes = Vec::from_slice(heap, bytes)?;
        Ok(TfmShelf { bytes, faces })
    }
}

// The faces that the entries give, one after the other.
fn faces_of(bytes: &[u8], entries: &[Entry], heap: Global) -> Result<Vec<TfmFace>, NotMade>
    requires few { length entries.now ≤ 32 }
    requires short { length bytes.now ≤ 1048576 }
    ensures { Listed bytes.now entries.now result }
{
    let mut faces = Vec::with_capacity(heap, entries.len())?;
    // `k` goes into a refusal, and each face is held against those before it, so nothing collects them.
    for (k, e) in entries.iter().enumerate() {
        let face = face_of(bytes, faces.as_slice(), k, e)?;
        faces.push_reserved(face);
    }
    Ok(faces)
}

// The face of entry k, after those seen.
fn face_of(bytes: &[u8], seen: &[TfmFace], k: usize, e: &Entry) -> Result<TfmFace, Refusal>
    requires { length bytes.now ≤ 1048576 }
    ensures is { outline_in result ≡ entered bytes.now (map outline_of seen.now) k e.now }
    ensures fresh { IfOk result (λ f. found_in (face_names seen.now) (spelled f.name) ≡ None) }
{
    let broken = Refusal::BrokenTfm { entry: k };
    let name = bytes_at(bytes, e.name_place, e.name_length).ok_or(broken)?;
    let file = bytes_at(bytes, e.file_place, e.file_length).ok_or(broken)?;
    let name = new_name(seen, name).ok_or(Refusal::TfmName { entry: k })?;
    let file = TfmFile::new(file).ok_or(broken)?;
    Ok(file.face(name, e.file_place))
}

// The n bytes from a place on; none where they reach outside.
fn bytes_at(bytes: &[u8], place: usize, n: usize) -> Option<&[u8]>
    ensures is { option_map (λ s. s.now) result ≡ (if nat_le (place + n) (length bytes.now) then Some (slice bytes.now place n) else None) }
    ensures inside { IfSome result (λ s. place + length s.now ≤ length bytes.now) }
{
    bytes.get(place..)?.get(..n)
}
