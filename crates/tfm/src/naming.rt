// Faces by name.
ghost use Rattle.std.specs.Prelude.{◌≡◌, map, IfSome, if◌then◌else◌, Some, None};
ghost use Rattle.std.specs.Option.{option_map};
ghost use Rattle.std.specs.Str.{bytes_eq};
ghost use Rattle.shelf.specs.Names.{found_in};
ghost use Rattle.shelf.specs.Spelling.{spelled};
ghost use Rattle.tfm.specs.Making.{free};
ghost use Rattle.tfm.specs.Outlines.{outline_of};
ghost use Rattle.tfm.specs.Unlike.{face_names};

use crate::faces::TfmFace;
use numbers::{Keyed, first_match};
use shelf::Name;

impl<'k> Keyed<&'k [u8]> for TfmFace {
    ghost has = { λ f k. bytes_eq (spelled f.name) k.now };

    fn has_key(&self, key: &'k [u8]) -> bool {
        self.name.as_slice() == key
    }
}

// The name that a new face is given; none where it has not 1 to 63 bytes, or a face bears it already.
pub(crate) fn new_name(faces: &[TfmFace], bytes: &[u8]) -> Option<Name>
    ensures is { option_map spelled result ≡ (if free (map outline_of faces.now) bytes.now then Some bytes.now else None) }
    ensures fresh { IfSome result (λ n. found_in (face_names faces.now) (spelled n) ≡ None) }
{
    let name = Name::new(bytes)?;
    first_match(faces, bytes).is_none().then_some(name)
}
