// A shelf of faces that are made from TFM files.
ghost use Rattle.std.specs.Prelude.{◌≤◌, length};
ghost use Rattle.tfm.specs.Unlike.{Unlike};

use crate::faces::TfmFace;

// The bytes as they were given, and the faces in the order of the entries. A face holds places in the
// shelf's copy of the bytes: no struct can hold slices of its own vector.
#[derive(Drop)]
pub struct TfmShelf {
    pub(crate) bytes: Vec<u8>,
    pub(crate) faces: Vec<TfmFace>,
    ghost few: { length faces.items ≤ 32 },
    ghost unlike: { Unlike faces.items },
}
