// The definitions of pairs.
ghost use Rattle.std.specs.Prelude.{◌≡◌, ◌<◌, ◌≤◌, length};
ghost use Rattle.shelf.specs.Telling.{facts_in};
ghost use Rattle.copies.specs.Marks.{define_bytes, faces_of};
ghost use Rattle.writing.specs.Pieces.{made};

use crate::pieces::Piece;
use shelf::{Face, Shelf};

// What is told of a face; of one that the shelf lacks, no name and zeros.
pub(crate) fn told<S: Shelf>(shelf: &S, face: u16) -> Face<'_>
    ensures facts { facts_in result ≡ faces_of (S.means shelf.now) face }
    ensures short { length result.name.now < 64 }
{
    shelf.face(face).unwrap_or(Face {
        name: &[],
        checksum: 0,
        design: 0,
    })
}

// 243: the number, the face and the size of a pair.
#[tactic(auto, unfolding(copies::specs::Marks::define_bytes))]
pub(crate) fn definition(number: usize, size: u32, face: Face<'_>) -> Piece
    requires number { number < 64 }
    requires name { length face.name.now < 64 }
    ensures made { made result ≡ define_bytes number size (facts_in face.entry) }
    ensures length { length (made result) ≤ 79 }
{
    Piece::new()
        .byte(243)
        .number(1, number as u32)
        .number(4, face.checksum)
        .number(4, size)
        .number(4, face.design / 16)
        .byte(0)
        .number(1, face.name.len() as u32)
        .all(face.name)
}
