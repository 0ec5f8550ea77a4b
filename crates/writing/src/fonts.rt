// The definitions of a copy's pairs, by number.
ghost use Rattle.std.specs.Prelude.{◌≡◌, ◌+◌, ◌*◌, ◌<◌, ◌≤◌, length};
ghost use Rattle.copies.specs.Files.{fonts_bytes};
ghost use Rattle.copies.specs.Marks.{define_bytes, faces_of};
ghost use Rattle.copies.specs.Writing.{overwritten};
ghost use Rattle.writing.specs.Pieces.{made};

use crate::definitions::{definition, told};
use crate::outputs::write_over;
use crate::pieces::Piece;
use copies::Pair;
use shelf::Shelf;

// The definition of a pair by its number.
fn defined<S: Shelf>(shelf: &S, n: usize, pair: Pair) -> Piece
    requires { n < 64 }
    ensures made { made result ≡ define_bytes n pair.size (faces_of (S.means shelf.now) pair.face) }
    ensures short { length (made result) ≤ 79 }
{
    definition(n, pair.size, told(shelf, pair.face))
}

// How many bytes they take.
pub(crate) fn fonts_length<S: Shelf>(shelf: &S, pairs: &[Pair]) -> usize
    requires { length pairs.now ≤ 64 }
    ensures value { result ≡ length (fonts_bytes (faces_of (S.means shelf.now)) 0 pairs.now) }
    ensures bound { result ≤ 79 * 64 }
{
    let mut sum = 0;
    for (n, pair) in pairs.iter().enumerate() {
        let piece = defined(shelf, n, *pair);
        sum += piece.as_slice().len();
    }
    sum
}

// Writes them, and answers the place behind them; the output holds them all.
pub(crate) fn write_fonts<S: Shelf>(
    shelf: &S,
    pairs: &[Pair],
    mut at: usize,
    out: &mut [u8],
) -> usize
    requires few { length pairs.now ≤ 64 }
    requires room { at + length (fonts_bytes (faces_of (S.means shelf.now)) 0 pairs.now) ≤ length out.old }
    ensures after { result ≡ at + length (fonts_bytes (faces_of (S.means shelf.now)) 0 pairs.now) }
    ensures written { out.new ≡ overwritten at (fonts_bytes (faces_of (S.means shelf.now)) 0 pairs.now) out.old }
{
    for (n, pair) in pairs.iter().enumerate() {
        let piece = defined(shelf, n, *pair);
        let bytes = piece.as_slice();
        write_over(out, at, bytes);
        at += bytes.len();
    }
    at
}
