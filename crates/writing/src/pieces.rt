// The bytes of a mark, or of another short part of a file, before they are written.
ghost use Rattle.std.specs.Prelude.{◌≡◌, ◌+◌, ◌^◌, ◌<◌, ◌≤◌, [], ◌∷◌, ◌++◌, length, true};
ghost use Rattle.numbers.specs.Bytes.{is_width, digits};
ghost use Rattle.writing.specs.Pieces.{made};

use arrayvec::ArrayVec;
use numbers::write_unsigned;

// The longest is a glyph's: two moves of 5 bytes, a definition of 16 with a name of 63, a selection, and 2 bytes more.
const MAX_PIECE: usize = 92;

// A piece is made alike to learn how long it is and to write it, so that the two cannot differ.
#[derive(Drop)]
pub(crate) struct Piece {
    bytes: ArrayVec<u8, MAX_PIECE>,
}

impl Piece {
    pub(crate) fn new() -> Piece
        ensures { made result ≡ [] }
    {
        Piece {
            bytes: ArrayVec::new(),
        }
    }

    pub(crate) fn byte(mut self, b: u8) -> Piece
        requires { length (made self) < 92 }
        ensures made { made result ≡ made self ++ b ∷ [] }
        ensures length { length (made result) ≡ length (made self) + 1 }
    {
        self.bytes.push(b);
        self
    }

    pub(crate) fn number(self, width: usize, n: u32) -> Piece
        requires width { is_width width ≡ true }
        requires fits { n < 256 ^ width }
        requires room { length (made self) + width ≤ 92 }
        ensures made { made result ≡ made self ++ digits width n }
        ensures length { length (made result) ≡ length (made self) + width }
    {
        let mut four = [0; 4];
        let _ = write_unsigned(&mut four, 0, width, n);
        self.all(&four[..width])
    }

    pub(crate) fn all(mut self, bytes: &[u8]) -> Piece
        requires { length (made self) + length bytes.now ≤ 92 }
        ensures made { made result ≡ made self ++ bytes.now }
        ensures length { length (made result) ≡ length (made self) + length bytes.now }
    {
        let _ = self.bytes.try_extend_from_slice(bytes);
        self
    }

    pub(crate) fn as_slice(&self) -> &[u8]
        ensures value { result.now ≡ made self.now }
        ensures few { length result.now ≤ 92 }
    {
        self.bytes.as_slice()
    }
}
