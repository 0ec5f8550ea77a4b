// The closing of a copy: the postamble, the definitions of all pairs, and the ending.
ghost use Rattle.std.specs.Prelude.{◌≡◌, ℕ, ◌+◌, ◌-◌, ◌%◌, ◌^◌, ◌<◌, ◌≤◌, List, length, min};
ghost use Rattle.copies.specs.declared.pairs.Pair.{Pair as Entry};
ghost use Rattle.copies.specs.Files.{Opening as Opened, post_bytes, end_bytes, padding, closed_length};
ghost use Rattle.copies.specs.Marks.{faces_of};
ghost use Rattle.pairs.specs.Tables.{pairs_of};
ghost use Rattle.writing.specs.Closing.{closed_over};
ghost use Rattle.writing.specs.Pieces.{made};
ghost use Rattle.writing.specs.Standings.{opening_of, progress_of, room};

use crate::fonts::{fonts_length, write_fonts};
use crate::outputs::write_over;
use crate::pieces::Piece;
use crate::standings::{Opening, Standing};
use pairs::PairTable;
use shelf::{Refusal, Shelf};

// A length counts 1/65,536 point: 25,400,000 / 473,628,672 of 10^-7 metres.
pub(crate) const NUM: u32 = 25_400_000;

pub(crate) const DEN: u32 = 473_628_672;

// A copy uses no more bytes of its output.
const MAX_USED: usize = 16_777_216;

const POSTAMBLE: usize = 29;

// How many bytes of the output may be used.
pub(crate) fn room(out: &[u8]) -> usize
    ensures { result ≡ room out.now }
{
    out.len().min(MAX_USED)
}

// 248 and what it says.
#[tactic(auto, unfolding(copies::specs::Files::post_bytes))]
fn postamble(opening: Opening, standing: Standing) -> Piece
    ensures made { (ps : List Entry) → made result ≡ post_bytes (opening_of opening) (progress_of standing ps) }
    ensures length { length (made result) ≡ 29 }
{
    Piece::new()
        .byte(248)
        .number(4, standing.last)
        .number(4, NUM)
        .number(4, DEN)
        .number(4, opening.mag)
        .number(4, opening.l)
        .number(4, opening.u)
        .number(2, 0)
        .number(2, u32::from(standing.pages))
}

// How many bytes 223 stand behind n bytes.
fn filled(n: usize) -> usize
    requires { n + 3 < 2 ^ 64 }
    ensures value { result ≡ padding n }
    ensures most { result ≤ 7 }
{
    7 - (n + 3) % 4
}

// 249, the place of the 248, 2, and bytes 223 behind n bytes.
#[tactic(auto, unfolding(copies::specs::Files::end_bytes))]
fn ending(post: u32, n: usize) -> Piece
    requires { n + 9 < 2 ^ 64 }
    ensures { made result ≡ end_bytes post n }
{
    let fill = [223; 7];
    Piece::new()
        .byte(249)
        .number(4, post)
        .byte(2)
        .all(&fill[..filled(n + 6)])
}

// The length of a copy that is closed when so many bytes are used; it is the same for each opening and each count of pages.
pub(crate) fn closed_at<S: Shelf>(shelf: &S, table: &PairTable, used: usize) -> usize
    requires { used ≤ 2 ^ 63 }
    ensures value { (o : Opened) (last count : ℕ) → result ≡ closed_length (faces_of (S.means shelf.now)) o (record { used = used; last = last; count = count; pairs = pairs_of table.now }) }
    ensures more { used + 35 ≤ result }
{
    let end = used + POSTAMBLE + fonts_length(shelf, table.as_slice());
    end + 6 + filled(end + 6)
}

// The length that the copy is closed to.
pub fn closed_length<S: Shelf>(shelf: &S, table: &PairTable, standing: Standing) -> usize
    ensures { (o : Opened) → result ≡ closed_length (faces_of (S.means shelf.now)) o (progress_of standing (pairs_of table.now)) }
{
    closed_at(shelf, table, standing.used as usize)
}

// Puts the closing behind the bytes used, and answers the length of the closed copy; refused, and no byte is written, where
// it has no room.
#[tactic(auto, unfolding(copies::specs::Files::closing_bytes))]
pub fn append_closing<S: Shelf>(
    shelf: &S,
    table: &PairTable,
    opening: Opening,
    standing: Standing,
    out: &mut [u8],
) -> Result<usize, Refusal>
    ensures { (result, out.new) ≡ closed_over (faces_of (S.means shelf.now)) (opening_of opening) (progress_of standing (pairs_of table.now)) out.old }
{
    let used = standing.used as usize;
    let length = closed_length(shelf, table, standing);
    if length > room(out) {
        return Err(Refusal::OutputFull);
    }
    let post = postamble(opening, standing);
    write_over(out, used, post.as_slice());
    let end = write_fonts(shelf, table.as_slice(), used + POSTAMBLE, out);
    let last = ending(standing.used, end);
    write_over(out, end, last.as_slice());
    Ok(length)
}
