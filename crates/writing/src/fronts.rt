// The front of a copy.
ghost use Rattle.std.specs.Prelude.{◌≡◌, ℕ};
ghost use Rattle.shelf.specs.Meaning.{Facts};
ghost use Rattle.copies.specs.Files.{front_bytes};
ghost use Rattle.writing.specs.Beginning.{begun_over};
ghost use Rattle.writing.specs.Pieces.{made};
ghost use Rattle.writing.specs.Standings.{opening_of};

use crate::closings::{DEN, NUM, room};
use crate::outputs::write_over;
use crate::pieces::Piece;
use crate::standings::{Opening, Standing};
use shelf::Refusal;

// A copy without pages is closed to so many bytes.
const LEAST: usize = 56;

// 247 2, num, den, mag and a comment of no bytes.
#[tactic(auto, unfolding(copies::specs::Files::front_bytes))]
fn front(mag: u32) -> Piece
    ensures { made result ≡ front_bytes mag }
{
    Piece::new()
        .byte(247)
        .byte(2)
        .number(4, NUM)
        .number(4, DEN)
        .number(4, mag)
        .byte(0)
}

// Puts the front at the beginning of the output; refused, and no byte is written, where the copy closed without pages has no
// room there.
#[tactic(auto, unfolding(copies::specs::Files::front_bytes, copies::specs::Files::closing_bytes, copies::specs::Files::post_bytes, copies::specs::Files::fonts_bytes, copies::specs::Files::end_bytes))]
pub fn write_front(opening: Opening, out: &mut [u8]) -> Result<Standing, Refusal>
    ensures { (F : ℕ → Facts) → (result, out.new) ≡ begun_over F (opening_of opening) out.old }
{
    if room(out) < LEAST {
        return Err(Refusal::OutputFull);
    }
    let front = front(opening.mag);
    write_over(out, 0, front.as_slice());
    Ok(Standing {
        used: 15,
        last: u32::MAX,
        pages: 0,
    })
}
