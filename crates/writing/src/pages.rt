// A page of a copy: measured first, and then written.
ghost use Rattle.std.specs.Prelude.{◌≡◌, ◌+◌, ◌^◌, ◌<◌, ◌≤◌, ◌∷◌, ◌++◌, length, take, IfOk, OnOk, OnErr};
ghost use Rattle.numbers.specs.Bytes.{digits};
ghost use Rattle.copies.specs.Files.{Opening as Opened};
ghost use Rattle.copies.specs.Marks.{faces_of};
ghost use Rattle.copies.specs.Pages.{page_bytes, with_page};
ghost use Rattle.copies.specs.Writing.{overwritten};
ghost use Rattle.pairs.specs.Tables.{pairs_of};
ghost use Rattle.writing.specs.Adding.{page_over};
ghost use Rattle.writing.specs.Measuring.{pen_behind, page_measured};
ghost use Rattle.writing.specs.Pieces.{made};
ghost use Rattle.writing.specs.Standings.{progress_of};

use crate::closings::{closed_at, room};
use crate::outputs::write_over;
use crate::passing::{pass_over, write_marks};
use crate::pens::Pen;
use crate::pieces::Piece;
use crate::standings::Standing;
use pairs::{PairGuard, PairTable};
use shelf::{Mark, Refusal, Shelf};

// 140 ends a page.
const EOP: u8 = 140;

// How many bytes are used behind a page of these marks; their new pairs are entered. Refused at the 65th pair.
pub fn measure_page<S: Shelf>(
    shelf: &S,
    table: &mut PairTable,
    standing: Standing,
    marks: &[Mark],
) -> Result<usize, Refusal>
    ensures measured { result ≡ page_measured (faces_of (S.means shelf.now)) (progress_of standing (pairs_of table.old)) marks.now }
    ensures pairs { OnOk result (pairs_of table.new ≡ (pen_behind (faces_of (S.means shelf.now)) (progress_of standing (pairs_of table.old)) marks.now).pairs) }
    ensures kept { take (length (pairs_of table.old)) (pairs_of table.new) ≡ pairs_of table.old }
    ensures near { IfOk result (λ n. n ≤ 2 ^ 63) }
{
    let pen = pass_over(Pen::of_page(standing), shelf, table, marks)?;
    Ok(pen.at + 1)
}

// 139, the counts, the place of the page before.
fn page_front(counts: &[u8; 40], last: u32) -> Piece
    ensures made { made result ≡ 139 ∷ (counts.now ++ digits 4 last) }
    ensures length { length (made result) ≡ 45 }
{
    Piece::new().byte(139).all(counts).number(4, last)
}

// Writes a page behind the bytes used, and enters its new pairs; the output holds it.
fn write_page<S: Shelf>(
    shelf: &S,
    table: &mut PairTable,
    standing: Standing,
    counts: &[u8; 40],
    marks: &[Mark],
    out: &mut [u8],
) -> Result<(), Refusal>
    requires { (pen_behind (faces_of (S.means shelf.now)) (progress_of standing (pairs_of table.old)) marks.now).at + 1 ≤ length out.old }
    ensures pairs { OnOk result (pairs_of table.new ≡ (pen_behind (faces_of (S.means shelf.now)) (progress_of standing (pairs_of table.old)) marks.now).pairs) }
    ensures written { OnOk result (out.new ≡ overwritten standing.used (page_bytes (faces_of (S.means shelf.now)) (progress_of standing (pairs_of table.old)) (record { counts = counts.now; marks = marks.now })) out.old) }
    ensures full { OnErr result (64 < length (pen_behind (faces_of (S.means shelf.now)) (progress_of standing (pairs_of table.old)) marks.now).pairs) }
{
    let front = page_front(counts, standing.last);
    write_over(out, standing.used as usize, front.as_slice());
    let pen = write_marks(Pen::of_page(standing), shelf, table, marks, out)?;
    write_over(out, pen.at, &[EOP]);
    Ok(())
}

// Adds a page behind the others, and answers how far the copy has come then. Refused where it has a 65th pair, would be the
// 65,536th page or leaves no room for the closing; then the pairs and the output are as they were.
#[tactic(auto, unfolding(copies::specs::Pages::with_page))]
pub fn append_page<S: Shelf>(
    shelf: &S,
    table: &mut PairTable,
    standing: Standing,
    counts: &[u8; 40],
    marks: &[Mark],
    out: &mut [u8],
) -> Result<Standing, Refusal>
    ensures added { (o : Opened) → (result, out.new) ≡ page_over (faces_of (S.means shelf.now)) o (progress_of standing (pairs_of table.old)) (record { counts = counts.now; marks = marks.now }) out.old }
    ensures pairs { OnOk result (pairs_of table.new ≡ (with_page (faces_of (S.means shelf.now)) (progress_of standing (pairs_of table.old)) (record { counts = counts.now; marks = marks.now })).pairs) }
    ensures same { OnErr result (pairs_of table.new ≡ pairs_of table.old) }
{
    let mut guard = PairGuard::new(table);
    let used = measure_page(shelf, guard.table, standing, marks)?;
    if standing.pages == u16::MAX || closed_at(shelf, guard.table, used) > room(out) {
        return Err(Refusal::OutputFull);
    }
    // The pairs are entered again as they are written.
    guard.put_back();
    write_page(shelf, guard.table, standing, counts, marks, out)?;
    guard.keep();
    Ok(Standing {
        used: used as u32,
        last: standing.used,
        pages: standing.pages + 1,
    })
}
