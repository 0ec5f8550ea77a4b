// A pen that goes over marks, and writes them or not.
ghost use Rattle.std.specs.Prelude.{◌≡◌, ◌^◌, ◌<◌, ◌≤◌, length, take, IfOk, IfErr, OnOk, OnErr};
ghost use Rattle.shelf.specs.declared.refusals.Refusal.TheVariants.{PairsFull};
ghost use Rattle.copies.specs.Marks.{faces_of, marks_bytes, pen_after_all};
ghost use Rattle.copies.specs.Writing.{overwritten};
ghost use Rattle.pairs.specs.Tables.{pairs_of};
ghost use Rattle.writing.specs.Pens.{pen_of};

use crate::pens::Pen;
use pairs::PairTable;
use shelf::{Mark, Refusal, Shelf};

// Where a pen stands behind marks that are not written; their new pairs are entered. Refused at the 65th pair.
pub(crate) fn pass_over<S: Shelf>(
    mut pen: Pen,
    shelf: &S,
    table: &mut PairTable,
    marks: &[Mark],
) -> Result<Pen, Refusal>
    requires { pen.at < 2 ^ 33 }
    ensures done { IfOk result (λ p. pen_of p (pairs_of table.new) ≡ pen_after_all (faces_of (S.means shelf.now)) (pen_of pen (pairs_of table.old)) marks.now) }
    ensures full { IfErr result (λ e. (e ≡ PairsFull) × (64 < length (pen_after_all (faces_of (S.means shelf.now)) (pen_of pen (pairs_of table.old)) marks.now).pairs)) }
    ensures few { OnOk result (length (pen_after_all (faces_of (S.means shelf.now)) (pen_of pen (pairs_of table.old)) marks.now).pairs ≤ 64) }
    ensures near { IfOk result (λ p. p.at < 2 ^ 63) }
    ensures kept { take (length (pairs_of table.old)) (pairs_of table.new) ≡ pairs_of table.old }
{
    for mark in marks {
        pen = pen.pass(shelf, table, *mark)?;
    }
    Ok(pen)
}

// The same with the bytes of each mark written; the output holds them all.
pub(crate) fn write_marks<S: Shelf>(
    mut pen: Pen,
    shelf: &S,
    table: &mut PairTable,
    marks: &[Mark],
    out: &mut [u8],
) -> Result<Pen, Refusal>
    requires near { pen.at < 2 ^ 33 }
    requires room { (pen_after_all (faces_of (S.means shelf.now)) (pen_of pen (pairs_of table.old)) marks.now).at ≤ length out.old }
    ensures done { IfOk result (λ p. pen_of p (pairs_of table.new) ≡ pen_after_all (faces_of (S.means shelf.now)) (pen_of pen (pairs_of table.old)) marks.now) }
    ensures full { OnErr result (64 < length (pen_after_all (faces_of (S.means shelf.now)) (pen_of pen (pairs_of table.old)) marks.now).pairs) }
    ensures written { OnOk result (out.new ≡ overwritten pen.at (marks_bytes (faces_of (S.means shelf.now)) (pen_of pen (pairs_of table.old)) marks.now) out.old) }
{
    for mark in marks {
        pen = pen.write(shelf, table, *mark, out)?;
    }
    Ok(pen)
}
