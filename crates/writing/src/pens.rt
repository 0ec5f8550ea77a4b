// The pen of a page: where its writer stands, and how a mark moves it.
ghost use Rattle.std.specs.Prelude.{◌≡◌, ◌+◌, ◌^◌, ◌<◌, ◌≤◌, ◌++◌, length, pos, ◌-ℤ◌, unsigned_abs, IfOk, IfErr, OnOk};
ghost use Rattle.shelf.specs.declared.refusals.Refusal.TheVariants.{PairsFull};
ghost use Rattle.copies.specs.Marks.{faces_of, mark_h, mark_v, move_bytes, mark_bytes, pen_after};
ghost use Rattle.copies.specs.Writing.{overwritten};
ghost use Rattle.pairs.specs.Tables.{pairs_of};
ghost use Rattle.writing.specs.Pens.{pen_of};

use crate::moves::{move_length, write_move};
use crate::outputs::write_over;
use crate::selections::{
    pass_definition, selection_length, write_definition, write_rule, write_selection,
};
use crate::standings::Standing;
use copies::Pair;
use pairs::PairTable;
use shelf::{Mark, Refusal, Shelf};

// A page's marks stand behind its 139, ten counts and a pointer of four bytes each.
const PAGE_FRONT: usize = 45;

const RIGHT: u8 = 142;

const DOWN: u8 = 156;

// The position, the number that is selected on the page, and the place of the next byte.
#[derive(Clone, Copy)]
pub(crate) struct Pen {
    pub(crate) h: i32,
    pub(crate) v: i32,
    pub(crate) last: Option<usize>,
    pub(crate) at: usize,
}

impl Pen {
    // The pen of a page that is put behind the bytes used.
    pub(crate) fn of_page(standing: Standing) -> Pen
        ensures pen { result ≡ record { h = pos 0; v = pos 0; last = None; at = standing.used + 45 } }
        ensures near { result.at < 2 ^ 33 }
    {
        Pen {
            h: 0,
            v: 0,
            last: None,
            at: standing.used as usize + PAGE_FRONT,
        }
    }

    // The pen behind a mark that is not written; a new pair is entered with the place of its definition.
    #[tactic(auto, unfolding(copies::specs::Marks::mark_bytes, copies::specs::Marks::pen_after))]
    pub(crate) fn pass<S: Shelf>(
        self,
        shelf: &S,
        table: &mut PairTable,
        mark: Mark,
    ) -> Result<Pen, Refusal>
        requires { self.at + 92 < 2 ^ 64 }
        ensures done { IfOk result (λ p. pen_of p (pairs_of table.new) ≡ pen_after (faces_of (S.means shelf.now)) (pen_of self (pairs_of table.old)) mark) }
        ensures full { IfErr result (λ e. (e ≡ PairsFull) × (64 < length (pen_after (faces_of (S.means shelf.now)) (pen_of self (pairs_of table.old)) mark).pairs) × (pairs_of table.new ≡ pairs_of table.old)) }
    {
        let (h, v) = position(mark);
        let at = self.at + self.moves_length(mark);
        match mark {
            Mark::Glyph {
                face,
                size,
                code: _,
                h: _,
                v: _,
            } => {
                let pair = Pair {
                    face,
                    size,
                    place: at,
                };
                let (number, defined) = pass_definition(shelf, table, pair)?;
                Ok(Pen {
                    h,
                    v,
                    last: Some(number),
                    at: at + defined + selection_length(self.last, number) + 2,
                })
            }
            Mark::Rule {
                height: _,
                width: _,
                h: _,
                v: _,
            } => Ok(Pen {
                h,
                v,
                last: self.last,
                at: at + 9,
            }),
        }
    }

    // The same with the bytes of the mark written.
    #[tactic(auto, unfolding(copies::specs::Marks::mark_bytes, copies::specs::Marks::pen_after))]
    pub(crate) fn write<S: Shelf>(
        self,
        shelf: &S,
        table: &mut PairTable,
        mark: Mark,
        out: &mut [u8],
    ) -> Result<Pen, Refusal>
        requires far { self.at + 92 < 2 ^ 64 }
        requires room { self.at + length (mark_bytes (faces_of (S.means shelf.now)) (pen_of self (pairs_of table.old)) mark) ≤ length out.old }
        ensures done { IfOk result (λ p. pen_of p (pairs_of table.new) ≡ pen_after (faces_of (S.means shelf.now)) (pen_of self (pairs_of table.old)) mark) }
        ensures full { IfErr result (λ e. (e ≡ PairsFull) × (64 < length (pen_after (faces_of (S.means shelf.now)) (pen_of self (pairs_of table.old)) mark).pairs) × (pairs_of table.new ≡ pairs_of table.old)) }
        ensures written { OnOk result (out.new ≡ overwritten self.at (mark_bytes (faces_of (S.means shelf.now)) (pen_of self (pairs_of table.old)) mark) out.old) }
    {
        let (h, v) = position(mark);
        let at = self.write_moves(mark, out);
        match mark {
            Mark::Glyph {
                face,
                size,
                code,
                h: _,
                v: _,
            } => {
                let place = at;
                let pair = Pair { face, size, place };
                let (number, at) = write_definition(shelf, table, pair, out)?;
                let at = write_selection(self.last, number, at, out);
                write_over(out, at, &[133, code]);
                Ok(Pen {
                    h,
                    v,
                    last: Some(number),
                    at: at + 2,
                })
            }
            Mark::Rule {
                height,
                width,
                h: _,
                v: _,
            } => {
                write_rule(out, at, height, width);
                Ok(Pen {
                    h,
                    v,
                    at: at + 9,
                    ..self
                })
            }
        }
    }

    // How many bytes the move to a mark takes.
    fn moves_length(self, mark: Mark) -> usize
        ensures value { result ≡ length (move_bytes 142 (mark_h mark -ℤ self.h) ++ move_bytes 156 (mark_v mark -ℤ self.v)) }
        ensures most { result ≤ 10 }
    {
        move_length(RIGHT, self.across(mark)) + move_length(DOWN, self.down(mark))
    }

    // Writes the move to a mark, and answers the place behind.
    fn write_moves(self, mark: Mark, out: &mut [u8]) -> usize
        requires { self.at + length (move_bytes 142 (mark_h mark -ℤ self.h) ++ move_bytes 156 (mark_v mark -ℤ self.v)) ≤ length out.old }
        ensures after { result ≡ self.at + length (move_bytes 142 (mark_h mark -ℤ self.h) ++ move_bytes 156 (mark_v mark -ℤ self.v)) }
        ensures written { out.new ≡ overwritten self.at (move_bytes 142 (mark_h mark -ℤ self.h) ++ move_bytes 156 (mark_v mark -ℤ self.v)) out.old }
    {
        let at = write_move(out, self.at, RIGHT, self.across(mark));
        write_move(out, at, DOWN, self.down(mark))
    }

    // How far a mark lies to the right.
    fn across(self, mark: Mark) -> i64
        ensures value { result ≡ mark_h mark -ℤ self.h }
        ensures bound { unsigned_abs result < 2 ^ 32 }
    {
        distance(self.h, position(mark).0)
    }

    // How far it lies further down.
    fn down(self, mark: Mark) -> i64
        ensures value { result ≡ mark_v mark -ℤ self.v }
        ensures bound { unsigned_abs result < 2 ^ 32 }
    {
        distance(self.v, position(mark).1)
    }
}

fn position(mark: Mark) -> (i32, i32)
    ensures h { result.0 ≡ mark_h mark }
    ensures v { result.1 ≡ mark_v mark }
{
    match mark {
        Mark::Glyph {
            face: _,
            size: _,
            code: _,
            h,
            v,
        } => (h, v),
        Mark::Rule {
            height: _,
            width: _,
            h,
            v,
        } => (h, v),
    }
}

// How far it is from one position to another: up to 2^32 - 1, since marks may be any.
fn distance(from: i32, to: i32) -> i64
    ensures value { result ≡ to -ℤ from }
    ensures bound { unsigned_abs result < 2 ^ 32 }
{
    i64::from(to) - i64::from(from)
}
