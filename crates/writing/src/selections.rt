// What stands behind the move to a mark: the selection of its font, or a rule.
ghost use Rattle.std.specs.Prelude.{◌≡◌, ◌+◌, ◌<◌, ◌≤◌, ◌∷◌, ◌++◌, length, IfOk, IfErr};
ghost use Rattle.shelf.specs.declared.refusals.Refusal.TheVariants.{PairsFull};
ghost use Rattle.numbers.specs.Bytes.{digits};
ghost use Rattle.copies.specs.Marks.{faces_of, selecting};
ghost use Rattle.copies.specs.Pairs.{pair_by, numbered, entered};
ghost use Rattle.copies.specs.Writing.{overwritten};
ghost use Rattle.pairs.specs.Tables.{pairs_of};
ghost use Rattle.writing.specs.Pens.{defining};

use crate::definitions::{definition, told};
use crate::outputs::write_over;
use copies::Pair;
use pairs::PairTable;
use shelf::{Refusal, Shelf};

// A pair that a mark selects, by its number, and how many bytes its definition takes; a new one is entered, and defined.
pub(crate) fn pass_definition<S: Shelf>(
    shelf: &S,
    table: &mut PairTable,
    pair: Pair,
) -> Result<(usize, usize), Refusal>
    ensures done { IfOk result (λ r. (r.0 ≡ numbered (pairs_of table.old) (pair_by (pairs_of table.old) pair.face pair.size))
        × (r.1 ≡ length (defining (faces_of (S.means shelf.now)) (pairs_of table.old) (pair_by (pairs_of table.old) pair.face pair.size) pair.face pair.size))
        × (pairs_of table.new ≡ entered (pairs_of table.old) (pair_by (pairs_of table.old) pair.face pair.size) pair)
        × (r.0 < 64) × (r.1 ≤ 79)) }
    ensures full { IfErr result (λ e. (e ≡ PairsFull) × (64 < length (entered (pairs_of table.old) (pair_by (pairs_of table.old) pair.face pair.size) pair)) × (pairs_of table.new ≡ pairs_of table.old)) }
{
    if let Some(number) = table.find(pair.face, pair.size) {
        return Ok((number, 0));
    }
    let number = table.len();
    table.enter(pair)?;
    let defined = definition(number, pair.size, told(shelf, pair.face));
    Ok((number, defined.as_slice().len()))
}

// The same with the definition written, which begins at the pair's place.
pub(crate) fn write_definition<S: Shelf>(
    shelf: &S,
    table: &mut PairTable,
    pair: Pair,
    out: &mut [u8],
) -> Result<(usize, usize), Refusal>
    requires { pair.place + length (defining (faces_of (S.means shelf.now)) (pairs_of table.old) (pair_by (pairs_of table.old) pair.face pair.size) pair.face pair.size) ≤ length out.old }
    ensures done { IfOk result (λ r. (r.0 ≡ numbered (pairs_of table.old) (pair_by (pairs_of table.old) pair.face pair.size))
        × (r.1 ≡ pair.place + length (defining (faces_of (S.means shelf.now)) (pairs_of table.old) (pair_by (pairs_of table.old) pair.face pair.size) pair.face pair.size))
        × (pairs_of table.new ≡ entered (pairs_of table.old) (pair_by (pairs_of table.old) pair.face pair.size) pair)
        × (out.new ≡ overwritten pair.place (defining (faces_of (S.means shelf.now)) (pairs_of table.old) (pair_by (pairs_of table.old) pair.face pair.size) pair.face pair.size) out.old)
        × (r.0 < 64)) }
    ensures full { IfErr result (λ e. (e ≡ PairsFull) × (64 < length (entered (pairs_of table.old) (pair_by (pairs_of table.old) pair.face pair.size) pair)) × (pairs_of table.new ≡ pairs_of table.old)) }
{
    let at = pair.place;
    if let Some(number) = table.find(pair.face, pair.size) {
        return Ok((number, at));
    }
    let number = table.len();
    table.enter(pair)?;
    let defined = definition(number, pair.size, told(shelf, pair.face));
    let bytes = defined.as_slice();
    write_over(out, at, bytes);
    Ok((number, at + bytes.len()))
}

// How many bytes the selection of a number takes, behind a mark of the number that was selected last.
pub(crate) fn selection_length(last: Option<usize>, number: usize) -> usize
    ensures value { result ≡ length (selecting last number) }
    ensures most { result ≤ 1 }
{
    usize::from(last != Some(number))
}

// Writes it, and answers the place behind.
pub(crate) fn write_selection(
    last: Option<usize>,
    number: usize,
    at: usize,
    out: &mut [u8],
) -> usize
    requires number { number < 64 }
    requires room { at + length (selecting last number) ≤ length out.old }
    ensures after { result ≡ at + length (selecting last number) }
    ensures written { out.new ≡ overwritten at (selecting last number) out.old }
{
    if last == Some(number) {
        return at;
    }
    write_over(out, at, &[171 + number as u8]);
    at + 1
}

// 137 and the sides of a rule, in 9 bytes.
pub(crate) fn write_rule(out: &mut [u8], at: usize, height: u32, width: u32)
    requires { at + 9 ≤ length out.old }
    ensures { out.new ≡ overwritten at (137 ∷ (digits 4 height ++ digits 4 width)) out.old }
{
    let [a, b, c, d] = height.to_be_bytes();
    let [e, f, g, h] = width.to_be_bytes();
    write_over(out, at, &[137, a, b, c, d, e, f, g, h]);
}
