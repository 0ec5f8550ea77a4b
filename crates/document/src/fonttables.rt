// The fonts that the postamble of a document defines, for many searches by number.
ghost use Rattle.std.specs.Prelude.{◌≡◌, ℕ, take, IfSome};
ghost use Rattle.std.specs.List.Sorted.{IsNonDecreasingBy};
ghost use Rattle.document.specs.Fonts.{defined_in, font_by};
ghost use Rattle.document.specs.Tables.{first_among, number_at};
ghost use Rattle.std.proofs.Props.{props};

use crate::documents::Document;

// The definitions stand in no order, and a document can have some 800,000 of them and select a font millions of times.
// So their places are sorted by number, in a table of the caller's; without one, each search goes over the definitions.
#[derive(Clone, Copy)]
pub struct FontTable<'a> {
    bytes: &'a [u8],
    document: Document,
    places: Option<&'a [u32]>,
    ghost sorted: { IfSome places (λ ps. IsNonDecreasingBy (number_at (take document.end bytes.now)) ps.now) } by { Prim.hlevel props },
    ghost whole: { IfSome places (λ ps. (n : ℕ) → defined_in (take document.end bytes.now) (first_among (take document.end bytes.now) n ps.now) ≡ font_by bytes.now document n) } by { Prim.hlevel props },
}

mod filling;
mod finding;
