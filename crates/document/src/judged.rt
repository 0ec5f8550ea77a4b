// A document that passed all checks, for many calls on it.
ghost use Rattle.std.specs.Prelude.{◌≡◌, Ok, IfSome};
ghost use Rattle.std.proofs.Props.{props};
ghost use Rattle.document.specs.Legal.{legal};
ghost use Rattle.document.specs.Places.{Placed};

use crate::documents::Document;

// Made by the checks alone, so that by its type nobody has to make them again, nor to trust that they were made. The places
// of its pages may stand in a table of the caller's; without one, each search for a page follows the chain of pages.
#[derive(Clone, Copy)]
pub struct Judged<'a> {
    bytes: &'a [u8],
    stated: Document,
    places: Option<&'a [u32]>,
    ghost sound: { legal bytes.now ≡ Ok stated },
    ghost placed: { IfSome places (λ ps. Placed bytes.now stated ps.now) } by { Prim.hlevel props },
}

mod judging;
mod placing;
