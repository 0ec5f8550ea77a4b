// The table of the pages' places.
ghost use Rattle.std.specs.Prelude.{◌≡◌, ℕ, ◌^◌, ◌<◌, ◌≤◌, List, length, IfSome};
ghost use Rattle.document.specs.Pages.{page_place};
ghost use Rattle.document.specs.Places.{Placed};

use crate::documents::Document;
use crate::judged::Judged;
use numbers::number;

impl<'a> Judged<'a> {
    // The same with the places of its pages in a table, if that has room for all.
    pub fn with_places(self, table: &'a mut [u32]) -> Judged<'a>
        ensures bytes { result.bytes.now ≡ self.entry.bytes.now }
        ensures stated { result.stated ≡ self.entry.stated }
    {
        let Judged {
            bytes,
            stated,
            places: _,
        } = self;
        if table.len() < usize::from(stated.pages) {
            return self;
        }
        fill(bytes, stated, table);
        Judged {
            bytes,
            stated,
            places: Some(table),
        }
    }
}

// Puts each page's place into the table, from the last back to the first.
#[tactic(auto, unfolding(crate::specs::Bytes::four))]
fn fill(bytes: &[u8], document: Document, table: &mut [u32])
    requires { document.pages ≤ length table.old }
    ensures { Placed bytes.now document table.new }
{
    let mut place = document.last;
    let mut left = usize::from(document.pages);
    // Each page is found from the one behind it: there is nothing to go over.
    while left > 0 {
        left -= 1;
        table[left] = place;
        place = number(bytes, place as usize + 41, 4);
    }
}

// The place of page n in such a table.
#[tactic(auto, unfolding(crate::specs::Pages::page_place))]
pub(crate) fn place_among(places: &[u32], document: Document, n: usize) -> Option<usize>
    ensures is { (bytes : List ℕ) → Placed bytes document places.now → result ≡ page_place bytes document n }
    ensures bound { IfSome result (λ a. (a < 2 ^ 32) × (n < 65536)) }
{
    if !(1..=usize::from(document.pages)).contains(&n) {
        return None;
    }
    let place = *places.get(n - 1)?;
    Some(place as usize)
}
