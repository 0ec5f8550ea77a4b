// The place of a page, found along the chain of pages.
ghost use Rattle.std.specs.Prelude.{◌≡◌, ◌^◌, ◌<◌, IfSome};
ghost use Rattle.document.specs.Pages.{page_before, page_place};

use crate::documents::Document;
use numbers::number;

// The place of the page that comes k before the one at `last`.
fn page_before(bytes: &[u8], k: usize, last: u32) -> u32
    ensures { result ≡ page_before bytes.now k last }
{
    (0..k).fold(last, |a, _| number(bytes, a as usize + 41, 4))
}

// The place of page n; none where there is no such page.
#[tactic(auto, unfolding(crate::specs::Pages::page_place))]
pub fn page_place(bytes: &[u8], document: Document, n: usize) -> Option<usize>
    ensures is { result ≡ page_place bytes.now document n }
    ensures bound { IfSome result (λ a. (a < 2 ^ 32) × (n < 65536)) }
{
    let count = usize::from(document.pages);
    if (1..=count).contains(&n) {
        Some(page_before(bytes, count - n, document.last) as usize)
    } else {
        None
    }
}
