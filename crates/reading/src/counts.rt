// The ten counts of a page.
ghost use Rattle.std.specs.Prelude.{◌≡◌, ◌^◌, ◌<◌, IfSome};
ghost use Rattle.std.specs.Option.{option_copied};
ghost use Rattle.reading.specs.Reading.{counts_by, counts_of};

use document::{Document, Judged, page_place};
use numbers::part;

// The forty bytes behind the page's bop; none where there is no such page. Every page of a legal document has them.
pub fn counts_of(bytes: &[u8], stated: Document, page: usize) -> Option<&[u8; 40]>
    ensures { option_copied result ≡ counts_of bytes.now stated page }
{
    counts_at(bytes, page_place(bytes, stated, page))
}

// The same of a document that passed the checks.
pub fn counts_judged<'a>(document: &Judged<'a>, page: usize) -> Option<&'a [u8; 40]>
    ensures { option_copied result ≡ counts_of document.now.bytes.now document.now.stated page }
{
    counts_at(document.bytes(), document.place(page))
}

// Those of the page whose bop stands at a place, if it is one.
fn counts_at(bytes: &[u8], place: Option<usize>) -> Option<&[u8; 40]>
    requires { IfSome place (λ a. a < 2 ^ 32) }
    ensures { option_copied result ≡ counts_by bytes.now place }
{
    let place = place?;
    part(bytes, place + 1, 40).first_chunk()
}
