// What a document states, and where its pages stand.
ghost use Rattle.std.specs.Prelude.{◌≡◌, ◌∷◌, []};
ghost use Rattle.fulatzebi.specs.Records.{count_at, document_record, page_record};
ghost use Rattle.fulatzebi.specs.Facts.{page_facts};

use crate::records::{DocumentRecord, PageRecord};
use document::{Document, legal, page_place};
use numbers::signed_at;
use shelf::Refusal;

impl DocumentRecord {
    pub(crate) fn of(stated: Document) -> DocumentRecord
        ensures { result ≡ document_record stated }
    {
        DocumentRecord {
            mag: stated.mag,
            l: stated.l,
            u: stated.u,
            pages: u32::from(stated.pages),
            last: stated.last,
            post: stated.post,
            end: stated.end,
        }
    }
}

impl PageRecord {
    // The page whose 139 stands at a place.
    pub(crate) fn at(document: &[u8], place: usize) -> PageRecord
        ensures { result ≡ page_record document.now place }
    {
        PageRecord {
            place,
            counts: [
                count_at(document, place, 0),
                count_at(document, place, 1),
                count_at(document, place, 2),
                count_at(document, place, 3),
                count_at(document, place, 4),
                count_at(document, place, 5),
                count_at(document, place, 6),
                count_at(document, place, 7),
                count_at(document, place, 8),
                count_at(document, place, 9),
            ],
        }
    }
}

// Count k of the page there.
fn count_at(document: &[u8], place: usize, k: u8) -> i32
    ensures { result ≡ count_at document.now place k }
{
    let Some(at) = place.checked_add(1 + 4 * usize::from(k)) else {
        return 0;
    };
    signed_at(document, at, 4).unwrap_or(0)
}

// The page of a number, of a document that is legal.
pub(crate) fn page_of(document: &[u8], page: usize) -> Result<PageRecord, Refusal>
    ensures { result ≡ page_facts document.now page }
{
    let stated = legal(document)?;
    let place = page_place(document, stated, page).ok_or(Refusal::NoPage)?;
    Ok(PageRecord::at(document, place))
}
