// A page read with as much room for its marks as it turns out to need.
ghost use Rattle.std.specs.Prelude.{◌≡◌, ℕ, IfOk, Err};
ghost use Rattle.answers.specs.Fresh.{no_links, no_marks};
ghost use Rattle.machine.specs.Views.{counted};
ghost use Rattle.reading.specs.Reading.{Served, page_reading};
ghost use Rattle.shelf.specs.declared.refusals.Refusal.TheVariants.{MarksFull};

use answers::Lists;
use document::Document;
use reading::read_page;
use shelf::{Refusal, Shelf};
use std::alloc::{AllocError, Global};

// How many marks there is room for, one try after the other.
const ROOMS: [usize; 3] = [4_096, 65_536, 1_048_576];

// The room in the last try. A page has no more bytes than a document, and each of its commands at most a packet's marks.
const MAX_MARKS: usize = 16_777_216;

// A packet on each of four ranks, and the page.
const MAX_LINKS: usize = 5;

// What a page came to, and the lists that it filled.
#[derive(Drop)]
pub(crate) struct Page {
    pub(crate) lists: Lists,
    pub(crate) answer: Result<usize, Refusal>,
}

pub(crate) fn page_of<S: Shelf>(
    shelf: &S,
    bytes: &[u8],
    stated: Document,
    page: usize,
    heap: Global,
) -> Result<Page, AllocError>
    ensures { IfOk result (λ p. (room : ℕ) × Served (page_reading (S.means shelf.now) bytes.now stated page) (no_links MAX_LINKS) p.lists.chain.items (no_marks room) p.lists.marks.items (counted p.answer) × (p.answer ≡ Err MarksFull → room ≡ MAX_MARKS)) }
{
    for room in ROOMS {
        let read = page_with(shelf, bytes, stated, page, room, heap)?;
        if !matches!(read.answer, Err(Refusal::MarksFull)) {
            return Ok(read);
        }
    }
    page_with(shelf, bytes, stated, page, MAX_MARKS, heap)
}

fn page_with<S: Shelf>(
    shelf: &S,
    bytes: &[u8],
    stated: Document,
    page: usize,
    room: usize,
    heap: Global,
) -> Result<Page, AllocError>
    ensures { IfOk result (λ p. Served (page_reading (S.means shelf.now) bytes.now stated page) (no_links MAX_LINKS) p.lists.chain.items (no_marks room) p.lists.marks.items (counted p.answer)) }
{
    let mut lists = Lists::fresh(room, MAX_LINKS, heap)?;
    let answer = read_page(
        bytes,
        stated,
        page,
        shelf,
        lists.chain.as_mut_slice(),
        lists.marks.as_mut_slice(),
    );
    Ok(Page { lists, answer })
}
