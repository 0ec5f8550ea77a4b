// The call that reads a page.
ghost use Rattle.std.specs.Prelude.{◌≡◌, ◌<◌, ◌^◌};
ghost use Rattle.shelf.specs.Answers.{Answered};
ghost use Rattle.machine.specs.Views.{counted};
ghost use Rattle.reading.specs.Reading.{Served, page_outcome, page_reading, reading};

use crate::bodies::PageBody;
use document::{Document, FontTable, Judged, legal, page_place};
use machine::{Frames, Level, Machine, Registers};
use shelf::{Link, Mark, Refusal, Shelf};

// A postamble of so many bytes has some 50 definitions at most; going over them costs less than a table.
const FEW: usize = 1_024;

// One of so many bytes has no more definitions than a small table has room for, each of them 17 bytes or more.
const SOME: usize = 17 * SMALL;

const SMALL: usize = 1_024;

// A document has no more definitions than this.
const LARGE: usize = 1_048_576;

// The marks of a document's page, at the front of the list; answers how many there are.
pub fn read<S: Shelf>(
    document: &[u8],
    page: usize,
    shelf: &S,
    chain: &mut [Link],
    marks: &mut [Mark],
) -> Result<usize, Refusal>
    ensures { Served (reading (S.means shelf.now) document.now page) chain.old chain.new marks.old marks.new (counted result) }
{
    let stated = legal(document)?;
    read_page(document, stated, page, shelf, chain, marks)
}

// The same of a document that was judged, by what it states.
pub fn read_page<S: Shelf>(
    document: &[u8],
    stated: Document,
    page: usize,
    shelf: &S,
    chain: &mut [Link],
    marks: &mut [Mark],
) -> Result<usize, Refusal>
    ensures { Served (page_reading (S.means shelf.now) document.now stated page) chain.old chain.new marks.old marks.new (counted result) }
{
    let place = page_place(document, stated, page).ok_or(Refusal::NoPage)?;
    read_at(document, stated, page as u16, place, shelf, chain, marks)
}

// The same of one that passed the checks.
pub fn read_judged<S: Shelf>(
    document: &Judged<'_>,
    page: usize,
    shelf: &S,
    chain: &mut [Link],
    marks: &mut [Mark],
) -> Result<usize, Refusal>
    ensures { Served (page_reading (S.means shelf.now) document.now.bytes.now document.now.stated page) chain.old chain.new marks.old marks.new (counted result) }
{
    let place = document.place(page).ok_or(Refusal::NoPage)?;
    read_at(
        document.bytes(),
        document.stated(),
        page as u16,
        place,
        shelf,
        chain,
        marks,
    )
}

// The page whose bop stands at a place.
fn read_at<S: Shelf>(
    document: &[u8],
    stated: Document,
    page: u16,
    place: usize,
    shelf: &S,
    chain: &mut [Link],
    marks: &mut [Mark],
) -> Result<usize, Refusal>
    requires { place < 2 ^ 32 }
    ensures { Answered (page_outcome (S.means shelf.now) document.now stated page place) chain.old chain.new marks.old marks.new (counted result) }
{
    match stated.end.saturating_sub(stated.post) {
        0..=FEW => {
            let fonts = FontTable::few(document, stated);
            run_page(&PageBody { fonts, page }, place, shelf, chain, marks)
        }
        0..=SOME => run_sorted::<SMALL, S>(document, stated, page, place, shelf, chain, marks),
        _ => run_sorted::<LARGE, S>(document, stated, page, place, shelf, chain, marks),
    }
}

// A page whose fonts are found in a table of room for N. A fixed table, since calls of the library allocate nothing; never
// inlined, so that its stack is used only where a table is needed.
#[inline(never)]
fn run_sorted<const N: usize, S: Shelf>(
    document: &[u8],
    stated: Document,
    page: u16,
    place: usize,
    shelf: &S,
    chain: &mut [Link],
    marks: &mut [Mark],
) -> Result<usize, Refusal>
    requires { (place < 2 ^ 32) × (N < 2 ^ 32) }
    ensures { Answered (page_outcome (S.means shelf.now) document.now stated page place) chain.old chain.new marks.old marks.new (counted result) }
{
    let mut table = [0; N];
    let fonts = FontTable::many(document, stated, &mut table);
    run_page(&PageBody { fonts, page }, place, shelf, chain, marks)
}

#[tactic(auto, unfolding(crate::specs::Reading::page_outcome))]
// Runs the commands of the page whose bop stands at a place: they come after its 45 bytes, and before the postamble.
fn run_page<S: Shelf>(
    body: &PageBody<'_>,
    place: usize,
    shelf: &S,
    chain: &mut [Link],
    marks: &mut [Mark],
) -> Result<usize, Refusal>
    requires { place < 2 ^ 32 }
    ensures { Answered (page_outcome (S.means shelf.now) body.now.fonts.bytes.now body.now.fonts.document body.now.page place) chain.old chain.new marks.old marks.new (counted result) }
{
    let mut m = Machine {
        at: Registers::default(),
        font: None,
        frames: Frames::new(),
    };
    let level = Level {
        below: shelf,
        body,
        bytes: body.fonts.before_postamble(),
    };
    level.run(place + 45, &mut m, chain, marks)
}
