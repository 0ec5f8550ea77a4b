// The functions that C calls. Each is defined for every argument: nothing is required of them beyond what C owes each pointer
// and length.
ghost use Rattle.std.specs.Prelude.{◌≡◌, take};
ghost use Rattle.document.specs.Legal.{legal};
ghost use Rattle.fulatzebi.specs.Calls.{Copied, Made, ReadOver, checked, found};
ghost use Rattle.fulatzebi.specs.Facts.{page_facts};
ghost use Rattle.ledgers.specs.Histories.{AreBytes};
ghost use Rattle.fulatzebi.specs.Flat.{Flat, all_pages};
ghost use Rattle.fulatzebi.specs.Layers.{shelf_of};
ghost use Rattle.fulatzebi.specs.Law.{FiledBy};

use crate::facts::page_of;
use crate::flattening::{Order, all_pages, copy_over};
use crate::layers::{Bundle, stack_of};
use crate::records::{
    Answer, DocumentRecord, FontRecord, LinkRecord, MarkRecord, PageRecord, SourceRecord,
};
use crate::served::{NO_MEMORY, read_over};
use crate::stops::Step;
use document::legal;
use std::alloc::Global;

// Whether a document is legal, and what it states.
#[unsafe(no_mangle)]
pub extern "C" fn fulatzebi_check(document: &[u8], stated: &mut DocumentRecord, answer: &mut Answer)
    ensures { (stated.new, answer.new) ≡ checked stated.old (legal document.now) }
{
    *answer = match legal(document) {
        Ok(d) => {
            *stated = DocumentRecord::of(d);
            Answer::accepted(0, 0)
        }
        Err(refusal) => Answer::refused(Step::Document.refused(refusal), 0),
    };
}

// Where a page stands, and its ten counts.
#[unsafe(no_mangle)]
pub extern "C" fn fulatzebi_page(
    document: &[u8],
    page: usize,
    place: &mut PageRecord,
    answer: &mut Answer,
)
    ensures { (place.new, answer.new) ≡ found place.old (page_facts document.now page) }
{
    *answer = match page_of(document, page) {
        Ok(record) => {
            *place = record;
            Answer::accepted(0, 0)
        }
        Err(refusal) => Answer::refused(Step::Page { index: 0 }.refused(refusal), 0),
    };
}

// Whether a bundle of fonts makes a shelf.
#[unsafe(no_mangle)]
pub extern "C" fn fulatzebi_fonts(
    bytes: &[u8],
    fonts: &[FontRecord],
    answer: &mut Answer,
    heap: Global,
)
    ensures { Made bytes.now fonts.now answer.new }
{
    *answer = match stack_of(Bundle { bytes, fonts }, heap) {
        Ok(_stack) => Answer::accepted(0, 0),
        Err(stop) => Answer::refused(stop, 0),
    };
}

// The marks of a page, over the shelf of a bundle.
#[unsafe(no_mangle)]
pub extern "C" fn fulatzebi_read(
    bytes: &[u8],
    fonts: &[FontRecord],
    document: &[u8],
    page: usize,
    links: &mut [LinkRecord],
    marks: &mut [MarkRecord],
    answer: &mut Answer,
    heap: Global,
)
    ensures { ReadOver bytes.now fonts.now document.now page links.old links.new marks.old marks.new answer.new }
{
    *answer = match stack_of(Bundle { bytes, fonts }, heap) {
        Ok(stack) => read_over(&stack, document, page, links, marks, heap),
        Err(stop) => Answer::refused(stop, 0),
    };
}

// A flat file of these pages, over the shelf of a bundle.
#[unsafe(no_mangle)]
pub extern "C" fn fulatzebi_copy(
    bytes: &[u8],
    fonts: &[FontRecord],
    opening: &[u8],
    documents: &[u8],
    sources: &[SourceRecord],
    marks: usize,
    links: &mut [LinkRecord],
    out: &mut [u8],
    answer: &mut Answer,
    heap: Global,
)
    ensures step { Copied bytes.now fonts.now opening.now documents.now sources.now marks links.old out.old (record { answer = answer.new; links = links.new; out = out.new }) }
    ensures law { answer.new.number ≡ 0 → FiledBy (shelf_of bytes.now fonts.now) opening.now documents.now sources.now (take answer.new.length out.new) }
{
    let order = Order {
        opening,
        documents,
        sources,
        marks,
    };
    *answer = copied(Bundle { bytes, fonts }, order, links, out, heap);
}

// A flat file of all pages of a document.
#[unsafe(no_mangle)]
pub extern "C" fn fulatzebi_flatten(
    bytes: &[u8],
    fonts: &[FontRecord],
    document: &[u8],
    marks: usize,
    links: &mut [LinkRecord],
    out: &mut [u8],
    answer: &mut Answer,
    heap: Global,
)
    ensures step { Copied bytes.now fonts.now document.now document.now (all_pages document.now) marks links.old out.old (record { answer = answer.new; links = links.new; out = out.new }) }
    ensures law { answer.new.number ≡ 0 → FiledBy (shelf_of bytes.now fonts.now) document.now document.now (all_pages document.now) (take answer.new.length out.new) }
{
    *answer = match all_pages(document, heap) {
        Ok(sources) => {
            let order = Order {
                opening: document,
                documents: document,
                sources: sources.as_slice(),
                marks,
            };
            copied(Bundle { bytes, fonts }, order, links, out, heap)
        }
        Err(_) => Answer::refused(NO_MEMORY, 0),
    };
}

fn copied(
    bundle: Bundle<'_>,
    order: Order<'_>,
    links: &mut [LinkRecord],
    out: &mut [u8],
    heap: Global,
) -> Answer
    ensures step { Copied bundle.entry.bytes.now bundle.entry.fonts.now order.entry.opening.now order.entry.documents.now order.entry.sources.now order.entry.marks links.old out.old (record { answer = result; links = links.new; out = out.new }) }
    ensures law { AreBytes order.entry.opening.now → result.number ≡ 0 → FiledBy (shelf_of bundle.entry.bytes.now bundle.entry.fonts.now) order.entry.opening.now order.entry.documents.now order.entry.sources.now (take result.length out.new) }
{
    match stack_of(bundle, heap) {
        Ok(stack) => copy_over(&stack, order, links, out, heap),
        Err(stop) => Answer::refused(stop, 0),
    }
}
