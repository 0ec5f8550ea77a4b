// Pages of documents copied into one flat file.
ghost use Rattle.std.specs.Prelude.{◌≡◌, ◌⊎◌, IfOk, length, take};
ghost use Rattle.ledgers.specs.Histories.{AreBytes};
ghost use Rattle.fulatzebi.specs.Law.{Filed};
ghost use Rattle.fulatzebi.specs.Flat.{Flat, all_pages, flat, lacking, page_count};

use crate::layers::bytes_at;
use crate::lists::put_links;
use crate::records::{Answer, LinkRecord, SourceRecord};
use crate::served::{NO_MEMORY, no_links, no_marks, written_links};
use crate::stops::{Step, Stop, Why};
use document::legal;
use runs::Run;
use shelf::{Link, Mark, Shelf};
use std::alloc::{AllocError, Global};

// What is copied: the document that the run is opened on, the bytes of the sources' documents, the pages, and how many marks
// a page may have.
#[derive(Clone, Copy)]
pub(crate) struct Order<'a> {
    pub(crate) opening: &'a [u8],
    pub(crate) documents: &'a [u8],
    pub(crate) sources: &'a [SourceRecord],
    pub(crate) marks: usize,
}

// Opens a run, copies each page, and closes it.
pub(crate) fn copy_over<S: Shelf>(
    shelf: &S,
    order: Order<'_>,
    links: &mut [LinkRecord],
    out: &mut [u8],
    heap: Global,
) -> Answer
    ensures step { (record { answer = result; links = links.new; out = out.new } ≡ flat (S.means shelf.now) order.entry.opening.now order.entry.documents.now order.entry.sources.now order.entry.marks links.old out.old) ⊎ (record { answer = result; links = links.new; out = out.new } ≡ lacking links.old out.old) }
    ensures law { AreBytes order.entry.opening.now → result.number ≡ 0 → Filed (S.means shelf.now) order.entry.opening.now order.entry.documents.now order.entry.sources.now (take result.length out.new) }
{
    match (no_links(links.len(), heap), no_marks(order.marks, heap)) {
        (Ok(mut chain), Ok(mut list)) => copy_by(
            shelf,
            order,
            chain.as_mut_slice(),
            list.as_mut_slice(),
            links,
            out,
        ),
        _ => Answer::refused(NO_MEMORY, 0),
    }
}

// The same by way of lists of the library's kind.
fn copy_by<S: Shelf>(
    shelf: &S,
    order: Order<'_>,
    chain: &mut [Link],
    list: &mut [Mark],
    links: &mut [LinkRecord],
    out: &mut [u8],
) -> Answer
    requires chain { length chain.old ≡ length links.old }
    requires marks { length list.old ≡ order.marks }
    ensures { record { answer = result; links = links.new; out = out.new } ≡ flat (S.means shelf.now) order.entry.opening.now order.entry.documents.now order.entry.sources.now order.entry.marks links.old out.old }
{
    let mut run = match Run::open(shelf, order.opening, out) {
        Ok(run) => run,
        Err(refusal) => return Answer::refused(Step::Document.refused(refusal), 0),
    };
    // The first page that is refused ends it, and `index` says which.
    for (index, source) in order.sources.iter().enumerate() {
        let step = Step::Page { index };
        let Some(document) = bytes_at(order.documents, source.place, source.length) else {
            return Answer::refused(
                Stop {
                    step,
                    why: Why::BadRecord,
                },
                0,
            );
        };
        if let Err(refusal) = run.copy(document, source.page, chain, list, out) {
            put_links(written_links(refusal, chain), links);
            return Answer::refused(step.refused(refusal), 0);
        }
    }
    match run.close(out) {
        Ok(length) => Answer::accepted(0, length),
        Err(refusal) => Answer::refused(Step::Closing.refused(refusal), 0),
    }
}

// Every page of a document, in order.
pub(crate) fn all_pages(document: &[u8], heap: Global) -> Result<Vec<SourceRecord>, AllocError>
    ensures { IfOk result (λ v. v.items ≡ all_pages document.now) }
{
    let mut sources = Vec::new(heap);
    // A loop, since what `map` and `collect` make of a range has no word of its own.
    for k in 0..page_count(document) {
        sources.push(SourceRecord {
            place: 0,
            length: document.len(),
            page: k + 1,
        })?;
    }
    Ok(sources)
}

// How many pages it has; none where it is not legal.
fn page_count(document: &[u8]) -> usize
    ensures { result ≡ page_count document.now }
{
    match legal(document) {
        Ok(stated) => usize::from(stated.pages),
        Err(_) => 0,
    }
}
