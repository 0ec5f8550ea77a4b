// A page read over a shelf into the caller's lists of records.
ghost use Rattle.std.specs.Prelude.{◌≡◌, IfOk, length, replicate, take};
ghost use Rattle.std.specs.Option.{unwrap_or};
ghost use Rattle.shelf.specs.Refusals.{returned};
ghost use Rattle.reading.specs.Reading.{reading};
ghost use Rattle.fulatzebi.specs.Served.{Read, Told, is_filler, link_filler, made, mark_filler};

use crate::lists::{put_links, put_marks};
use crate::records::{Answer, LinkRecord, MarkRecord};
use crate::stops::{Step, Stop, Why};
use numbers::part;
use reading::read;
use shelf::{Link, Mark, Refusal, Shelf};
use std::alloc::{AllocError, Global};

// What a fresh list holds. No call makes a rule without a height.
const MARK_FILLER: Mark = Mark::Rule {
    height: 0,
    width: 0,
    h: 0,
    v: 0,
};

const LINK_FILLER: Link = Link {
    font: 0,
    code: 0,
    place: 0,
};

pub(crate) const NO_MEMORY: Stop = Stop {
    step: Step::Call,
    why: Why::NoMemory,
};

// The page's marks and a fault's chain, at the front of the caller's lists. The library fills lists of its own kind, with as
// many entries as the caller's have.
pub(crate) fn read_over<S: Shelf>(
    shelf: &S,
    document: &[u8],
    page: usize,
    links: &mut [LinkRecord],
    marks: &mut [MarkRecord],
    heap: Global,
) -> Answer
    ensures { Told (reading (S.means shelf.now) document.now page) links.old links.new marks.old marks.new result }
{
    match (no_links(links.len(), heap), no_marks(marks.len(), heap)) {
        (Ok(mut chain), Ok(mut list)) => read_into(
            shelf,
            document,
            page,
            chain.as_mut_slice(),
            list.as_mut_slice(),
            links,
            marks,
        ),
        _ => Answer::refused(NO_MEMORY, 0),
    }
}

// The same by way of fresh lists.
fn read_into<S: Shelf>(
    shelf: &S,
    document: &[u8],
    page: usize,
    chain: &mut [Link],
    list: &mut [Mark],
    links: &mut [LinkRecord],
    marks: &mut [MarkRecord],
) -> Answer
    requires chain { chain.old ≡ replicate (length links.old) link_filler }
    requires marks { list.old ≡ replicate (length marks.old) mark_filler }
    ensures { Read (reading (S.means shelf.now) document.now page) links.old links.new marks.old marks.new result }
{
    let answer = read(document, page, shelf, chain, list);
    let written = made(list);
    put_marks(written, marks);
    match answer {
        Ok(n) => Answer::accepted(n, 0),
        Err(refusal) => {
            put_links(written_links(refusal, chain), links);
            let stop = Step::Page { index: 0 }.refused(refusal);
            Answer::refused(stop, written.len())
        }
    }
}

pub(crate) fn no_marks(n: usize, heap: Global) -> Result<Vec<Mark>, AllocError>
    ensures { IfOk result (λ v. v.items ≡ replicate n mark_filler) }
{
    vec![in heap; MARK_FILLER; n]
}

pub(crate) fn no_links(n: usize, heap: Global) -> Result<Vec<Link>, AllocError>
    ensures { IfOk result (λ v. v.items ≡ replicate n link_filler) }
{
    vec![in heap; LINK_FILLER; n]
}

// The marks before the first entry that no call has written.
fn made(list: &[Mark]) -> &[Mark]
    ensures { result.now ≡ made list.now }
{
    let n = list.iter().position(is_filler);
    part(list, 0, n.unwrap_or(list.len()))
}

fn is_filler(mark: &Mark) -> bool
    ensures { result ≡ is_filler mark.now }
{
    match *mark {
        Mark::Rule {
            height,
            width: _,
            h: _,
            v: _,
        } => height == 0,
        Mark::Glyph {
            face: _,
            size: _,
            code: _,
            h: _,
            v: _,
        } => false,
    }
}

// The links that a refusal wrote.
pub(crate) fn written_links(refusal: Refusal, chain: &[Link]) -> &[Link]
    ensures { result.now ≡ take (unwrap_or (returned refusal).links 0) chain.now }
{
    part(chain, 0, refusal.links().unwrap_or(0))
}
