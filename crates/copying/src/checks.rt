// Whether a flattened file says what its document does: read back over the faces alone, and copied again.
ghost use Rattle.std.specs.Prelude.{◌≡◌, ◌+◌, ◌<◌, ℕ, IfOk, IfSome, Ok, Some, true, codes, length, map};
ghost use Rattle.copying.specs.Checked.{Checked, ReadsAs, SameCounts, is_yes, same_words};
ghost use Rattle.copying.specs.Copied.{Copied};
ghost use Rattle.copying.specs.declared.checks.Same.TheVariants.{Yes};
ghost use Rattle.reading.specs.Reading.{counts_of, page_reading};
ghost use Rattle.shelf.specs.Outcomes.{ends, well};

use crate::copier::Copier;
use crate::lists::page_of;
use crate::watching::Unwatched;
use document::{Document, Judged, legal};
use reading::counts_of;
use shelf::{FacesAlone, Mark, Shelf};
use std::alloc::{AllocError, Global};

#[derive(Clone, Copy, Debug, Eq, PartialEq)]
pub(crate) enum Same {
    Yes,
    // The marks or counts of a page of the file differ.
    OtherMarks,
    // The file copied again is another.
    OtherBytes,
}

impl Same {
    pub(crate) fn is_same(self) -> bool
        ensures { result ≡ is_yes self }
    {
        self == Same::Yes
    }

    pub(crate) fn words(self) -> &'static str
        ensures { result.now ≡ same_words self }
    {
        match self {
            Same::Yes =>
                "checked: the same marks and counts over the faces alone, the same bytes when copied again",
            Same::OtherMarks => "checked: a page of the file has other marks or counts",
            Same::OtherBytes => "checked: the file copied again is another",
        }
    }
}

// Of the pages from one on, which the file is a copy of.
pub(crate) fn check_file<S: Shelf + Drop>(
    shelf: S,
    document: &[u8],
    stated: Document,
    first: usize,
    file: &[u8],
    heap: Global,
) -> Result<Same, AllocError>
    ensures { result ≡ Ok Yes → Checked (S.means shelf) document.now stated first file.now }
{
    let Ok(written) = legal(file) else {
        return Ok(Same::OtherMarks);
    };
    if !has_same_counts(document, stated, first, file, written) {
        return Ok(Same::OtherMarks);
    }
    let pages = usize::from(written.pages);
    let Some(wanted) = marks_of_pages(&shelf, document, stated, first, pages, heap)? else {
        return Ok(Same::OtherMarks);
    };
    let alone = FacesAlone(shelf);
    if !reads_as(&alone, file, written, wanted.as_slice(), heap)? {
        return Ok(Same::OtherMarks);
    }
    if copies_as(&alone, file, pages, heap)? {
        Ok(Same::Yes)
    } else {
        Ok(Same::OtherBytes)
    }
}

// Whether each page of the file has the counts of the document's page.
fn has_same_counts(
    document: &[u8],
    stated: Document,
    first: usize,
    file: &[u8],
    written: Document,
) -> bool
    ensures { result ≡ true → SameCounts document.now stated first file.now written }
{
    for k in 0..usize::from(written.pages) {
        let Some(page) = first.checked_add(k) else {
            return false;
        };
        if !has_same_page_counts(document, stated, page, file, written, k + 1) {
            return false;
        }
    }
    true
}

// The same of one page and one of the file's.
fn has_same_page_counts(
    document: &[u8],
    stated: Document,
    page: usize,
    file: &[u8],
    written: Document,
    n: usize,
) -> bool
    ensures { result ≡ true → counts_of document.now stated page ≡ counts_of file.now written n }
{
    counts_of(document, stated, page) == counts_of(file, written, n)
}

// The marks of so many pages from one on; none where one is refused.
fn marks_of_pages<S: Shelf>(
    shelf: &S,
    bytes: &[u8],
    stated: Document,
    first: usize,
    count: usize,
    heap: Global,
) -> Result<Option<Vec<Vec<Mark>>>, AllocError>
    ensures { IfOk result (λ all. IfSome all (λ pages. (length pages.items ≡ count) × ReadsAs (S.means shelf.now) bytes.now stated first (map (λ marks. marks.items) pages.items))) }
{
    let mut all = Vec::new(heap);
    for k in 0..count {
        let Some(page) = first.checked_add(k) else {
            return Ok(None);
        };
        match marks_of(shelf, bytes, stated, page, heap)? {
            Some(marks) => all.push(marks)?,
            None => return Ok(None),
        }
    }
    Ok(Some(all))
}

// Whether the pages of a file have these marks.
fn reads_as<S: Shelf>(
    shelf: &S,
    file: &[u8],
    written: Document,
    wanted: &[Vec<Mark>],
    heap: Global,
) -> Result<bool, AllocError>
    ensures { result ≡ Ok true → ReadsAs (S.means shelf.now) file.now written 1 (map (λ marks. marks.items) wanted.now) }
{
    for (k, marks) in wanted.iter().enumerate() {
        match marks_of(shelf, file, written, k + 1, heap)? {
            Some(got) if are_same(got.as_slice(), marks.as_slice()) => {}
            _ => return Ok(false),
        }
    }
    Ok(true)
}

fn are_same(marks: &[Mark], others: &[Mark]) -> bool
    ensures { result ≡ true → marks.now ≡ others.now }
{
    marks == others
}

// Whether so many pages of a file, copied, make the same file.
fn copies_as<S: Shelf>(
    shelf: &S,
    file: &[u8],
    pages: usize,
    heap: Global,
) -> Result<bool, AllocError>
    ensures { result ≡ Ok true → Copied (S.means shelf.now) file.now 1 pages file.now }
{
    let Ok(judged) = Judged::of(file) else {
        return Ok(false);
    };
    let mut again = Copier::new(heap)?;
    let length = match again.copy_pages(shelf, &judged, 1, pages, &Unwatched, heap)? {
        Ok(length) => length,
        Err(_) => return Ok(false),
    };
    Ok(match again.out.as_slice().get(..length) {
        Some(bytes) => bytes == file,
        None => false,
    })
}

// The marks of a page; none where it is refused.
fn marks_of<S: Shelf>(
    shelf: &S,
    bytes: &[u8],
    stated: Document,
    page: usize,
    heap: Global,
) -> Result<Option<Vec<Mark>>, AllocError>
    ensures { IfOk result (λ read. IfSome read (λ marks. page_reading (S.means shelf.now) bytes.now stated page ≡ Ok (ends marks.items (well tt)))) }
{
    let read = page_of(shelf, bytes, stated, page, heap)?;
    let Ok(count) = read.answer else {
        return Ok(None);
    };
    match read.lists.marks.as_slice().get(..count) {
        Some(marks) => Ok(Some(Vec::from_slice(heap, marks)?)),
        None => Ok(None),
    }
}
