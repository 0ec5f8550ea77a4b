// Copies the pages of a document into an output that grows as it has to.
ghost use Rattle.std.specs.Prelude.{◌≡◌, ◌<◌, ◌≤◌, ℕ, List, [], length, take, IfOk, OnOk};
ghost use Rattle.copies.specs.Files.{Opening};
ghost use Rattle.copying.specs.Copied.{Copied, Course, GoesOn, Started};
ghost use Rattle.ledgers.specs.Histories.{ClosedFile};
ghost use Rattle.ledgers.specs.Sources.{Source};
ghost use Rattle.runs.specs.Views.{view_of};
ghost use Rattle.shelf.specs.Laws.{Lawful};
ghost use Rattle.shelf.specs.Meaning.{Meaning};

use crate::watching::Watch;
use answers::Lists;
use document::Judged;
use runs::Run;
use shelf::{Refusal, Shelf};
use std::alloc::{AllocError, Global};

// An output uses no more bytes.
const MAX_OUTPUT: usize = 16_777_216;

const FIRST_OUTPUT: usize = 65_536;

// No page has more marks than fit here, unless it is all packets.
const MAX_MARKS: usize = 16_777_216;

const FIRST_MARKS: usize = 4_096;

// A packet on each of four ranks, and the page.
const MAX_LINKS: usize = 5;

#[derive(Drop)]
pub(crate) struct Copier {
    pub(crate) out: Vec<u8>,
    pub(crate) lists: Lists,
    // How many marks were copied.
    pub(crate) marks: usize,
}

// Why the copying ended: at which page, or 0 where it was the opening or the closing.
#[derive(Clone, Copy)]
pub(crate) struct Stopped {
    pub(crate) page: usize,
    pub(crate) refusal: Refusal,
}

impl Copier {
    pub(crate) fn new(heap: Global) -> Result<Copier, AllocError> {
        Ok(Copier {
            out: vec![in heap; 0u8; FIRST_OUTPUT]?,
            lists: Lists::fresh(FIRST_MARKS, MAX_LINKS, heap)?,
            marks: 0,
        })
    }

    // So many pages from one on. Answers the length of the closed file, or why there is none.
    pub(crate) fn copy_pages<S: Shelf, W: Watch>(
        &mut self,
        shelf: &S,
        document: &Judged<'_>,
        first: usize,
        count: usize,
        watch: &W,
        heap: Global,
    ) -> Result<Result<usize, Stopped>, AllocError>
        ensures { IfOk result (λ closed. IfOk closed (λ length. Copied (S.means shelf.now) document.now.bytes.now first count (take length self.new.out.items))) }
    {
        let mut run = match self.open(shelf, document.bytes()) {
            Ok(run) => run,
            Err(refusal) => return Ok(Err(Stopped { page: 0, refusal })),
        };
        for k in 0..count {
            watch.page(k, count);
            let Some(page) = first.checked_add(k) else {
                return Ok(Err(Stopped {
                    page: usize::MAX,
                    refusal: Refusal::NoPage,
                }));
            };
            match self.copy_page(&mut run, document, page, heap)? {
                Ok(()) => self.count_marks(),
                Err(refusal) => return Ok(Err(Stopped { page, refusal })),
            }
        }
        match self.close(&mut run) {
            Ok(length) => Ok(Ok(length)),
            Err(refusal) => Ok(Err(Stopped { page: 0, refusal })),
        }
    }

    fn open<'s, S: Shelf>(&mut self, shelf: &'s S, document: &[u8]) -> Result<Run<'s, S>, Refusal>
        ensures { IfOk result (λ run. Started (S.means shelf.now) document.now [] (view_of S.means run) self.new.out.items) }
    {
        Run::open(shelf, document, self.out.as_mut_slice())
    }

    // Answers the length of the closed file.
    fn close<S: Shelf>(&mut self, run: &mut Run<'_, S>) -> Result<usize, Refusal>
        ensures { (m : Meaning) (o : Opening) (es : List Source) → Lawful m → Course m o es (view_of S.means run.old) self.old.out.items → IfOk result (λ length. ClosedFile m o es (take length self.new.out.items)) }
    {
        run.close(self.out.as_mut_slice())
    }

    // A page, with as much room for its marks and for the output as it turns out to need.
    fn copy_page<S: Shelf>(
        &mut self,
        run: &mut Run<'_, S>,
        document: &Judged<'_>,
        page: usize,
        heap: Global,
    ) -> Result<Result<(), Refusal>, AllocError>
        ensures { (m : Meaning) (o : Opening) (es : List Source) → Course m o es (view_of S.means run.old) self.old.out.items → IfOk result (GoesOn m o es (record { document = document.now.bytes.now; page = page }) (view_of S.means run.new) self.new.out.items) }
    {
        loop {
            let copied = self.try_page(run, document, page);
            if matches!(copied, Err(Refusal::MarksFull)) && self.lists.marks.len() < MAX_MARKS {
                self.widen_marks(heap)?;
            } else if matches!(copied, Err(Refusal::OutputFull)) && self.out.len() < MAX_OUTPUT {
                self.widen_output()?;
            } else {
                return Ok(copied);
            }
        }
    }

    // A page, with the room that there is.
    fn try_page<S: Shelf>(
        &mut self,
        run: &mut Run<'_, S>,
        document: &Judged<'_>,
        page: usize,
    ) -> Result<(), Refusal>
        ensures course { (m : Meaning) (o : Opening) (es : List Source) → Course m o es (view_of S.means run.old) self.old.out.items → GoesOn m o es (record { document = document.now.bytes.now; page = page }) (view_of S.means run.new) self.new.out.items result }
        ensures marks { length self.new.lists.marks.items ≡ length self.old.lists.marks.items }
        ensures out { length self.new.out.items ≡ length self.old.out.items }
    {
        run.copy_judged(
            document,
            page,
            self.lists.chain.as_mut_slice(),
            self.lists.marks.as_mut_slice(),
            self.out.as_mut_slice(),
        )
    }

    // Twice the room for marks, none of them written.
    fn widen_marks(&mut self, heap: Global) -> Result<(), AllocError>
        ensures marks { OnOk result (length self.old.lists.marks.items < MAX_MARKS → length self.old.lists.marks.items < length self.new.lists.marks.items) }
        ensures out { self.new.out ≡ self.old.out }
    {
        let room = self.lists.marks.len();
        let wider = room.saturating_mul(2).max(FIRST_MARKS);
        self.lists = Lists::fresh(wider, MAX_LINKS, heap)?;
        Ok(())
    }

    // Twice the room for the output, and no mark written.
    fn widen_output(&mut self) -> Result<(), AllocError>
        ensures front { take (length self.old.out.items) self.new.out.items ≡ self.old.out.items }
        ensures longer { OnOk result (length self.old.out.items < length self.new.out.items) }
        ensures marks { length self.new.lists.marks.items ≡ length self.old.lists.marks.items }
    {
        self.lists.clear_marks();
        let length = self.out.len();
        self.out
            .resize(length.saturating_mul(2).max(FIRST_OUTPUT), 0)
    }

    // The marks of a page that was copied.
    fn count_marks(&mut self)
        ensures { self.new.out ≡ self.old.out }
    {
        let count = self.lists.marks_written().len();
        self.marks = self.marks.saturating_add(count);
        self.lists.clear_marks();
    }
}
