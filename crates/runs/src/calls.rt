// The calls of a run: copy, strike and close.
ghost use Rattle.std.specs.Prelude.{◌≡◌, length, nat_lt, Ok, Err, if◌then◌else◌};
ghost use Rattle.shelf.specs.declared.refusals.Refusal.TheVariants.{BadOutput};
ghost use Rattle.ledgers.specs.Steps.{copy, strike, close, seen, stepped};
ghost use Rattle.ledgers.specs.Lists.{read_at, marked, chained};
ghost use Rattle.ledgers.specs.Histories.{Faithful};
ghost use Rattle.runs.specs.Views.{view_of, said, lengthened};

use crate::pointers::pointer_back;
use crate::runs::{Run, State};
use document::Judged;
use reading::{counts_judged, read_judged};
use shelf::{Link, Mark, Refusal, Shelf};
use writing::{Standing, append_closing, append_page};

impl<'a, S: Shelf> Run<'a, S> {
    // Appends a page of a document, read over the run's shelf into the caller's lists.
    pub fn copy(
        &mut self,
        document: &[u8],
        page: usize,
        chain: &mut [Link],
        marks: &mut [Mark],
        out: &mut [u8],
    ) -> Result<(), Refusal>
        ensures step { seen (view_of S.means self.new) out.new (said result) ≡ stepped (view_of S.means self.old) (copy (record { document = document.now; page = page }) (length marks.old)) out.old }
        ensures marks { marks.new ≡ marked (read_at (view_of S.means self.old) (record { document = document.now; page = page }) (length out.old)) marks.old }
        ensures chain { chain.new ≡ chained (read_at (view_of S.means self.old) (record { document = document.now; page = page }) (length out.old)) (length marks.old) chain.old }
    {
        match self.state {
            State::Closed => Err(Refusal::RunClosed),
            State::Open(standing) => {
                check_output(standing, out)?;
                let judged = Judged::of(document)?;
                self.copy_judged(&judged, page, chain, marks, out)
            }
        }
    }

    // The same of a document that passed the checks before.
    pub fn copy_judged(
        &mut self,
        document: &Judged<'_>,
        page: usize,
        chain: &mut [Link],
        marks: &mut [Mark],
        out: &mut [u8],
    ) -> Result<(), Refusal>
        ensures step { seen (view_of S.means self.new) out.new (said result) ≡ stepped (view_of S.means self.old) (copy (record { document = document.now.bytes.now; page = page }) (length marks.old)) out.old }
        ensures marks { marks.new ≡ marked (read_at (view_of S.means self.old) (record { document = document.now.bytes.now; page = page }) (length out.old)) marks.old }
        ensures chain { chain.new ≡ chained (read_at (view_of S.means self.old) (record { document = document.now.bytes.now; page = page }) (length out.old)) (length marks.old) chain.old }
    {
        match self.state {
            State::Closed => Err(Refusal::RunClosed),
            State::Open(standing) => {
                check_output(standing, out)?;
                if document.stated().mag != self.opening.mag {
                    return Err(Refusal::OtherMag);
                }
                let n = read_judged(document, page, self.shelf, chain, marks)?;
                let counts = counts_judged(document, page).ok_or(Refusal::NoPage)?;
                let standing = append_page(
                    self.shelf,
                    &mut self.pairs,
                    standing,
                    counts,
                    &marks[..n],
                    out,
                )?;
                self.state = State::Open(standing);
                Ok(())
            }
        }
    }

    // Drops the last page: pairs that were defined from there on are forgotten, and no byte is written.
    pub fn strike(&mut self, out: &[u8]) -> Result<(), Refusal>
        ensures { seen (view_of S.means self.new) out.now (said result) ≡ stepped (view_of S.means self.old) strike out.now }
    {
        match self.state {
            State::Closed => Err(Refusal::RunClosed),
            State::Open(standing) => {
                if standing.pages == 0 {
                    return Err(Refusal::NothingToStrike);
                }
                check_output(standing, out)?;
                let last = pointer_back(standing, out).ok_or(Refusal::BadOutput)?;
                self.pairs.forget_from(standing.last as usize);
                self.state = State::Open(Standing {
                    used: standing.last,
                    last,
                    pages: standing.pages - 1,
                });
                Ok(())
            }
        }
    }

    // Puts the closing behind the pages, and answers the length of the file.
    pub fn close(&mut self, out: &mut [u8]) -> Result<usize, Refusal>
        ensures step { seen (view_of S.means self.new) out.new (lengthened result) ≡ stepped (view_of S.means self.old) close out.old }
        ensures law { Faithful (view_of S.means self.old) out.old out.new (lengthened result) }
    {
        match self.state {
            State::Closed => Err(Refusal::RunClosed),
            State::Open(standing) => {
                check_output(standing, out)?;
                let length = append_closing(self.shelf, &self.pairs, self.opening, standing, out)?;
                self.state = State::Closed;
                Ok(length)
            }
        }
    }
}

// An output that is below the run's length does not hold it.
fn check_output(standing: Standing, out: &[u8]) -> Result<(), Refusal>
    ensures { result ≡ (if nat_lt (length out.now) standing.used then Err BadOutput else Ok tt) }
{
    if out.len() < standing.used as usize {
        return Err(Refusal::BadOutput);
    }
    Ok(())
}
