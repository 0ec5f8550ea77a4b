// `marks`: shows the marks of a page.
use crate::lists::page_of;
use answers::{Told, meaning, refused};
use document::page_place;
use inspect::{legal_document, show_chain, show_counts};
use script::Number;
use shelf::{Refusal, Shelf};
use stacks::{Task, over_shelf};
use terminal::{Ended, Failure, Kind, Options, Output};

const KNOWN: [Kind; 2] = [Kind::Tfm, Kind::Rank];

pub fn show_marks(rt: &HostRuntime, words: &[String]) -> Result<Ended, Failure> {
    let heap = rt.alloc();
    let [file, page, options @ ..] = words else {
        return Err(Failure::Told(format!(in heap; "marks takes a document and a page")?));
    };
    let Ok(page) = usize::spelled(page.as_bytes()) else {
        return Err(Failure::Told(format!(in heap; "marks: no page number: {page}")?));
    };
    let options = Options::parse("marks", &KNOWN, options, heap)?;
    let file = file.as_str();
    over_shelf(rt, &options, Marks { file, page })
}

// The marks of a page of a file.
#[derive(Clone, Copy)]
struct Marks<'a> {
    file: &'a str,
    page: usize,
}

impl<'a> Task for Marks<'a> {
    fn over<S: Shelf + Drop>(
        self,
        rt: &HostRuntime,
        options: &Options,
        shelf: S,
    ) -> Result<Ended, Failure> {
        let heap = rt.alloc();
        let (read, stated) = legal_document(rt, self.file)?;
        let bytes = read.as_slice();
        let Some(place) = page_place(bytes, stated, self.page) else {
            return Err(refused(Some(self.file), Refusal::NoPage, heap)?);
        };
        let page = page_of(&shelf, bytes, stated, self.page, heap)?;
        let mut out = Output::new(rt);
        write!(out, "counts");
        show_counts(bytes, place, &mut out);
        for mark in page.lists.marks_written() {
            writeln!(out, "{}", Told(*mark));
        }
        // Behind the marks that were made before a refusal, why it is refused.
        let ended = match &page.answer {
            Ok(_) => Ended::Done,
            Err(refusal) => {
                writeln!(out, "refused {}: {}", refusal.number(), meaning(refusal));
                show_chain(
                    page.lists.links_written(),
                    options,
                    Some(self.file),
                    &mut out,
                );
                Ended::Refused
            }
        };
        out.finish()?;
        Ok(ended)
    }
}
