// `flatten`: copies a document, or some of its pages, to a file in which every font is a face.
ghost use Rattle.std.specs.Prelude.{◌≡◌};
ghost use Rattle.copying.specs.Jobs.{pages_given};

use crate::checks::check_file;
use crate::copier::{Copier, Stopped};
use crate::fonts::count_fonts;
use crate::jobs::Job;
use crate::watching::Progress;
use answers::{meaning, refused};
use document::{Document, Judged};
use inspect::show_chain;
use shelf::Shelf;
use stacks::{Task, over_shelf};
use std::alloc::Global;
use std::fs;
use terminal::{Ended, Failure, Options, Output};

pub fn write_flat(rt: &HostRuntime, words: &[String]) -> Result<Ended, Failure> {
    let job = Job::parse(words, rt.alloc())?;
    let task = Flattening {
        file: job.file,
        target: job.target,
        check: job.check,
    };
    over_shelf(rt, &job.options, task)
}

#[derive(Clone, Copy)]
struct Flattening<'a> {
    file: &'a str,
    target: &'a str,
    check: bool,
}

impl<'a> Task for Flattening<'a> {
    // The file is written before anything is said of it, and not where the check finds that it differs.
    fn over<S: Shelf + Drop>(
        self,
        rt: &HostRuntime,
        options: &Options,
        shelf: S,
    ) -> Result<Ended, Failure> {
        let heap = rt.alloc();
        let bytes = terminal::read(rt, self.file)?;
        let judged = judged(self.file, bytes.as_slice(), heap)?;
        let mut places = vec![in heap; 0u32; usize::from(judged.stated().pages)]?;
        let judged = judged.with_places(places.as_mut_slice());
        let (first, count) = pages_of(options.pages, judged.stated());
        let mut copier = Copier::new(heap)?;
        let progress = Progress::new(rt);
        let copied = copier.copy_pages(&shelf, &judged, first, count, &progress, heap)?;
        progress.clear(count);
        let length = match copied {
            Ok(length) => length,
            Err(stopped) => return tell_stop(rt, self.file, options, stopped, &copier),
        };
        let file = copier.out.as_slice().get(..length).unwrap_or(&[]);
        let same = if self.check {
            Some(check_file(shelf, judged.bytes(), judged.stated(), first, file, heap)?)
        } else {
            None
        };
        let differs = same.is_some_and(|same| !same.is_same());
        if !differs {
            write_file(rt, self.target, file)?;
        }
        let mut out = Output::new(rt);
        writeln!(out, "pages {count}");
        writeln!(out, "marks {}", copier.marks);
        writeln!(out, "pairs {}", count_fonts(file));
        writeln!(out, "bytes in {}", judged.bytes().len());
        writeln!(out, "bytes out {length}");
        if let Some(same) = same {
            writeln!(out, "{}", same.words());
        }
        out.finish()?;
        Ok(if differs { Ended::Differs } else { Ended::Done })
    }
}

// A document that passes the checks; which it fails is told with its name.
fn judged<'a>(file: &str, bytes: &'a [u8], heap: Global) -> Result<Judged<'a>, Failure> {
    Judged::of(bytes).try_map_err(|refusal| Ok(refused(Some(file), refusal, heap)?))
}

// The first page, and how many there are: of those from one to another, or of all.
fn pages_of(given: Option<(usize, usize)>, stated: Document) -> (usize, usize)
    ensures { result ≡ pages_given given stated.pages }
{
    match given {
        Some((first, last)) if first <= last => (first, (last - first).saturating_add(1)),
        Some((first, _)) => (first, 0),
        None => (1, usize::from(stated.pages)),
    }
}

// What stopped the copying; no file is written then.
fn tell_stop(
    rt: &HostRuntime,
    file: &str,
    options: &Options,
    stopped: Stopped,
    copier: &Copier,
) -> Result<Ended, Failure> {
    let refusal = stopped.refusal;
    let mut out = Output::new(rt);
    writeln!(
        out,
        "{file}: page {}: refused {}: {}",
        stopped.page,
        refusal.number(),
        meaning(&refusal)
    );
    show_chain(copier.lists.links_written(), options, Some(file), &mut out);
    out.finish()?;
    Ok(Ended::Refused)
}

// Written whole under another name first, so that no half of a file is left under its own, nor under the other.
fn write_file(rt: &HostRuntime, target: &str, bytes: &[u8]) -> Result<(), Failure> {
    let heap = rt.alloc();
    let partial = format!(in heap; "{target}.part")?;
    let written = fs::write(rt, partial.as_str(), bytes).and_then(|()| fs::rename(
        rt,
        partial.as_str(),
        target,
    ));
    if written.is_err() {
        let _ = fs::remove_file(rt, partial.as_str());
    }
    written.try_map_err(|error| Ok(Failure::Told(format!(in heap; "{target}: {error}")?)))
}
