// How far a long copy has come, for who waits at a terminal.
use std::io::IsTerminal;

// Is told of each page before it is copied.
pub(crate) trait Watch {
    fn page(&self, done: usize, count: usize);
}

// Looks away.
#[derive(Clone, Copy)]
pub(crate) struct Unwatched;

impl Watch for Unwatched {
    fn page(&self, done: usize, count: usize) {}
}

// A line on standard error that is written over and over, if that is a terminal.
#[derive(Clone, Copy)]
pub(crate) struct Progress<'a> {
    rt: &'a HostRuntime,
    shown: bool,
}

// How often it is written: a page takes some tenths of a millisecond.
const PAGES: usize = 500;

impl<'a> Progress<'a> {
    pub(crate) fn new(rt: &'a HostRuntime) -> Progress<'a> {
        Progress {
            rt,
            shown: rt.stderr().is_terminal(),
        }
    }

    // Takes the line away.
    pub(crate) fn clear(&self, count: usize) {
        if self.shown && count > PAGES {
            let _ = eprint!(self.rt; "\r{:32}\r", "");
        }
    }
}

impl<'a> Watch for Progress<'a> {
    fn page(&self, done: usize, count: usize) {
        if self.shown && done > 0 && done % PAGES == 0 {
            let _ = eprint!(self.rt; "\rpage {done} of {count}");
        }
    }
}
