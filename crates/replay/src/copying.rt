// The lines of a script that a run takes: from the one that opens it to the one that ends it.
use crate::buffers::Buffer;
use crate::queries::Query;
use crate::session::Session;
use crate::stops::Stop;
use answers::{Lists, Told};
use runs::Run;
use script::{Number, Problem};
use shelf::Shelf;

impl Session<'_> {
    // Opens a run over a shelf, and carries out the lines from a place on that follow it. Answers the place of the line that
    // ends it: a case, another opening, or a change of the shelf, which a run does not outlive.
    pub fn run_on<S: Shelf>(
        &mut self,
        shelf: &S,
        opening: &[&[u8]],
        lines: &[&[u8]],
        from: usize,
    ) -> usize {
        let mut run = match self.open(shelf, opening) {
            Ok(run) => run,
            Err(stop) => {
                self.tell_opening(stop);
                return from;
            }
        };
        for (i, line) in lines.iter().enumerate() {
            if i < from || self.out.has_failed() {
                continue;
            }
            if ends_run(line) {
                return i;
            }
            self.take_in_run(shelf, &mut run, line);
        }
        lines.len()
    }

    fn open<'s, S: Shelf>(&mut self, shelf: &'s S, words: &[&[u8]]) -> Result<Run<'s, S>, Stop> {
        let [b"open", id, length] = words else {
            return Err(Problem::WrongCount.into());
        };
        let document = self.store.find(id)?;
        let out = self.buffer.front(usize::spelled(length)?)?;
        let run = Run::open(shelf, document, out)?;
        writeln!(self.out, "ok");
        self.tell_hash();
        Ok(run)
    }

    // A refused opening tells the hash of the output too.
    fn tell_opening(&mut self, stop: Stop) {
        match stop {
            Stop::Refused(refusal) => {
                writeln!(self.out, "{}", Told(refusal));
                self.tell_hash();
            }
            Stop::Senseless(problem) => writeln!(self.out, "error {problem}\n."),
        }
    }

    // Any answer of a run ends so.
    fn tell_hash(&mut self) {
        writeln!(self.out, "hash {:016x}\n.", self.buffer.hash());
    }

    fn take_in_run<S: Shelf>(&mut self, shelf: &S, run: &mut Run<'_, S>, line: &[u8]) {
        if !self.is_call(line) {
            return;
        }
        if let Err(problem) = self.obey_in_run(shelf, run, line) {
            writeln!(self.out, "error {problem}\n.");
        }
    }

    fn obey_in_run<S: Shelf>(
        &mut self,
        shelf: &S,
        run: &mut Run<'_, S>,
        line: &[u8],
    ) -> Result<(), Problem> {
        let heap = self.rt.alloc();
        let words = script::cut(line, b' ', heap)?;
        match words.as_slice() {
            [b"copy", id, numbers @ ..] => self.copy(run, id, numbers),
            [b"strike", length] => self.strike(run, length),
            [b"close", length] => self.close(run, length),
            [b"count" | b"find" | b"face" | b"character" | b"read", ..] => {
                let query = Query::parse(words.as_slice(), &self.store, heap)?;
                query.put_to(shelf, heap, &mut self.out)?;
                writeln!(self.out, ".");
                Ok(())
            }
            words => self.obey_anywhere(words),
        }
    }

    fn copy<S: Shelf>(
        &mut self,
        run: &mut Run<'_, S>,
        id: &[u8],
        numbers: &[&[u8]],
    ) -> Result<(), Problem> {
        let document = self.store.find(id)?;
        let [page, marks, chain, length] = script::all::<usize, 4>(numbers)?;
        let mut lists = Lists::fresh(marks, chain, self.rt.alloc())?;
        let out = self.buffer.front(length)?;
        let copied = run.copy(
            document,
            page,
            lists.chain.as_mut_slice(),
            lists.marks.as_mut_slice(),
            out,
        );
        match copied {
            Ok(()) => writeln!(self.out, "ok"),
            Err(refusal) => writeln!(self.out, "{}", Told(refusal)),
        }
        lists.tell(&mut self.out);
        self.tell_hash();
        Ok(())
    }

    fn strike<S: Shelf>(&mut self, run: &mut Run<'_, S>, length: &[u8]) -> Result<(), Problem> {
        let out = self.buffer.front(usize::spelled(length)?)?;
        match run.strike(out) {
            Ok(()) => writeln!(self.out, "ok"),
            Err(refusal) => writeln!(self.out, "{}", Told(refusal)),
        }
        self.tell_hash();
        Ok(())
    }

    // Accepted, the hash of the closed file comes after that of the whole output.
    fn close<S: Shelf>(&mut self, run: &mut Run<'_, S>, length: &[u8]) -> Result<(), Problem> {
        let out = self.buffer.front(usize::spelled(length)?)?;
        match run.close(out) {
            Ok(length) => {
                writeln!(self.out, "ok {length}");
                writeln!(self.out, "hash {:016x}", self.buffer.hash());
                writeln!(
                    self.out,
                    "file {:016x}\n.",
                    self.buffer.hash_of_front(length)
                );
            }
            Err(refusal) => {
                writeln!(self.out, "{}", Told(refusal));
                self.tell_hash();
            }
        }
        Ok(())
    }
}

// Whether a line begins a case, opens a run or changes the shelf.
fn ends_run(line: &[u8]) -> bool {
    line.starts_with(b"case ")
        || line.starts_with(b"open ")
        || line.starts_with(b"tfm ")
        || line.starts_with(b"rank")
        || line.starts_with(b"add ")
        || line.starts_with(b"alone")
}
