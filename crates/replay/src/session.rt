// What the lines of a script share, whatever shelf there is: the byte strings that are named, the output buffer, and what is
// printed.
use crate::buffers::Buffer;
use crate::current::Current;
use crate::queries::Query;
use crate::stops::Stop;
use answers::Told;
use script::{Number, Problem, Store};
use shelf::Cause;
use terminal::Output;

#[derive(Drop)]
pub struct Session<'a> {
    pub rt: &'a HostRuntime,
    pub out: Output,
    pub store: Store,
    pub buffer: Buffer,
}

impl<'a> Session<'a> {
    pub fn new(rt: &'a HostRuntime, out: Output) -> Session<'a> {
        let heap = rt.alloc();
        Session {
            rt,
            out,
            store: Store::new(heap),
            buffer: Buffer::empty(heap),
        }
    }

    // Whether a line asks for anything; empty lines and remarks do not.
    pub fn is_call(&self, line: &[u8]) -> bool {
        !line.is_empty() && !line.starts_with(b"#")
    }

    pub fn tell(&mut self, stop: Stop) {
        match stop {
            Stop::Senseless(problem) => writeln!(self.out, "error {problem}\n."),
            Stop::Refused(refusal) => writeln!(self.out, "{}\n.", Told(refusal)),
        }
    }

    // `case NAME` forgets everything and prints itself.
    pub fn begin(&mut self, line: &[u8]) {
        self.store.forget();
        self.buffer = Buffer::empty(self.rt.alloc());
        self.out.write_bytes(line);
        writeln!(self.out, "");
    }

    // A call that a shelf answers and that changes nothing.
    pub fn ask(&mut self, shelf: &Current, call: &[&[u8]]) -> Result<(), Problem> {
        let heap = self.rt.alloc();
        let query = Query::parse(call, &self.store, heap)?;
        shelf.ask(&query, heap, &mut self.out)?;
        writeln!(self.out, ".");
        Ok(())
    }

    pub fn into_output(self) -> Output {
        let Session {
            rt: _,
            out,
            store: _,
            buffer: _,
        } = self;
        out
    }

    // The lines that ask neither a shelf nor a run. Those that name or change bytes have no answer.
    pub fn obey_anywhere(&mut self, words: &[&[u8]]) -> Result<(), Problem> {
        match words {
            [b"bytes" | b"fill" | b"file", ..] => self.store.define(self.rt, words),
            [b"output", count] => {
                self.buffer = Buffer::fresh(usize::spelled(count)?, self.rt.alloc())?;
                Ok(())
            }
            [b"poke", place, digits] => {
                let bytes = script::bytes(digits, self.rt.alloc())?;
                self.buffer.poke(usize::spelled(place)?, bytes.as_slice())
            }
            [b"scale", word, size] => self.scale(word, size),
            [b"copy" | b"strike" | b"close", ..] => Err(Problem::NoRun),
            [b"output" | b"poke" | b"scale", ..] => Err(Problem::WrongCount),
            _ => Err(Problem::NoSuchLine),
        }
    }

    // A fix_word that cannot be scaled has no chain, so its refusal is the number alone.
    fn scale(&mut self, word: &[u8], size: &[u8]) -> Result<(), Problem> {
        let word = script::fix_word(word)?;
        let size = script::size(i64::spelled(size)?);
        match numbers::scale(word, size) {
            Some(scaled) => writeln!(self.out, "ok {scaled}\n."),
            None => writeln!(self.out, "refused {}\n.", Cause::BadSize.number()),
        }
        Ok(())
    }
}
