// What a command prints.
ghost use Rattle.std.specs.Prelude.{◌≡◌, [], Some, IfOk, IfSome, OnOk};
ghost use Rattle.std.specs.Option.{option_map};
ghost use Rattle.terminal.specs.Held.{Adds, Grows, held, held_at};

use crate::failure::Failure;
use std::alloc::Global;
use std::fmt::Display;
use std::io;
use std::io::{BufWriter, Stdout, Write};

// The first error takes the target's place and is kept until the end, so that what writes need not look at each.
#[derive(Drop)]
pub struct Output {
    to: io::Result<Target>,
}

// Standard output with a buffer, or with none where there is no memory for it; or memory alone.
#[derive(Drop)]
enum Target {
    Screen(BufWriter<Stdout>),
    Memory(Vec<u8>),
}

impl Output {
    pub fn new(rt: &HostRuntime) -> Output {
        let screen = BufWriter::new(rt.alloc(), rt.stdout()).unwrap_or_else(|_| unbuffered(rt));
        Output {
            to: Ok(Target::Screen(screen)),
        }
    }

    // Nothing of it is printed; it is for `kept`.
    pub fn in_memory(heap: Global) -> Output
        ensures { held result ≡ Some [] }
    {
        Output {
            to: Ok(Target::Memory(Vec::new(heap))),
        }
    }

    // What `write!` and `writeln!` call. Alike to `write_bytes` but for one call: a function for both would take a closure
    // over the writer, and be no plainer.
    pub fn write_fmt<D: Display + Drop>(&mut self, text: D)
        ensures { IfSome (D.output text) (Adds self.old self.new) }
    {
        if let Ok(to) = &mut self.to {
            if let Err(error) = to.write_text(text) {
                self.to = Err(error);
            }
        }
    }

    // Bytes as they are, which need not be text.
    pub fn write_bytes(&mut self, bytes: &[u8])
        ensures { Adds self.old self.new bytes.now }
    {
        if let Ok(to) = &mut self.to {
            if let Err(error) = to.write_all(bytes) {
                self.to = Err(error);
            }
        }
    }

    pub fn has_failed(&self) -> bool {
        self.to.is_err()
    }

    // Writes what the buffer still holds, and tells whether all was written.
    pub fn finish(self) -> Result<(), Failure> {
        let _ = self.kept()?;
        Ok(())
    }

    // The same, and what was kept in memory; of what was printed nothing is.
    pub fn kept(self) -> Result<Option<Vec<u8>>, Failure>
        ensures { IfOk result (λ kept. option_map (λ bytes. bytes.items) kept ≡ held self) }
    {
        match self.to? {
            Target::Screen(mut to) => {
                to.flush()?;
                Ok(None)
            }
            Target::Memory(bytes) => Ok(Some(bytes)),
        }
    }
}

impl Target {
    fn write_text<D: Display + Drop>(&mut self, text: D) -> io::Result<()>
        ensures { OnOk result (IfSome (D.output text) (Grows (held_at self.old) (held_at self.new))) }
    {
        match self {
            Target::Screen(to) => to.write_fmt(text),
            Target::Memory(to) => to.write_fmt(text),
        }
    }

    fn write_all(&mut self, bytes: &[u8]) -> io::Result<()>
        ensures { OnOk result (Grows (held_at self.old) (held_at self.new) bytes.now) }
    {
        match self {
            Target::Screen(to) => to.write_all(bytes),
            Target::Memory(to) => to.write_all(bytes),
        }
    }
}

// A writer that hands on each piece at once, and takes no memory.
fn unbuffered(rt: &HostRuntime) -> BufWriter<Stdout> {
    BufWriter::with_capacity(rt.alloc(), 0, rt.stdout()).unwrap()
}
