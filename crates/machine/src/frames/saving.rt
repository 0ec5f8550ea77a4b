// One frame written at a push, and read at a pop.
ghost use Rattle.std.specs.Prelude.{◌≡◌, [], length, IfErr, is_ok, ◌==◌};
ghost use Rattle.shelf.specs.declared.refusals.Cause.TheVariants.{Frames as TooMany};
ghost use Rattle.machine.specs.Frames.{frames_of, pushed, popped};

use crate::frames::Frames;
use crate::registers::Registers;
use shelf::Cause;

const MAX_FRAMES: usize = 64;

impl Frames {
    pub fn new() -> Frames
        ensures { frames_of result ≡ [] }
    {
        Frames {
            saved: None,
            depth: 0,
        }
    }

    // Saves a frame; a fault, and nothing changes, where 64 are saved.
    pub fn push(&mut self, r: Registers) -> Result<(), Cause>
        ensures pushed { (is_ok result, frames_of self.new) ≡ pushed r (frames_of self.old) }
        ensures cause { IfErr result (λ k. k ≡ TooMany) }
    {
        if self.depth >= MAX_FRAMES {
            return Err(Cause::Frames);
        }
        match &mut self.saved {
            Some(saved) => saved[self.depth] = r,
            None => self.saved = Some([r; MAX_FRAMES]),
        }
        self.depth += 1;
        Ok(())
    }

    // Takes the last frame back; none, and nothing changes, where none is saved.
    pub fn pop(&mut self) -> Option<Registers>
        ensures { (result, frames_of self.new) ≡ popped (frames_of self.old) }
    {
        let saved = self.saved.as_ref()?;
        if self.depth == 0 {
            return None;
        }
        self.depth -= 1;
        Some(saved[self.depth])
    }

    pub fn is_empty(&self) -> bool
        ensures { result ≡ (length (frames_of self.now) == 0) }
    {
        self.depth == 0
    }
}
