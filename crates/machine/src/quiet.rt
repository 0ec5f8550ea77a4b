// The commands that make no mark: moves, frames, fonts, and the end of a page.
ghost use Rattle.std.specs.Prelude.{◌≡◌};
ghost use Rattle.commands.specs.Shapes.{plain};
ghost use Rattle.machine.specs.Acts.{world};
ghost use Rattle.machine.specs.Frames.{pushed, popped};
ghost use Rattle.machine.specs.Steps.{done, moved, in_page, at_end, with_frames, restored, selected, silently};
ghost use Rattle.machine.specs.Views.{view_of, ending_of, ends_in};

use crate::body::Body;
use crate::level::Level;
use crate::moves::shift;
use crate::registers::{Chosen, Registers};
use crate::state::Machine;
use commands::Command;
use shelf::{Cause, Shelf};

impl<S: Shelf, B: Body> Level<'_, S, B> {
    // Carries out such a command, and answers whether the page or packet goes on.
    pub(crate) fn obey(&self, command: Command, m: &mut Machine) -> Result<bool, Cause>
        ensures { ends_in result (view_of m.new) ≡ silently (world (S.means self.now.below.now) (B.acts self.now.body.now)) (plain command.entry) (view_of m.old) }
    {
        match command {
            Command::Nop | Command::Xxx => Ok(true),
            Command::Eop => m.end(self.body.is_page()),
            Command::Push => m.save(),
            Command::Pop => m.restore(),
            Command::Fnt(number) => m.select(self.body.choose(self.below, number)),
            Command::FntDef(_) => if self.body.is_page() {
                Ok(true)
            } else {
                Err(Cause::NotAllowed)
            },
            _ => m.go_to(shift(self.body, command, m.at)),
        }
    }
}

impl Machine {
    // The end of a page: no frame may be left.
    fn end(&self, is_page: bool) -> Result<bool, Cause>
        ensures { ends_in result (view_of self.now) ≡ in_page is_page (at_end (view_of self.now) done) }
    {
        if !is_page {
            return Err(Cause::NotAllowed);
        }
        self.no_frames()?;
        Ok(false)
    }

    pub(crate) fn no_frames(&self) -> Result<(), Cause>
        ensures { ending_of result ≡ at_end (view_of self.now) tt }
    {
        if self.frames.is_empty() {
            Ok(())
        } else {
            Err(Cause::Frames)
        }
    }

    fn save(&mut self) -> Result<bool, Cause>
        ensures { ends_in result (view_of self.new) ≡ with_frames (view_of self.old) (pushed (view_of self.old).at (view_of self.old).frames) }
    {
        self.frames.push(self.at)?;
        Ok(true)
    }

    // The font stays as it is.
    fn restore(&mut self) -> Result<bool, Cause>
        ensures { ends_in result (view_of self.new) ≡ restored (view_of self.old) (popped (view_of self.old).frames) }
    {
        self.at = self.frames.pop().ok_or(Cause::Frames)?;
        Ok(true)
    }

    fn select(&mut self, chosen: Result<Chosen, Cause>) -> Result<bool, Cause>
        ensures { ends_in result (view_of self.new) ≡ selected (view_of self.old) chosen }
    {
        self.font = Some(chosen?);
        Ok(true)
    }

    fn go_to(&mut self, registers: Result<Registers, Cause>) -> Result<bool, Cause>
        ensures { ends_in result (view_of self.new) ≡ moved (view_of self.old) (ending_of registers) }
    {
        self.at = registers?;
        Ok(true)
    }
}
