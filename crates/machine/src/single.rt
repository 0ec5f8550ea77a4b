// A packet that is one character, as most packets of fonts are.
ghost use Rattle.std.specs.Prelude.{◌≡◌, ◌+◌, [], length, pos, false, Some};
ghost use Rattle.commands.specs.Commands.{set, command_at};
ghost use Rattle.shelf.specs.Answers.{Answered};
ghost use Rattle.machine.specs.Acts.{world};
ghost use Rattle.machine.specs.Runs.{run_from};
ghost use Rattle.machine.specs.Views.{counted};

use crate::body::Body;
use crate::level::Level;
use crate::making::typeset;
use crate::moves::across;
use crate::registers::{Chosen, Registers};
use shelf::{Link, Mark, Refusal, Shelf, pass_on};

impl<S: Shelf, B: Body> Level<'_, S, B> {
    // What `run` answers of such a packet, without a machine: to make one would take longer than the character does.
    pub fn run_single(
        &self,
        start: usize,
        code: u8,
        at: Registers,
        font: Option<Chosen>,
        chain: &mut [Link],
        marks: &mut [Mark],
    ) -> Result<usize, Refusal>
        requires code { command_at self.now.bytes.now start ≡ Some (set (pos code), 1) }
        requires last { start + 1 ≡ length self.now.bytes.now }
        requires packet { (B.acts self.now.body.now).page ≡ false }
        ensures { Answered (run_from (world (S.means self.now.below.now) (B.acts self.now.body.now)) self.now.bytes.now start (record { at = at; font = font; frames = [] })) chain.old chain.new marks.old marks.new (counted result) }
    {
        match typeset(self.below, font, i64::from(code), at, chain, marks) {
            Ok((n, width)) => match across(at, width) {
                Ok(_) => Ok(n),
                Err(cause) => Err(pass_on(cause.into(), self.body.link(start), chain)),
            },
            Err(e) => Err(pass_on(e, self.body.link(start), chain)),
        }
    }
}
