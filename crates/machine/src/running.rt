// The loop over the commands of a page or a packet.
ghost use Rattle.std.specs.Prelude.{◌≡◌, ◌+◌, ◌<◌, ◌≤◌, [], length, IfOk, if◌then◌else◌};
ghost use Rattle.commands.specs.Commands.{command_at};
ghost use Rattle.shelf.specs.Answers.{Answered};
ghost use Rattle.shelf.specs.Outcomes.{fault};
ghost use Rattle.shelf.specs.declared.refusals.Cause.TheVariants.{PastEnd};
ghost use Rattle.machine.specs.Acts.{world};
ghost use Rattle.machine.specs.Runs.{turned, run_from};
ghost use Rattle.machine.specs.Steps.{at_end};
ghost use Rattle.machine.specs.Views.{view_of, ending_of, turned_by, counted};

use crate::body::Body;
use crate::level::Level;
use crate::registers::Turn;
use crate::state::Machine;
use commands::command_at;
use shelf::{Cause, Link, Mark, Refusal, Shelf, pass_on};

impl<S: Shelf, B: Body> Level<'_, S, B> {
    // Runs the bytes from a place on, and answers the marks made at the front of the list.
    pub fn run(
        &self,
        start: usize,
        m: &mut Machine,
        chain: &mut [Link],
        marks: &mut [Mark],
    ) -> Result<usize, Refusal>
        ensures { Answered (run_from (world (S.means self.now.below.now) (B.acts self.now.body.now)) self.now.bytes.now start (view_of m.old)) chain.old chain.new marks.old marks.new (counted result) }
    {
        let mut at = start;
        let mut used = 0;
        // A command says itself how long it is, and what it leaves is needed by the next: no iterator of the library does.
        while at < self.bytes.len() {
            let t = self.turn(at, m, chain, &mut marks[used..])?;
            used += t.marks;
            if !t.on {
                return Ok(used);
            }
            at += t.length;
        }
        // `pass_on` writes the chain: with `map_err` and a closure that does, the proofs here did not close.
        match m.finish(self.body.is_page()) {
            Ok(()) => Ok(used),
            Err(cause) => Err(pass_on(cause.into(), self.body.link(at), chain)),
        }
    }

    // The command at a place.
    fn turn(
        &self,
        at: usize,
        m: &mut Machine,
        chain: &mut [Link],
        marks: &mut [Mark],
    ) -> Result<Turn, Refusal>
        ensures is { Answered (turned (world (S.means self.now.below.now) (B.acts self.now.body.now)) at (command_at self.now.bytes.now at) (view_of m.old)) chain.old chain.new marks.old marks.new (turned_by result (view_of m.new)) }
        ensures longer { IfOk result (λ t. 0 < t.length) }
        ensures within { IfOk result (λ t. at + t.length ≤ length self.now.bytes.now) }
    {
        // By `let else` and `match` for the reason that `run` gives.
        let Some((command, length)) = command_at(self.bytes, at) else {
            return Err(pass_on(Cause::PastEnd.into(), self.body.link(at), chain));
        };
        match self.step(command, m, chain, marks) {
            Ok((marks, on)) => Ok(Turn { marks, length, on }),
            Err(e) => Err(pass_on(e, self.body.link(at), chain)),
        }
    }
}

impl Machine {
    // The end of the bytes.
    fn finish(&self, is_page: bool) -> Result<(), Cause>
        ensures { ending_of result ≡ (if is_page then fault PastEnd [] else at_end (view_of self.now) tt) }
    {
        if is_page {
            return Err(Cause::PastEnd);
        }
        self.no_frames()
    }
}
