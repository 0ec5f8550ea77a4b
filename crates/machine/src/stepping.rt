// One command of a page or a packet.
ghost use Rattle.std.specs.Prelude.{List, ℤ};
ghost use Rattle.commands.specs.Shapes.{plain};
ghost use Rattle.shelf.specs.Answers.{Answered};
ghost use Rattle.shelf.specs.Outcomes.{Outcome, bind};
ghost use Rattle.shelf.specs.declared.marks.Link.{Link as Linked};
ghost use Rattle.shelf.specs.declared.marks.Mark.{Mark as Marked};
ghost use Rattle.machine.specs.Acts.{world};
ghost use Rattle.machine.specs.Steps.{State, advanced, kept, exec};
ghost use Rattle.machine.specs.Views.{view_of, stepped};

use crate::body::Body;
use crate::level::Level;
use crate::making::{rule, typeset};
use crate::moves::across;
use crate::state::Machine;
use commands::Command;
use shelf::{Link, Mark, Refusal, Shelf};

impl<S: Shelf, B: Body> Level<'_, S, B> {
    // Answers the marks made, and whether the page or packet goes on.
    pub(crate) fn step(
        &self,
        command: Command,
        m: &mut Machine,
        chain: &mut [Link],
        marks: &mut [Mark],
    ) -> Result<(usize, bool), Refusal>
        ensures { Answered (exec (world (S.means self.now.below.now) (B.acts self.now.body.now)) (plain command.entry) (view_of m.old)) chain.old chain.new marks.old marks.new (stepped result (view_of m.new)) }
    {
        match command {
            Command::Set { code } => {
                let made = typeset(self.below, m.font, code, m.at, chain, marks);
                m.advance(made)
            }
            Command::Put { code } => keep(typeset(self.below, m.font, code, m.at, chain, marks)),
            Command::SetRule { height, width } => {
                let made = rule(
                    self.body.measure(height),
                    self.body.measure(width),
                    m.at,
                    marks,
                );
                m.advance(made)
            }
            Command::PutRule { height, width } => keep(rule(
                self.body.measure(height),
                self.body.measure(width),
                m.at,
                marks,
            )),
            _ => Ok((0, self.obey(command, m)?)),
        }
    }
}

// On after marks, h as it was.
fn keep(made: Result<(usize, i64), Refusal>) -> Result<(usize, bool), Refusal>
    ensures { (st : State) (o : Outcome ℤ) (chain chain' : List Linked) (marks marks' : List Marked) → Answered o chain chain' marks marks' made → Answered (bind o (kept st)) chain chain' marks marks' (stepped result st) }
{
    let (n, _) = made?;
    Ok((n, true))
}

impl Machine {
    // On after marks: h grows by their width.
    fn advance(&mut self, made: Result<(usize, i64), Refusal>) -> Result<(usize, bool), Refusal>
        ensures { (o : Outcome ℤ) (chain chain' : List Linked) (marks marks' : List Marked) → Answered o chain chain' marks marks' made → Answered (bind o (advanced (view_of self.old))) chain chain' marks marks' (stepped result (view_of self.new)) }
    {
        let (n, width) = made?;
        self.at = across(self.at, width)?;
        Ok((n, true))
    }
}
