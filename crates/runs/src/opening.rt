// The call that opens a run.
ghost use Rattle.std.specs.Prelude.{◌≡◌};
ghost use Rattle.ledgers.specs.Steps.{beginning};
ghost use Rattle.runs.specs.Views.{begun};

use crate::runs::{Run, State};
use document::legal;
use pairs::PairTable;
use shelf::{Refusal, Shelf};
use writing::{Opening, write_front};

impl<'a, S: Shelf> Run<'a, S> {
    // Opens a run on a document, whose magnification and largest page the file will state, and writes its first bytes.
    pub fn open(shelf: &'a S, document: &[u8], out: &mut [u8]) -> Result<Run<'a, S>, Refusal>
        ensures { begun S.means result out.new ≡ beginning (S.means shelf.now) document.now out.old }
    {
        let stated = legal(document)?;
        let opening = Opening {
            mag: stated.mag,
            l: stated.l,
            u: stated.u,
        };
        let standing = write_front(opening, out)?;
        Ok(Run {
            shelf,
            opening,
            pairs: PairTable::new(),
            state: State::Open(standing),
        })
    }
}
