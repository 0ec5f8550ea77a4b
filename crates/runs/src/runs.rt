// What a run keeps.
use pairs::PairTable;
use shelf::Shelf;
use writing::{Opening, Standing};

// How far a run has come, until it is closed.
#[derive(Clone, Copy)]
pub(crate) enum State {
    Open(Standing),
    Closed,
}

// A run holds its shelf, so that by its type all its calls use one shelf, unchanged. The pairs stand beside the state, since
// a table with an invariant cannot be reached within a case.
#[derive(Drop)]
pub struct Run<'a, S: Shelf> {
    pub(crate) shelf: &'a S,
    pub(crate) opening: Opening,
    pub(crate) pairs: PairTable,
    pub(crate) state: State,
}
