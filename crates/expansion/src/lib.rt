// A character of a virtual font, expanded: its packet run over the shelf below.
#![tactic(auto)]

mod bodies;
mod expanding;
mod selecting;

pub use expanding::expand;
