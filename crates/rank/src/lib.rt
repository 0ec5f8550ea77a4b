// Virtual fonts over any shelf, and again a shelf.
#![tactic(auto)]

mod adding;
mod filing;
mod fonts;
mod naming;
mod ranks;
mod serving;

pub use filing::Offer;
pub use ranks::Rank;
