// Pages read over a shelf: the marks of a document's page, and how it ends.
#![tactic(auto)]

mod bodies;
mod counts;
mod pages;

pub use counts::{counts_judged, counts_of};
pub use pages::{read, read_judged, read_page};
