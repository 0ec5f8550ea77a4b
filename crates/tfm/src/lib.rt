// The TFM shelf: faces made from TFM files, which have the widths of real fonts.
#![tactic(auto)]

mod entries;
mod faces;
mod files;
mod making;
mod naming;
mod serving;
mod shelves;
mod words;

pub use entries::{Entry, NotMade};
pub use shelves::TfmShelf;
