// The commands that show what fonts and documents hold.
#![tactic(auto)]

mod asking;
mod chains;
mod characters;
mod documents;
mod faces;
mod fonts;
mod locals;
mod pages;
mod points;

pub use chains::show_chain;
pub use characters::show_character;
pub use documents::legal_document;
pub use faces::show_faces;
pub use fonts::show_fonts;
pub use pages::{show_counts, show_pages};
