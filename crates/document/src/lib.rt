// Legal documents: the checks that every document passes first, its pages and its fonts.
#![tactic(auto)]

mod cases;
mod checks;
mod documents;
mod entries;
mod fonts;
mod fonttables;
mod judged;
mod legality;
mod pages;
mod postambles;
mod windows;

pub use cases::legal_cases;
pub use documents::Document;
pub use entries::Entries;
pub use fonts::{entries_of, font_by};
pub use fonttables::FontTable;
pub use judged::Judged;
pub use legality::legal;
pub use pages::page_place;
