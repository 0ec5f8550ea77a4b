// Shelves of fonts: marks, refusals, what every shelf means and keeps to, and the faces of a shelf as a shelf.
#![tactic(auto)]

mod alone;
mod asked;
mod fonts;
mod links;
mod marks;
mod names;
mod putting;
mod refusals;

pub use alone::FacesAlone;
pub use asked::{Asked, point};
pub use fonts::{Count, Face, Shelf};
pub use links::pass_on;
pub use marks::{Link, Mark};
pub use names::Name;
pub use putting::put_mark;
pub use refusals::{Cause, Refusal};
