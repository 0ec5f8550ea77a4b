// How the library's answers are told: in lines of words and numbers, and refusals also in plain words.
#![tactic(auto)]

mod lines;
mod lists;
mod meanings;
mod refusing;

pub use lines::Told;
pub use lists::Lists;
pub use meanings::meaning;
pub use refusing::{place_of, refused};
