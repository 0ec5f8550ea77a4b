// The text of a script: its words, the numbers and bytes that they spell, and the byte strings that it names.
#![tactic(auto)]

mod problems;
mod store;
mod words;

pub use problems::Problem;
pub use store::Store;
pub use words::{Number, all, bytes, cut, fix_word, font, size};
