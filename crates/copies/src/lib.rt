// Copies: the pairs of a copy, and the bytes of its pages and of its closing.
#![tactic(auto)]

mod pairs;

pub use pairs::Pair;
