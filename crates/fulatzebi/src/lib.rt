// Fulatzebi for C and for ordinary Rust: calls over byte slices, numbers and plain records.
#![tactic(auto)]

mod answering;
mod exports;
mod facts;
mod flattening;
mod layers;
mod lists;
mod records;
mod served;
mod stops;
