// The table of a copy's pairs, and the guard that puts its count back.
#![tactic(auto)]

mod guards;
mod tables;

pub use guards::PairGuard;
pub use tables::PairTable;
