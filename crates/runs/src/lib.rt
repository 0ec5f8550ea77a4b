// Runs: the making of one flat DVI file, page by page.
#![tactic(auto)]

mod calls;
mod opening;
mod pointers;
mod runs;

pub use runs::Run;
