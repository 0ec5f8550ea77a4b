// What the commands share: their options, the files that they read, what they print, and how they tell of a failure.
#![tactic(auto)]

mod endings;
mod failure;
mod files;
mod kinds;
mod options;
mod output;
mod values;

pub use endings::Ended;
pub use failure::Failure;
pub use files::read;
pub use kinds::Kind;
pub use options::Options;
pub use output::Output;
pub use values::Font;
