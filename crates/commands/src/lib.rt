// The commands of pages and packets, as they are read at a place of a document or a VF file.
#![tactic(auto)]

mod definitions;
mod kinds;
mod parts;
mod reading;

pub use definitions::definition_at;
pub use parts::{Command, Definition};
pub use reading::{command_at, single_char};
