// The machine: runs the commands of a page or a packet over a shelf, and makes their marks.
#![tactic(auto)]

mod body;
mod frames;
mod level;
mod making;
mod moves;
mod quiet;
mod registers;
mod running;
mod single;
mod state;
mod stepping;

pub use body::Body;
pub use frames::Frames;
pub use level::Level;
pub use registers::{Chosen, Registers};
pub use state::Machine;
