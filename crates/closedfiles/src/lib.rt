// Closed files: what the file that a copy closes to says, and that it is legal.
#![tactic(auto)]

mod reads;

pub use reads::closed_files_read;
