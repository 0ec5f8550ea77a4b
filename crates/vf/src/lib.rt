// A VF file read front to back into fixed tables: its local fonts by number, its packets by code.
#![tactic(auto)]

mod cases;
mod entries;
mod packets;
mod reading;
mod tables;

pub use cases::worked_files;
pub use entries::{Local, Packet};
pub use reading::read_vf;
pub use tables::Vf;
