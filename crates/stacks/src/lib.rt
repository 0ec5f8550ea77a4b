// The shelf that a command line names: faces of TFM files, and ranks of VF files on top.
#![tactic(auto)]

mod faces;
mod fonts;
mod ranks;

pub use faces::faces_of;
pub use fonts::font_of;
pub use ranks::{Task, over_shelf};
