// Pages and the closing of a copy, written into an output.
#![tactic(auto)]

mod closings;
mod definitions;
mod fonts;
mod fronts;
mod moves;
mod outputs;
mod pages;
mod passing;
mod pens;
mod pieces;
mod selections;
mod standings;

pub use closings::{append_closing, closed_length};
pub use fronts::write_front;
pub use pages::{append_page, measure_page};
pub use standings::{Opening, Standing};
