// The commands that read a document over the fonts of the command line: `marks` and `flatten`.
#![tactic(auto)]

mod checks;
mod copier;
mod flatten;
mod fonts;
mod jobs;
mod lists;
mod marks;
mod watching;

pub use flatten::write_flat;
pub use marks::show_marks;
