// Numbers in files, lengths and fix_words, and the one search that serves every table.
#![tactic(auto)]

mod bytes;
mod fix_words;
mod keyed;
mod lengths;
mod parts;

pub use bytes::{complement, number, signed_at, unsigned_at, write_signed, write_unsigned};
pub use fix_words::{begins_fix_word, scale};
pub use keyed::{Keyed, first_match};
pub use lengths::{in_range, is_size, moved};
pub use parts::part;
