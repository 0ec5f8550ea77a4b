// A rank: VF files over a shelf.
ghost use Rattle.std.specs.Prelude.{◌≡◌, ◌≤◌, true, length, vec_capacity};
ghost use Rattle.rank.specs.Entries.{entries_of};
ghost use Rattle.rank.specs.Laid.{total, inside};
ghost use Rattle.rank.specs.Ranks.{RankOk};

use crate::fonts::Font;
use shelf::Shelf;

// The files' bytes one after another, and a font for each, in the order in which they were added.
// One buffer holds all files, reserved when the rank is made: to add a file allocates nothing.
#[derive(Drop)]
pub struct Rank<S: Shelf> {
    pub(crate) below: S,
    pub(crate) bytes: Vec<u8>,
    pub(crate) fonts: Vec<Font>,
    ghost room: { 32768 ≤ vec_capacity bytes },
    ghost eight: { 8 ≤ vec_capacity fonts },
    ghost whole: { total fonts.items ≡ length bytes.items },
    ghost laid: { inside (length bytes.items) fonts.items ≡ true },
    // All files find room, and no name is twice.
    ghost ok: { RankOk (S.means below) (entries_of bytes.items fonts.items) },
}
