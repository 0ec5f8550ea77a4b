// The pairs of a copy, at most 64, by number.
ghost use Rattle.std.specs.Prelude.{◌≡◌, ◌≤◌, length};

use copies::Pair;

// A copy defines no more pairs than this, so that 171 to 234 select each.
const MAX_PAIRS: usize = 64;

// A table of fixed size in a plain struct, so that entering a pair writes one entry, forgetting some moves none, and no
// memory is reserved.
#[derive(Drop)]
pub struct PairTable {
    pairs: [Pair; MAX_PAIRS],
    count: usize,
    ghost few: { count ≤ 64 },
    ghost full: { length pairs ≡ 64 },
}

mod entering;
