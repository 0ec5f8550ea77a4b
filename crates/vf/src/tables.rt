// The tables of a VF file: at most 16 local fonts, in the order of their definitions, and a packet or none for each code.
ghost use Rattle.std.specs.Prelude.{◌≡◌, ◌≤◌, length};

use crate::entries::{Local, Packet};

// A VF file has at most so many local fonts.
const MAX_LOCALS: usize = 16;

// `locals` is an array with a count, and no vector of fixed capacity, which is never Copy: tables are copied as a value.
// `packets` has a place for each code, so that a code is its index; fixed memory.
pub struct Vf {
    count: usize,
    locals: [Local; MAX_LOCALS],
    packets: [Option<Packet>; 256],
    ghost few: { count ≤ 16 },
    ghost sixteen: { length locals ≡ 16 },
    ghost whole: { length packets ≡ 256 },
}

impl Copy for Vf {}

mod lookups;
