// The saved frames of a page or a packet: at most 64, in one table.
ghost use Rattle.std.specs.Prelude.{◌≡◌, ◌≤◌, [], length, IfSome};
ghost use Rattle.std.proofs.Props.{props};
ghost use Rattle.std.specs.Option.{unwrap_or};

use crate::registers::Registers;

// A rule of the project: saved frames stand in one table of fixed size in a plain struct, so that a push or a pop moves
// one frame, and no memory is reserved. The table is there from the first push on: most packets save no frame, and to
// clear 3 KB for each of them would take most of the time.
#[derive(Drop)]
pub struct Frames {
    saved: Option<[Registers; 64]>,
    depth: usize,
    ghost few: { depth ≤ 64 },
    ghost room: { depth ≤ length (unwrap_or saved []) },
    ghost full: { IfSome saved (λ table. length table ≡ 64) } by { Prim.hlevel props },
}

mod saving;
