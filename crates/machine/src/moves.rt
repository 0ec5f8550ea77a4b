// The moves: h and v, by a parameter or by a register.
ghost use Rattle.std.specs.Prelude.{◌≡◌};
ghost use Rattle.commands.specs.Shapes.{plain};
ghost use Rattle.machine.specs.Steps.{across as across_by, downward as downward_by, measured, spaced, with_spacing, shifted};
ghost use Rattle.machine.specs.Views.{ending_of};

use crate::body::Body;
use crate::registers::{Registers, Spacing};
use commands::Command;
use numbers::moved;
use shelf::Cause;

// `across` and `downward` differ in one field, which Rust has no parameter for.
pub(crate) fn across(r: Registers, b: i64) -> Result<Registers, Cause>
    ensures { ending_of result ≡ across_by r b }
{
    let h = moved(r.h, b).ok_or(Cause::OutOfRange)?;
    Ok(Registers { h, ..r })
}

fn downward(r: Registers, b: i64) -> Result<Registers, Cause>
    ensures { ending_of result ≡ downward_by r b }
{
    let v = moved(r.v, b).ok_or(Cause::OutOfRange)?;
    Ok(Registers { v, ..r })
}

// The registers after a move.
pub(crate) fn shift<B: Body>(body: &B, command: Command, r: Registers) -> Result<Registers, Cause>
    ensures { ending_of result ≡ shifted (B.acts body.now).measure (plain command.entry) r }
{
    match command {
        Command::Right(b) => across(r, body.measure(b).ok_or(Cause::BadSize)?),
        Command::W0 => space(Spacing::W, r),
        Command::W(b) => space_by(Spacing::W, r, body.measure(b)),
        Command::X0 => space(Spacing::X, r),
        Command::X(b) => space_by(Spacing::X, r, body.measure(b)),
        Command::Down(b) => downward(r, body.measure(b).ok_or(Cause::BadSize)?),
        Command::Y0 => space(Spacing::Y, r),
        Command::Y(b) => space_by(Spacing::Y, r, body.measure(b)),
        Command::Z0 => space(Spacing::Z, r),
        Command::Z(b) => space_by(Spacing::Z, r, body.measure(b)),
        _ => Err(Cause::NotAllowed),
    }
}

// A move by a spacing as it stands.
fn space(which: Spacing, r: Registers) -> Result<Registers, Cause>
    ensures { ending_of result ≡ spaced which r }
{
    match which {
        Spacing::W => across(r, r.w),
        Spacing::X => across(r, r.x),
        Spacing::Y => downward(r, r.y),
        Spacing::Z => downward(r, r.z),
    }
}

// A move by a spacing that is set first.
fn space_by(which: Spacing, r: Registers, b: Option<i64>) -> Result<Registers, Cause>
    ensures { ending_of result ≡ measured b (λ l. spaced which (with_spacing which r l)) }
{
    let l = b.ok_or(Cause::BadSize)?;
    space(which, spacing_set(which, r, l))
}

fn spacing_set(which: Spacing, r: Registers, l: i64) -> Registers
    ensures { result ≡ with_spacing which r l }
{
    match which {
        Spacing::W => Registers { w: l, ..r },
        Spacing::X => Registers { x: l, ..r },
        Spacing::Y => Registers { y: l, ..r },
        Spacing::Z => Registers { z: l, ..r },
    }
}
