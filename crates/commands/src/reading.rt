// The command at a place, and how many bytes it takes.
ghost use Rattle.std.specs.Prelude.{◌≡◌, ◌+◌, ◌<◌, ◌≤◌, length, pos, Some, IfSome, OnSome, slice_index};
ghost use Rattle.numbers.specs.Bytes.{signed_at};
ghost use Rattle.commands.specs.Commands.{set, code_at, sides_at, read_as, command_at};
ghost use Rattle.commands.specs.Shapes.{shape_of};

use crate::definitions::definition_at;
use crate::kinds::{Kind, kind_of};
use crate::parts::Command;
use numbers::{signed_at, unsigned_at};

// That a parameter ends within the bytes stands in each contract, since each is about another place of them.

// The command that begins at `at`; none where the bytes end before it does. Most are characters in one byte, which are told
// where they are asked for.
#[inline(always)]
#[tactic(auto, unfolding(crate::specs::Commands::command_at))]
pub fn command_at(bytes: &[u8], at: usize) -> Option<(Command<'_>, usize)>
    ensures is { shape_of result ≡ command_at bytes.now at }
    ensures within { IfSome result (λ p. (0 < p.1) × (at + p.1 ≤ length bytes.now)) }
{
    let op = *bytes.get(at)?;
    if op < 128 {
        let code = i64::from(op);
        return Some((Command::Set { code }, 1));
    }
    other_command(bytes, at, op)
}

#[inline(never)]
#[tactic(auto, unfolding(crate::specs::Commands::command_at))]
fn other_command(bytes: &[u8], at: usize, op: u8) -> Option<(Command<'_>, usize)>
    requires inside { at < length bytes.now }
    requires op { op ≡ slice_index bytes.now at }
    ensures is { shape_of result ≡ command_at bytes.now at }
    ensures within { IfSome result (λ p. (0 < p.1) × (at + p.1 ≤ length bytes.now)) }
{
    let (kind, width) = kind_of(op);
    command_of(kind, bytes, at, width)
}

// The code of a character that is all that stands from `at` on, in one byte; none where anything else does.
#[tactic(auto, unfolding(crate::specs::Commands::command_at))]
pub fn single_char(bytes: &[u8], at: usize) -> Option<u8>
    ensures is { IfSome result (λ code. command_at bytes.now at ≡ Some (set (pos code), 1)) }
    ensures last { OnSome result (at + 1 ≡ length bytes.now) }
{
    match bytes.get(at..)? {
        [code] if *code < 128 => Some(*code),
        _ => None,
    }
}

// The command of a kind, whose parameter has `width` bytes.
fn command_of<'a>(
    kind: Kind,
    bytes: &'a [u8],
    at: usize,
    width: usize,
) -> Option<(Command<'a>, usize)>
    requires inside { at < length bytes.now }
    requires few { width ≤ 4 }
    ensures is { shape_of result ≡ read_as kind bytes.now at width }
    ensures within { IfSome result (λ p. (0 < p.1) × (at + p.1 ≤ length bytes.now)) }
{
    let place = at + 1;
    let n = 1 + width;
    match kind {
        Kind::SetChar => Some((
            Command::Set {
                code: i64::from(bytes[at]),
            },
            1,
        )),
        Kind::Set => Some((
            Command::Set {
                code: code_at(bytes, place, width)?,
            },
            n,
        )),
        Kind::SetRule => {
            let (height, width) = sides_at(bytes, place)?;
            Some((Command::SetRule { height, width }, 9))
        }
        Kind::Put => Some((
            Command::Put {
                code: code_at(bytes, place, width)?,
            },
            n,
        )),
        Kind::PutRule => {
            let (height, width) = sides_at(bytes, place)?;
            Some((Command::PutRule { height, width }, 9))
        }
        Kind::Nop => Some((Command::Nop, 1)),
        Kind::Eop => Some((Command::Eop, 1)),
        Kind::Push => Some((Command::Push, 1)),
        Kind::Pop => Some((Command::Pop, 1)),
        Kind::Right => Some((Command::Right(length_at(bytes, place, width)?), n)),
        Kind::W0 => Some((Command::W0, 1)),
        Kind::W => Some((Command::W(length_at(bytes, place, width)?), n)),
        Kind::X0 => Some((Command::X0, 1)),
        Kind::X => Some((Command::X(length_at(bytes, place, width)?), n)),
        Kind::Down => Some((Command::Down(length_at(bytes, place, width)?), n)),
        Kind::Y0 => Some((Command::Y0, 1)),
        Kind::Y => Some((Command::Y(length_at(bytes, place, width)?), n)),
        Kind::Z0 => Some((Command::Z0, 1)),
        Kind::Z => Some((Command::Z(length_at(bytes, place, width)?), n)),
        Kind::FntNum => Some((Command::Fnt(u32::from(bytes[at].saturating_sub(171))), 1)),
        Kind::Fnt => Some((Command::Fnt(unsigned_at(bytes, place, width)?), n)),
        Kind::Xxx => {
            let count = unsigned_at(bytes, place, width)? as usize;
            if bytes.len() - at - n < count {
                return None;
            }
            Some((Command::Xxx, n + count))
        }
        Kind::FntDef => {
            let d = definition_at(bytes, at, width)?;
            let count = d.name.len();
            Some((Command::FntDef(d), width + 15 + count))
        }
        Kind::Undefined => Some((Command::Undefined, 1)),
    }
}

// A rule's height and width.
fn sides_at(bytes: &[u8], place: usize) -> Option<(i64, i64)>
    requires { place ≤ length bytes.now }
    ensures is { result ≡ sides_at bytes.now place }
    ensures within { OnSome result (place + 8 ≤ length bytes.now) }
{
    Some((length_at(bytes, place, 4)?, length_at(bytes, place + 4, 4)?))
}

// A code: signed at four bytes only.
fn code_at(bytes: &[u8], place: usize, width: usize) -> Option<i64>
    ensures is { result ≡ code_at bytes.now place width }
    ensures within { OnSome result (place + width ≤ length bytes.now) }
{
    if width == 4 {
        length_at(bytes, place, 4)
    } else {
        unsigned_at(bytes, place, width).map(i64::from)
    }
}

// A length: signed.
fn length_at(bytes: &[u8], place: usize, width: usize) -> Option<i64>
    ensures is { result ≡ signed_at bytes.now place width }
    ensures within { OnSome result (place + width ≤ length bytes.now) }
{
    signed_at(bytes, place, width).map(i64::from)
}
