// A font definition, read at a place.
ghost use Rattle.std.specs.Prelude.{◌≡◌, ◌+◌, ◌≤◌, length, IfSome};
ghost use Rattle.std.specs.Option.{option_map};
ghost use Rattle.commands.specs.Definitions.{definition_at};
ghost use Rattle.commands.specs.Shapes.{defines};

use crate::parts::Definition;
use numbers::{number, unsigned_at};

// The definition that begins at `at` and has its number in `width` bytes.
// None where the bytes end before it does, or for no such width.
pub fn definition_at(bytes: &[u8], at: usize, width: usize) -> Option<Definition<'_>>
    ensures is { option_map defines result ≡ definition_at bytes.now at width }
    ensures within { IfSome result (λ d. at + width + 15 + length d.name.now ≤ length bytes.now) }
{
    let font = unsigned_at(bytes, at.checked_add(1)?, width)?;
    let rest = bytes.get(at + width + 1..)?;
    let length = usize::from(*rest.get(12)?) + usize::from(*rest.get(13)?);
    Some(Definition {
        number: font,
        checksum: number(rest, 0, 4),
        size: number(rest, 4, 4),
        design: number(rest, 8, 4),
        name: rest.get(14..)?.get(..length)?,
    })
}
