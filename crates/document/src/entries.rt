// The commands of the postamble: an iterator over them, and which of them are fair.
ghost use Rattle.std.specs.Prelude.{◌≡◌, ◌+◌, ◌≤◌, length, Some, IfSome};
ghost use Rattle.std.specs.Option.{option_map};
ghost use Rattle.commands.specs.Definitions.{definition_at as definition_by};
ghost use Rattle.commands.specs.Shapes.{defines};
ghost use Rattle.shelf.specs.Names.{good_name};
ghost use Rattle.document.specs.Fonts.{defined_at, fair, wide};
ghost use Rattle.document.specs.Windows.{unfair};

use commands::{Definition, definition_at};
use numbers::{is_size, number};

const NOP: u32 = 138;

// The first byte of a definition is this and the width of its font number.
const BEFORE_DEFINITIONS: usize = 242;

// The commands that stand from `at` on and before `to`: the place of each, and its definition if it is one.
// The bytes end where the 249 stands.
#[derive(Clone, Copy)]
pub struct Entries<'a> {
    pub(crate) front: &'a [u8],
    pub(crate) at: usize,
    pub(crate) to: usize,
}

impl<'a> Entries<'a> {
    // All commands from a place on.
    pub(crate) fn new(front: &'a [u8], at: usize) -> Entries<'a>
        ensures front { result.front.now ≡ front.now }
        ensures at { result.at ≡ at }
        ensures to { result.to ≡ length result.front.now }
    {
        Entries {
            front,
            at,
            to: front.len(),
        }
    }
}

impl<'a> Iterator for Entries<'a> {
    ghost use Rattle.std.specs.Prelude.{◌-◌};
    ghost use Rattle.std.specs.Iterator.{at_most};
    ghost use Rattle.document.specs.Entries.{GivesEntry};

    type Item = (usize, Option<Definition<'a>>);

    ghost next_gives = { GivesEntry };

    ghost remaining = { λ s. at_most (s.to - s.at) };

    #[inline]
    fn next(&mut self) -> Option<(usize, Option<Definition<'a>>)> {
        let at = self.at;
        if at >= self.to {
            return None;
        }
        let width = width_at(self.front, at);
        let d = definition_of(self.front, at, width);
        self.at = at + d.map_or(1, |d| width + 15 + d.name.len());
        Some((at, d))
    }
}

// The definition at a place, where its font number would have `width` bytes. Most bytes begin none, as their width of 0
// tells with no look at those behind.
pub(crate) fn definition_of(front: &[u8], at: usize, width: usize) -> Option<Definition<'_>>
    ensures is { option_map defines result ≡ definition_by front.now at width }
    ensures within { IfSome result (λ d. at + width + 15 + length d.name.now ≤ length front.now) }
{
    match width {
        0 => None,
        _ => definition_at(front, at, width),
    }
}

// In how many bytes the font number stands, if the command is a definition.
pub(crate) fn width_at(front: &[u8], at: usize) -> usize
    ensures { result ≡ wide front.now at }
{
    (number(front, at, 1) as usize).saturating_sub(BEFORE_DEFINITIONS)
}

// Whether a command is neither a 138 nor a fair definition.
pub(crate) fn is_unfair(front: &[u8], at: usize, definition: Option<Definition<'_>>) -> bool
    requires { option_map defines definition ≡ defined_at front.now at }
    ensures { result ≡ unfair front.now at }
{
    number(front, at, 1) != NOP && !definition.is_some_and(is_fair)
}

// Whether a definition has sizes and a name as they must be.
fn is_fair(d: Definition<'_>) -> bool
    ensures { result ≡ fair (Some (defines d.entry)) }
{
    is_size(d.size) && is_size(d.design) && is_name(d.name)
}

fn is_name(name: &[u8]) -> bool
    ensures { result ≡ good_name name.now }
{
    (1..64).contains(&name.len())
}
