// A font number used again in the postamble, found without a look at all definitions for each of them:
// the numbers are taken window by window, and a table says which of a window have come.
ghost use Rattle.std.specs.Prelude.{◌≡◌, ℕ, ◌+◌, ◌-◌, ◌^◌, ◌<◌, ◌≤◌, false, [], length, Some, None, Option, IfSome};
ghost use Rattle.std.specs.Option.{option_map};
ghost use Rattle.commands.specs.Shapes.{defines};
ghost use Rattle.document.specs.Fonts.{number_by, first_of, unlawful};
ghost use Rattle.document.specs.Windows.{Noted, again, from_on, stop_at, within as in_window, wrong};

use crate::entries::{Entries, is_unfair};
use commands::Definition;
use std::mem;

// How many numbers a window has.
const WINDOW: usize = 4_194_304;

// And the first, which is all that most documents need: clearing its table costs next to nothing.
const FIRST_WINDOW: usize = 4_096;

// The contracts here give the three parts of a walk to definitions that are about any bytes and places.

// Where the first command stands that is neither a 138 nor a fair definition of a number not used before.
// The end where there is none, and no Option, since each place found bounds the next walk.
pub(crate) fn lawful_to(entries: Entries<'_>) -> usize
    ensures { result ≡ stop_at (unlawful entries.entry.front.now) entries.entry.front.now entries.entry.at entries.entry.to }
{
    let mut lawful = entries;
    lawful.to = fair_to(entries);
    let mut lo = 0;
    while let Some(n) = least(lawful, lo) {
        if lo == 0 {
            lawful.to = window::<FIRST_WINDOW>(lawful, n);
            lo = n + FIRST_WINDOW;
        } else {
            lawful.to = window::<WINDOW>(lawful, n);
            lo = n + WINDOW;
        }
    }
    lawful.to
}

// Where the first command stands that is neither a 138 nor a fair definition; the end where none does.
fn fair_to(entries: Entries<'_>) -> usize
    ensures { result ≡ stop_at (wrong entries.entry.front.now (Some 0)) entries.entry.front.now entries.entry.at entries.entry.to }
{
    for (at, definition) in entries {
        if is_unfair(entries.front, at, definition) {
            return at;
        }
    }
    entries.to
}

// Where one of the N numbers from `lo` on is first used again; the end where none is. Not one function with `fair_to`,
// since each command is written into the table here. Never inlined, so that its stack is used only where a table is needed.
#[inline(never)]
fn window<const N: usize>(entries: Entries<'_>, lo: usize) -> usize
    requires { N < 2 ^ 63 }
    ensures { result ≡ stop_at (again entries.entry.front.now lo (Some (lo + N))) entries.entry.front.now entries.entry.at entries.entry.to }
{
    // a fixed table, since calls of the library allocate nothing
    let mut seen = [false; N];
    for (at, definition) in entries {
        if note(&mut seen, number_of(definition), lo) {
            return at;
        }
    }
    entries.to
}

// Notes a number in the table of a window; true where it is there already.
fn note(seen: &mut [bool], number: Option<usize>, lo: usize) -> bool
    ensures noted { Noted (length seen.old) lo number seen.old seen.new result }
    ensures long { length seen.new ≡ length seen.old }
{
    // an index, since `get_mut` does not say what a write through it leaves
    match number {
        Some(n) if lo <= n && n - lo < seen.len() => mem::replace(&mut seen[n - lo], true),
        _ => false,
    }
}

// The least number from `lo` on that is defined.
fn least(entries: Entries<'_>, lo: usize) -> Option<usize>
    ensures none { first_of (in_window entries.entry.front.now lo result) entries.entry.front.now entries.entry.at (entries.entry.to - entries.entry.at) 0 [] ≡ None }
    ensures bound { IfSome result (λ n. (lo ≤ n) × (n < 2 ^ 32)) }
{
    entries
        .filter_map(|(_, definition)| number_from(definition, lo))
        .min()
}

// The font number that a command defines, if it is from `lo` on. It is a usize from `number_of` on, as an index of a
// window's table is, so its bound stands in three contracts.
fn number_from(definition: Option<Definition<'_>>, lo: usize) -> Option<usize>
    ensures value { result ≡ from_on lo (number_by (option_map defines definition.entry)) }
    ensures bound { IfSome result (λ n. (lo ≤ n) × (n < 2 ^ 32)) }
{
    number_of(definition).filter(|n| lo <= *n)
}

// The font number that a command defines.
fn number_of(definition: Option<Definition<'_>>) -> Option<usize>
    ensures value { result ≡ number_by (option_map defines definition.entry) }
    ensures bound { IfSome result (λ n. n < 2 ^ 32) }
{
    definition.map(|d| d.number as usize)
}
