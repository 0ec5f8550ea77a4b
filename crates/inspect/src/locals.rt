// The local fonts of a VF file by their definitions alone. A rank reads a file over the fonts below it; here they need not be there.
ghost use Rattle.std.specs.Prelude.{◌≡◌, ◌-◌, [], IfOk};
ghost use Rattle.std.specs.Option.{option_map};
ghost use Rattle.inspect.specs.Locals.{local_at, listed, listed_of};

use commands::definition_at;
use std::alloc::{AllocError, Global};

// A VF file has no more.
const MAX_LOCALS: usize = 16;

// The first byte of a definition is this and the width of its font number.
const BEFORE_DEFINITIONS: usize = 242;

#[derive(Drop)]
pub(crate) struct Locals<'a> {
    // The names, in the order of the definitions.
    pub(crate) names: Vec<&'a [u8]>,
    // The place behind the last of these definitions.
    pub(crate) end: usize,
}

// The definitions from a place on, one behind the other.
pub(crate) fn locals_from<'a>(
    file: &'a [u8],
    start: usize,
    heap: Global,
) -> Result<Locals<'a>, AllocError>
    ensures { IfOk result (λ l. listed_of l ≡ listed file.now 16 [] start) }
{
    let mut names = Vec::new(heap);
    let mut end = start;
    for _ in 0..MAX_LOCALS {
        let Some((name, next)) = local_at(file, end) else {
            break;
        };
        names.push(name)?;
        end = next;
    }
    Ok(Locals { names, end })
}

// The name that a definition at a place gives, and the place behind it.
fn local_at(file: &[u8], at: usize) -> Option<(&[u8], usize)>
    ensures { option_map (λ p. (p.0.now, p.1)) result ≡ local_at file.now at }
{
    let width = usize::from(*file.get(at)?).saturating_sub(BEFORE_DEFINITIONS);
    let definition = definition_at(file, at, width)?;
    Some((definition.name, at + width + 15 + definition.name.len()))
}
