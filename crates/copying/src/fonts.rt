// How many fonts a document's postamble defines.
ghost use Rattle.std.specs.Prelude.{◌≡◌, ◌-◌, length};
ghost use Rattle.copying.specs.Counts.{defined_from, fonts_of};

use document::{Entries, entries_of, legal};

// None where the document is refused.
pub(crate) fn count_fonts(bytes: &[u8]) -> usize
    ensures { result ≡ fonts_of bytes.now }
{
    match legal(bytes) {
        Ok(stated) => count_defined(entries_of(bytes, stated)),
        Err(_) => 0,
    }
}

fn count_defined(entries: Entries<'_>) -> usize
    requires { entries.to ≡ length entries.front.now }
    ensures { result ≡ defined_from entries.entry.front.now entries.entry.at (length entries.entry.front.now - entries.entry.at) 0 }
{
    let mut count = 0;
    for (_, definition) in entries {
        if definition.is_some() {
            count += 1;
        }
    }
    count
}
