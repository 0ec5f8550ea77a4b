// The definition of a font number in the postamble.
ghost use Rattle.std.specs.Prelude.{◌≡◌, ◌+◌, ◌-◌, ◌^◌, min, length, take};
ghost use Rattle.std.specs.Option.{option_map};
ghost use Rattle.commands.specs.Shapes.{defines as defined_by};
ghost use Rattle.document.specs.Fonts.{font_by, font_from};

use crate::documents::Document;
use crate::entries::Entries;
use commands::Definition;
use numbers::part;

// The commands of the postamble behind its numbers, of which each that is no 138 defines a font.
pub fn entries_of(bytes: &[u8], document: Document) -> Entries<'_>
    ensures front { result.front.now ≡ take document.end bytes.now }
    ensures at { result.at ≡ min (document.post + 29) (2 ^ 64 - 1) }
    ensures to { result.to ≡ length result.front.now }
{
    Entries::new(
        part(bytes, 0, document.end),
        document.post.saturating_add(29),
    )
}

// The first definition of a number in the postamble.
pub fn font_by(bytes: &[u8], document: Document, number: u32) -> Option<Definition<'_>>
    ensures { option_map defined_by result ≡ font_by bytes.now document number }
{
    font_from(entries_of(bytes, document), number)
}

// The same among commands to the end of their bytes.
fn font_from(entries: Entries<'_>, number: u32) -> Option<Definition<'_>>
    requires { entries.to ≡ length entries.front.now }
    ensures { option_map defined_by result ≡ font_from entries.entry.front.now entries.entry.at number }
{
    for (_, definition) in entries {
        if definition.is_some_and(|d| d.number == number) {
            return definition;
        }
    }
    None
}
