// The table filled and sorted.
ghost use Rattle.std.specs.Prelude.{◌≡◌, ℕ, ◌<◌, ◌≤◌, length, take, IfSome};
ghost use Rattle.std.specs.List.{All};
ghost use Rattle.std.specs.List.Sorted.{IsNonDecreasing};
ghost use Rattle.document.specs.Fonts.{defined_in, font_from};
ghost use Rattle.document.specs.Tables.{first_among, key_at};

use crate::documents::Document;
use crate::entries::Entries;
use crate::fonts::entries_of;
use crate::fonttables::FontTable;
use crate::fonttables::finding::number_at;

impl<'a> FontTable<'a> {
    // One that goes over the definitions for each search: the best where they are few.
    pub fn few(bytes: &'a [u8], document: Document) -> FontTable<'a>
        ensures bytes { result.bytes.now ≡ bytes.now }
        ensures document { result.document ≡ document }
    {
        FontTable {
            bytes,
            document,
            places: None,
        }
    }

    // One sorted in a table, if that has room for all.
    pub fn many(bytes: &'a [u8], document: Document, table: &'a mut [u32]) -> FontTable<'a>
        ensures bytes { result.bytes.now ≡ bytes.now }
        ensures document { result.document ≡ document }
    {
        let entries = entries_of(bytes, document);
        let Some(count) = gather(entries, table) else {
            return FontTable::few(bytes, document);
        };
        let places = &mut table[..count];
        places.sort_unstable_by_key(|p| key_at(entries.front, *p));
        FontTable {
            bytes,
            document,
            places: Some(places),
        }
    }
}

// Puts the places of all definitions at the front of the table, in their order; none where there are too many.
fn gather(entries: Entries<'_>, table: &mut [u32]) -> Option<usize>
    requires { entries.to ≡ length entries.front.now }
    ensures room { IfSome result (λ k. k ≤ length table.new) }
    ensures low { IfSome result (λ k. All (λ p. p < 2147483648) (take k table.new)) }
    ensures rising { IfSome result (λ k. IsNonDecreasing (take k table.new)) }
    ensures whole { (n : ℕ) → IfSome result (λ k. defined_in entries.entry.front.now (first_among entries.entry.front.now n (take k table.new)) ≡ font_from entries.entry.front.now entries.entry.at n) }
{
    let mut count = 0;
    for (at, definition) in entries {
        if definition.is_some() {
            if count >= table.len() || at >= MAX_PLACE {
                return None;
            }
            table[count] = at as u32;
            count += 1;
        }
    }
    Some(count)
}

// No document is so long.
const MAX_PLACE: usize = 2_147_483_648;

// In the order of the keys, the first of a number's definitions stands before the others.
fn key_at(front: &[u8], at: u32) -> u64
    ensures { result ≡ key_at front.now at }
{
    number_at(front, at) * 2_147_483_648 + u64::from(at)
}
