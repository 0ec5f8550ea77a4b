// A font found by its number.
ghost use Rattle.std.specs.Prelude.{◌≡◌, ◌≤◌, true, false, cond, None, nat_lt, take};
ghost use Rattle.std.specs.List.Sorted.{IsNonDecreasingBy, IsPartitionPoint};
ghost use Rattle.std.specs.Option.{option_map};
ghost use Rattle.commands.specs.Shapes.{defines as defined_by};
ghost use Rattle.document.specs.Fonts.{defined_at, defined_in, font_by, has_number, number_by};
ghost use Rattle.document.specs.Tables.{first_among, number_at};

use crate::entries::width_at;
use crate::fonts::font_by;
use crate::fonttables::FontTable;
use commands::{Definition, definition_at};
use numbers::part;

// Above all numbers.
const NO_NUMBER: u64 = 4_294_967_296;

impl<'a> FontTable<'a> {
    // The first definition of a number.
    pub fn font(&self, number: u32) -> Option<Definition<'a>>
        ensures { option_map defined_by result ≡ font_by self.now.bytes.now self.now.document number }
    {
        match self.places {
            Some(places) => font_among(part(self.bytes, 0, self.document.end), places, number),
            None => font_by(self.bytes, self.document, number),
        }
    }

    // The document's bytes before its postamble.
    pub fn before_postamble(&self) -> &'a [u8]
        ensures { result.now ≡ take self.now.document.post self.now.bytes.now }
    {
        part(self.bytes, 0, self.document.post)
    }
}

// The same among places that are sorted by their numbers.
fn font_among<'a>(front: &'a [u8], places: &[u32], number: u32) -> Option<Definition<'a>>
    requires { IsNonDecreasingBy (number_at front.now) places.now }
    ensures { option_map defined_by result ≡ defined_in front.now (first_among front.now number places.now) }
{
    let place = *places.get(from_number(front, places, number))?;
    numbered(definition_here(front, place as usize), number)
}

// Which of the places is the first whose number is not lower.
fn from_number(front: &[u8], places: &[u32], number: u32) -> usize
    requires { IsNonDecreasingBy (number_at front.now) places.now }
    ensures { IsPartitionPoint (λ p. nat_lt (number_at front.now p) number ≡ true) (λ p. nat_lt (number_at front.now p) number ≡ false) places.now result }
{
    places.partition_point(|p| number_at(front, *p) < u64::from(number))
}

// A definition, if its number is this one.
fn numbered<'a>(definition: Option<Definition<'a>>, number: u32) -> Option<Definition<'a>>
    ensures { option_map defined_by result ≡ cond (has_number number (number_by (option_map defined_by definition.entry))) (option_map defined_by definition.entry) None }
{
    definition.filter(|d| d.number == number)
}

// The definition at a place, if one stands there.
#[tactic(auto, unfolding(crate::specs::Fonts::defined_at))]
fn definition_here(front: &[u8], at: usize) -> Option<Definition<'_>>
    ensures { option_map defined_by result ≡ defined_at front.now at }
{
    definition_at(front, at, width_at(front, at))
}

// Its number.
#[tactic(auto, unfolding(crate::specs::Tables::number_at, crate::specs::Fonts::entry_at))]
pub(crate) fn number_at(front: &[u8], at: u32) -> u64
    ensures value { result ≡ number_at front.now at }
    ensures bound { result ≤ 4294967296 }
{
    definition_here(front, at as usize).map_or(NO_NUMBER, |d| u64::from(d.number))
}
