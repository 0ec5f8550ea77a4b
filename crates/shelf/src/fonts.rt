// The trait that makes a shelf: what it means, what it keeps to, and its four calls.
ghost use Rattle.std.specs.Prelude.{◌≡◌, length};
ghost use Rattle.shelf.specs.Answers.{Answered};
ghost use Rattle.shelf.specs.Laws.{Lawful};
ghost use Rattle.shelf.specs.Meaning.{Meaning, called, told_of};
ghost use Rattle.shelf.specs.Names.{Distinct, found_in};
ghost use Rattle.shelf.specs.Telling.{telling};

use crate::asked::Asked;
use crate::marks::{Link, Mark};
use crate::refusals::Refusal;

// What a shelf tells of a face; the design size is in 2^-20 points.
#[derive(Clone, Copy)]
pub struct Face<'a> {
    pub name: &'a [u8],
    pub checksum: u32,
    pub design: u32,
}

#[derive(Clone, Copy, Debug, Eq, PartialEq)]
pub struct Count {
    pub fonts: u16,
    pub faces: u16,
}

pub trait Shelf {
    ghost means: { Self → Meaning };

    fn count(&self) -> Count
        ensures fonts { result.fonts ≡ length (means self.now).names }
        ensures faces { result.faces ≡ length (means self.now).faces };

    // The first font that bears the name.
    fn find(&self, name: &[u8]) -> Option<u16>
        ensures { result ≡ found_in (means self.now).names name.now };

    // What is told of face k; none where there is no such face.
    fn face(&self, k: u16) -> Option<Face<'_>>
        ensures { telling result ≡ told_of (means self.now) k };

    // A character: its marks at the front of `marks`, the unused rest of the caller's list.
    // Answers the marks written and the width, or a refusal; a fault's chain stands at the front of `chain`.
    // The two lists stay two parameters: one value that holds both would be made anew for each call that gets the rest of
    // the marks, and a clause sees what such a value lends only by its state at the entry and the exit.
    fn character(
        &self,
        asked: Asked,
        chain: &mut [Link],
        marks: &mut [Mark],
    ) -> Result<(usize, i64), Refusal>
        ensures { Answered (called (means self.now) asked.font asked.size asked.code asked.h asked.v) chain.old chain.new marks.old marks.new result };

    ghost lawful: { (s : Self) → Lawful (means s) };

    // No name is twice, across all layers of a shelf.
    ghost distinct: { (s : Self) → Distinct (means s).names };
}
