// The faces of any shelf as a shelf of their own: font k is face k.
ghost use Rattle.shelf.specs.Alone.{faces_alone, is_called};
ghost use Rattle.std.specs.Prelude.{◌≡◌};
ghost use Rattle.shelf.specs.Meaning.{told_of};
ghost use Rattle.shelf.specs.FaceLaws.{alone_lawful, alone_distinct};

use crate::asked::Asked;
use crate::fonts::{Count, Face, Shelf};
use crate::marks::{Link, Mark};
use crate::refusals::{Cause, Refusal};

#[derive(Drop)]
pub struct FacesAlone<S: Shelf>(pub S);

impl<S: Shelf> FacesAlone<S> {
    // Whether there is a face n, and it bears the name.
    fn bears(&self, n: u16, name: &[u8]) -> bool
        ensures { result ≡ is_called (told_of (S.means self.now.0) n) name.now }
    {
        self.0.face(n).is_some_and(|face| face.name == name)
    }
}

impl<S: Shelf> Shelf for FacesAlone<S> {
    ghost means = { λ s. faces_alone (S.Shelf.means s.0) };

    ghost lawful = { λ s. alone_lawful (S.Shelf.means s.0) (S.Shelf.lawful s.0) };

    // The names of faces are unlike in every shelf.
    ghost distinct = { λ s. alone_distinct (S.Shelf.means s.0) (S.Shelf.lawful s.0) };

    fn count(&self) -> Count {
        let n = self.0.count().faces;
        Count { fonts: n, faces: n }
    }

    fn find(&self, name: &[u8]) -> Option<u16> {
        (0..self.0.count().faces).find(|k| self.bears(*k, name))
    }

    fn face(&self, k: u16) -> Option<Face<'_>> {
        self.0.face(k)
    }

    // Face k is the first font that bears its name.
    fn character(
        &self,
        mut asked: Asked,
        chain: &mut [Link],
        marks: &mut [Mark],
    ) -> Result<(usize, i64), Refusal> {
        asked.start(self.0.count().faces)?;
        let face = self.0.face(asked.font).ok_or(Cause::NoFont)?;
        let font = self.0.find(face.name).ok_or(Cause::NoFont)?;
        asked.font = font;
        self.0.character(asked, chain, marks)
    }
}
