// What differs between a page and a packet.
ghost use Rattle.std.specs.Prelude.{◌≡◌};
ghost use Rattle.machine.specs.Acts.{Acts};

use crate::registers::Chosen;
use shelf::{Cause, Link, Shelf};

pub trait Body {
    ghost acts: { Self → Acts };

    // A length parameter or a rule's side as a length; none where it is no fix_word.
    fn measure(&self, b: i64) -> Option<i64>
        ensures { result ≡ (acts self.now).measure b };

    // What a font number selects on the shelf below.
    fn choose<S: Shelf>(&self, below: &S, number: u32) -> Result<Chosen, Cause>
        ensures { result ≡ (acts self.now).choose (S.Shelf.means below.now).names number };

    // A page has eop and definitions, and ends by eop; a packet ends with its bytes.
    fn is_page(&self) -> bool
        ensures { result ≡ (acts self.now).page };

    // The link of this page or packet at a place.
    fn link(&self, place: usize) -> Link
        ensures { result ≡ (acts self.now).link_at place };
}
