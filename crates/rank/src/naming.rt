// Virtual fonts by name.
ghost use Rattle.std.specs.Str.{bytes_eq};
ghost use Rattle.shelf.specs.Spelling.{spelled};

use crate::fonts::Font;
use numbers::Keyed;

impl<'k> Keyed<&'k [u8]> for Font {
    ghost has = { λ f k. bytes_eq (spelled f.name) k.now };

    fn has_key(&self, key: &'k [u8]) -> bool {
        self.name.as_slice() == key
    }
}
