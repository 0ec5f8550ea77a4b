// A name made from bytes, its bytes again, and a second name of the same bytes.
ghost use Rattle.std.specs.Prelude.{◌≡◌, ⊤};
ghost use Rattle.std.specs.Option.{option_map};
ghost use Rattle.shelf.specs.Names.{kept};
ghost use Rattle.shelf.specs.Spelling.{spelled};

use crate::names::Name;
use std::alloc::AllocError;

impl Name {
    // A name of these bytes; none where they are not 1 to 63.
    pub fn new(bytes: &[u8]) -> Option<Name>
        ensures { option_map spelled result ≡ kept bytes.now }
    {
        let count = bytes.len();
        if count == 0 || count > 63 {
            return None;
        }
        let mut kept = [0; 63];
        kept[..count].copy_from_slice(bytes);
        Some(Name { bytes: kept, count })
    }

    pub fn as_slice(&self) -> &[u8]
        ensures { result.now ≡ spelled self.now }
    {
        &self.bytes[..self.count]
    }
}

// By hand, so that what it gives stands here: the same name again, and it never fails.
impl Clone for Name {
    ghost is_clone = { λ n copy. copy ≡ n };

    ghost is_infallible = { λ _. ⊤ };

    fn clone(&self) -> Result<Name, AllocError> {
        Ok(*self)
    }
}
