// A character that is asked for, and the checks that every call begins with.
ghost use Rattle.std.specs.Prelude.{◌≡◌, if◌then◌else◌, Some, None};
ghost use Rattle.numbers.specs.Lengths.{in_range};
ghost use Rattle.shelf.specs.Meaning.{point_at, started};

use crate::refusals::Cause;
use numbers::{in_range, is_size};

// A font of the shelf, a size, a code, and the start point.
#[derive(Clone, Copy, Debug, Eq, PartialEq)]
pub struct Asked {
    pub font: u16,
    pub size: u32,
    pub code: u8,
    pub h: i64,
    pub v: i64,
}

impl Asked {
    // The start point as a mark has it, or the first check that fails: the font, of which there are so many, the size,
    // the point.
    pub fn start(self, fonts: u16) -> Result<(i32, i32), Cause>
        ensures { result ≡ started fonts self.font self.size self.h self.v }
    {
        if self.font >= fonts {
            return Err(Cause::NoFont);
        }
        if !is_size(self.size) {
            return Err(Cause::BadSize);
        }
        point(self.h, self.v).ok_or(Cause::OutOfRange)
    }
}

// A point in range, as a mark has it.
pub fn point(h: i64, v: i64) -> Option<(i32, i32)>
    ensures { result ≡ point_at h v }
{
    Some((position(h)?, position(v)?))
}

fn position(z: i64) -> Option<i32>
    ensures { result ≡ (if in_range z then Some z else None) }
{
    if in_range(z) { Some(z as i32) } else { None }
}
