// What a TFM shelf is made from, and why it may not be made.
ghost use Rattle.std.specs.Prelude.{◌≡◌};
ghost use Rattle.tfm.specs.declared.entries.NotMade.TheVariants.{Refused, NoMemory};

use shelf::Refusal;
use std::alloc::AllocError;

// Where a face's name and its TFM file stand in the bytes. Places, not slices: a range that is past the end has a refusal.
#[derive(Clone, Copy)]
pub struct Entry {
    pub name_place: usize,
    pub name_length: usize,
    pub file_place: usize,
    pub file_length: usize,
}

// A refusal, or want of memory, which has no number.
#[derive(Clone, Copy, Debug, Eq, PartialEq)]
pub enum NotMade {
    Refused(Refusal),
    NoMemory(AllocError),
}

impl From<Refusal> for NotMade {
    ghost from_gives = { λ e r. r ≡ Refused e };

    fn from(e: Refusal) -> NotMade {
        NotMade::Refused(e)
    }
}

impl From<AllocError> for NotMade {
    ghost from_gives = { λ e r. r ≡ NoMemory e };

    fn from(e: AllocError) -> NotMade {
        NotMade::NoMemory(e)
    }
}
