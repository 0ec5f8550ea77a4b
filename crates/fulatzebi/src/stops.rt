// Why a call ends early, and at what.
ghost use Rattle.std.specs.Prelude.{◌≡◌};
ghost use Rattle.fulatzebi.specs.declared.stops.Step.TheVariants.{Call};
ghost use Rattle.fulatzebi.specs.declared.stops.Why.TheVariants.{NoMemory, Refused};

use shelf::Refusal;
use std::alloc::AllocError;

// A refusal of the library; or want of memory, or a record that names what is not there, for neither of which it has a
// number.
#[derive(Clone, Copy, Debug, Eq, PartialEq)]
pub(crate) enum Why {
    Refused(Refusal),
    NoMemory,
    BadRecord,
}

// What was refused: the index counts the fonts of a rank, or the pages to copy, from 0.
#[derive(Clone, Copy, Debug, Eq, PartialEq)]
pub(crate) enum Step {
    Call,
    Font { rank: u32, index: usize },
    Document,
    Page { index: usize },
    Closing,
}

#[derive(Clone, Copy, Debug, Eq, PartialEq)]
pub(crate) struct Stop {
    pub(crate) step: Step,
    pub(crate) why: Why,
}

impl Step {
    pub(crate) fn refused(self, refusal: Refusal) -> Stop
        ensures { result ≡ record { step = self; why = Refused refusal } }
    {
        Stop {
            step: self,
            why: Why::Refused(refusal),
        }
    }
}

// Want of memory, which no part of a call is to blame for.
impl From<AllocError> for Stop {
    ghost from_gives = { λ e r. r ≡ record { step = Call; why = NoMemory } };

    fn from(_error: AllocError) -> Stop {
        Stop {
            step: Step::Call,
            why: Why::NoMemory,
        }
    }
}
