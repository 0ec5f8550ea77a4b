// Why a line of a script is not carried out.
ghost use Rattle.std.specs.Prelude.{◌≡◌, alloc_error};
ghost use Rattle.script.specs.declared.problems.Problem.TheVariants.{NoMemory};

use std::alloc::{AllocError, AllocFailed};
use thiserror::Error;

// The line is answered by `error` and these words, and the script goes on.
#[derive(Clone, Copy, Debug, Error)]
pub enum Problem {
    #[error("no line begins with this word")]
    NoSuchLine,
    #[error("too few or too many words")]
    WrongCount,
    #[error("a word is no number")]
    NotNumber,
    #[error("a word does not spell bytes")]
    NotBytes,
    #[error("no byte is so large")]
    NotByte,
    #[error("the path is no text")]
    NotText,
    #[error("no bytes of that name")]
    NoSuchBytes,
    #[error("the file cannot be read")]
    NoSuchFile,
    #[error("no shelf yet")]
    NoShelf,
    #[error("the shelf is no rank")]
    NoRank,
    #[error("a script has at most four ranks, and none over the faces alone")]
    NoRankHere,
    #[error("no run is open")]
    NoRun,
    #[error("the output has no such place")]
    NoSuchPlace,
    #[error("no memory")]
    NoMemory(AllocError),
}

impl From<AllocError> for Problem {
    ghost from_gives = { λ e r. r ≡ NoMemory e };

    fn from(e: AllocError) -> Problem {
        Problem::NoMemory(e)
    }
}

// What could not be stored is dropped.
impl<T: Drop> From<AllocFailed<T>> for Problem {
    ghost from_gives = { λ _ r. r ≡ NoMemory alloc_error };

    fn from(failed: AllocFailed<T>) -> Problem {
        AllocError::from(failed).into()
    }
}
