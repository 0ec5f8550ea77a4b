// Why a command did not do what it was asked.
ghost use Rattle.std.specs.Prelude.{◌≡◌};
ghost use Rattle.terminal.specs.declared.failure.Failure.TheVariants.{Output, NoMemory};

use std::alloc::{AllocError, AllocFailed};
use std::io;
use thiserror::Error;

#[derive(Debug, Drop, Error)]
pub enum Failure {
    // What to tell the user, in one line.
    #[error("{0}")]
    Told(String),
    #[error("{0}")]
    Output(io::Error),
    #[error("no memory")]
    NoMemory(AllocError),
}

// Written out, since a derived `From` does not say which failure it makes.

impl From<io::Error> for Failure {
    ghost from_gives = { λ error r. r ≡ Output error };

    fn from(error: io::Error) -> Failure {
        Failure::Output(error)
    }
}

impl From<AllocError> for Failure {
    ghost from_gives = { λ error r. r ≡ NoMemory error };

    fn from(error: AllocError) -> Failure {
        Failure::NoMemory(error)
    }
}

impl<T: Drop> From<AllocFailed<T>> for Failure {
    ghost from_gives = { λ failed r. (error : _) × (r ≡ NoMemory error) };

    fn from(failed: AllocFailed<T>) -> Failure {
        Failure::NoMemory(failed.into())
    }
}
