// What is told of a refused file.
ghost use Rattle.std.specs.Prelude.{◌≡◌};
ghost use Rattle.answers.specs.Places.{place_in};

use crate::meanings::meaning;
use shelf::Refusal;
use std::alloc::{AllocError, Global};
use terminal::Failure;

// By the file that it is about, where it is about one, and the place in it, where it has one.
pub fn refused(file: Option<&str>, refusal: Refusal, heap: Global) -> Result<Failure, AllocError> {
    let number = refusal.number();
    let words = meaning(&refusal);
    Ok(Failure::Told(match (file, place_of(refusal)) {
        (Some(file), Some(place)) => {
            format!(in heap; "{file}: refused {number} at place {place}: {words}")?
        }
        (Some(file), None) => format!(in heap; "{file}: refused {number}: {words}")?,
        _ => format!(in heap; "refused {number}: {words}")?,
    }))
}

// The place in a file that a refusal returns. Others return a length or the number of an entry.
pub fn place_of(refusal: Refusal) -> Option<usize>
    ensures { result ≡ place_in refusal }
{
    match refusal {
        Refusal::NotDocument { place }
        | Refusal::WrongUnits { place }
        | Refusal::BrokenPages { place } => Some(place),
        Refusal::BrokenPostamble { place }
        | Refusal::BrokenVf { place }
        | Refusal::NotBelow { place } => Some(place),
        _ => None,
    }
}
