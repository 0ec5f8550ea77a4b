// Why a line of a script is not carried out.
ghost use Rattle.std.specs.Prelude.{◌≡◌};
ghost use Rattle.script.specs.declared.problems.Problem.TheVariants.{NoMemory};
ghost use Rattle.replay.specs.Stops.{stop_of};
ghost use Rattle.replay.specs.declared.stops.Stop.TheVariants.{Senseless, Refused};

use script::Problem;
use shelf::Refusal;
use std::alloc::AllocError;
use tfm::NotMade;

// The line makes no sense where it stands, or the library refuses the call.
#[derive(Clone, Copy)]
pub enum Stop {
    Senseless(Problem),
    Refused(Refusal),
}

impl From<Problem> for Stop {
    ghost from_gives = { λ problem r. r ≡ Senseless problem };

    fn from(problem: Problem) -> Stop {
        Stop::Senseless(problem)
    }
}

impl From<Refusal> for Stop {
    ghost from_gives = { λ refusal r. r ≡ Refused refusal };

    fn from(refusal: Refusal) -> Stop {
        Stop::Refused(refusal)
    }
}

impl From<AllocError> for Stop {
    ghost from_gives = { λ error r. r ≡ Senseless (NoMemory error) };

    fn from(error: AllocError) -> Stop {
        Stop::Senseless(Problem::NoMemory(error))
    }
}

impl From<NotMade> for Stop {
    ghost from_gives = { λ why r. r ≡ stop_of why };

    fn from(why: NotMade) -> Stop {
        match why {
            NotMade::Refused(refusal) => refusal.into(),
            NotMade::NoMemory(error) => error.into(),
        }
    }
}
