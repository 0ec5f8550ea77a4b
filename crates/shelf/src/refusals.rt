// Why a call is refused: each case has a number, and what is returned beside it.
ghost use Rattle.std.specs.Prelude.{◌≡◌};
ghost use Rattle.shelf.specs.declared.refusals.Refusal.TheVariants.{Fault};
ghost use Rattle.shelf.specs.Refusals.{cause_number, returned};

// Why a page or a packet ends in a fault.
#[derive(Clone, Copy, Debug, Eq, PartialEq)]
pub enum Cause {
    NotAllowed,
    PastEnd,
    Frames,
    NoFont,
    NoName,
    NoCode,
    OutOfRange,
    BadSize,
}

// All refusals; docs/REFUSALS.md says when each comes and what it leaves.
#[derive(Clone, Copy, Debug, Eq, PartialEq)]
pub enum Refusal {
    DocumentLength { length: usize },
    NotDocument { place: usize },
    WrongUnits { place: usize },
    BrokenEnding { length: usize },
    BrokenPages { place: usize },
    BrokenPostamble { place: usize },
    BrokenTfm { entry: usize },
    BrokenVf { place: usize },
    ShelfFull,
    TfmName { entry: usize },
    VfName,
    NotBelow { place: usize },
    // a fault, and how many links its chain has
    Fault { cause: Cause, links: usize },
    MarksFull,
    RunClosed,
    NoPage,
    OtherMag,
    PairsFull,
    OutputFull,
    NothingToStrike,
    BadOutput,
}

impl Cause {
    pub fn number(self) -> u8
        ensures { result ≡ cause_number self }
    {
        match self {
            Cause::NotAllowed => 11,
            Cause::PastEnd => 12,
            Cause::Frames => 13,
            Cause::NoFont => 14,
            Cause::NoName => 15,
            Cause::NoCode => 16,
            Cause::OutOfRange => 17,
            Cause::BadSize => 18,
        }
    }
}

// A fault whose chain is still empty.
impl From<Cause> for Refusal {
    ghost from_gives = { λ cause r. r ≡ Fault cause 0 };

    fn from(cause: Cause) -> Refusal {
        Refusal::Fault { cause, links: 0 }
    }
}

impl Refusal {
    pub fn number(self) -> u8
        ensures { result ≡ (returned self).number }
    {
        match self {
            Refusal::DocumentLength { length: _ } => 1,
            Refusal::NotDocument { place: _ } => 2,
            Refusal::WrongUnits { place: _ } => 3,
            Refusal::BrokenEnding { length: _ } => 4,
            Refusal::BrokenPages { place: _ } => 5,
            Refusal::BrokenPostamble { place: _ } => 6,
            Refusal::BrokenTfm { entry: _ } | Refusal::BrokenVf { place: _ } => 7,
            Refusal::ShelfFull => 8,
            Refusal::TfmName { entry: _ } | Refusal::VfName => 9,
            Refusal::NotBelow { place: _ } => 10,
            Refusal::Fault { cause, links: _ } => cause.number(),
            Refusal::MarksFull => 19,
            Refusal::RunClosed => 20,
            Refusal::NoPage => 21,
            Refusal::OtherMag => 22,
            Refusal::PairsFull => 23,
            Refusal::OutputFull => 24,
            Refusal::NothingToStrike => 25,
            Refusal::BadOutput => 26,
        }
    }

    // The length, place or entry that is returned beside the number.
    pub fn value(self) -> Option<usize>
        ensures { result ≡ (returned self).value }
    {
        match self {
            Refusal::DocumentLength { length } | Refusal::BrokenEnding { length } => Some(length),
            Refusal::NotDocument { place } | Refusal::WrongUnits { place } => Some(place),
            Refusal::BrokenPages { place } | Refusal::BrokenPostamble { place } => Some(place),
            Refusal::BrokenVf { place } | Refusal::NotBelow { place } => Some(place),
            Refusal::BrokenTfm { entry } | Refusal::TfmName { entry } => Some(entry),
            _ => None,
        }
    }

    // How many links the chain has, where the refusal returns one.
    pub fn links(self) -> Option<usize>
        ensures { result ≡ (returned self).links }
    {
        match self {
            Refusal::Fault { cause: _, links } => Some(links),
            _ => None,
        }
    }
}
