// How a command ended.
ghost use Rattle.std.specs.Prelude.{◌≡◌};
ghost use Rattle.terminal.specs.Endings.{status_of};

#[derive(Clone, Copy, Debug, Eq, PartialEq)]
pub enum Ended {
    // It did what it was asked.
    Done,
    // The library refused what was asked for, and the refusal is printed.
    Refused,
    // What it compared differs, and where is printed.
    Differs,
    // There is no such command, and the user is shown how the program is called.
    Misused,
}

impl Ended {
    // The status that the program ends with.
    pub fn status(self) -> u8
        ensures { result ≡ status_of self }
    {
        match self {
            Ended::Done => 0,
            Ended::Refused | Ended::Differs | Ended::Misused => 1,
        }
    }
}
