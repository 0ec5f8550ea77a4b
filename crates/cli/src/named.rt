// The commands by their words.
ghost use Rattle.std.specs.Prelude.{◌≡◌};
ghost use Rattle.cli.specs.Commands.{command_named, help_asked};

#[derive(Clone, Copy, Debug, Eq, PartialEq)]
pub enum Command {
    Faces,
    Character,
    Pages,
    Fonts,
    Marks,
    Flatten,
    Replay,
    Help,
}

impl Command {
    pub fn named(word: &str) -> Option<Command>
        ensures { result ≡ command_named word.now }
    {
        match word {
            "faces" => Some(Command::Faces),
            "character" => Some(Command::Character),
            "pages" => Some(Command::Pages),
            "fonts" => Some(Command::Fonts),
            "marks" => Some(Command::Marks),
            "flatten" => Some(Command::Flatten),
            "replay" => Some(Command::Replay),
            "help" | "--help" => Some(Command::Help),
            _ => None,
        }
    }
}

// Whether the words behind a command ask how it is called.
pub fn asks_help(words: &[String]) -> bool
    ensures { result ≡ help_asked words.now }
{
    words.first().is_some_and(|word| word.as_str() == "--help")
}
