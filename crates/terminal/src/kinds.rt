// The options: the words that name them, and what each takes.
ghost use Rattle.std.specs.Prelude.{◌≡◌};
ghost use Rattle.terminal.specs.Words.{named, word_of};

// What an option gives.
#[derive(Clone, Copy)]
pub enum Kind {
    Tfm,
    Rank,
    Font,
    Size,
    Code,
    At,
    Text,
    Out,
    Pages,
}

impl Kind {
    // The one of these options that a word names.
    pub fn named(kinds: &[Kind], word: &str) -> Option<Kind>
        ensures { result ≡ named kinds.now word.now }
    {
        kinds.iter().copied().find(|kind| kind.word() == word)
    }

    pub fn word(self) -> &'static str
        ensures { result.now ≡ word_of self }
    {
        match self {
            Kind::Tfm => "--tfm",
            Kind::Rank => "--rank",
            Kind::Font => "--font",
            Kind::Size => "--size",
            Kind::Code => "--code",
            Kind::At => "--at",
            Kind::Text => "--text",
            Kind::Out => "-o",
            Kind::Pages => "--pages",
        }
    }

    // The values that it takes, in words.
    pub fn takes(self) -> &'static str {
        match self {
            Kind::Tfm => "NAME=FILE",
            Kind::Rank => "NAME=FILE,NAME=FILE.., at most four times",
            Kind::Font => "a name",
            Kind::Size => "a number from 1 to 134217727",
            Kind::Code => "a number from 0 to 255",
            Kind::At => "two numbers, as H,V",
            Kind::Text => "a text",
            Kind::Out => "a file",
            Kind::Pages => "two numbers, as A-B",
        }
    }
}
