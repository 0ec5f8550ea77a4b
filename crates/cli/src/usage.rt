// How the program is called: each command, and all of them.
use crate::named::Command;
use std::fmt;

// In the order in which they are shown.
const COMMANDS: [Command; 8] = [
    Command::Flatten,
    Command::Marks,
    Command::Pages,
    Command::Fonts,
    Command::Faces,
    Command::Character,
    Command::Replay,
    Command::Help,
];

impl Command {
    // How one command is called, and what it does.
    pub(crate) fn usage(self) -> &'static str {
        match self {
            Command::Flatten => FLATTEN,
            Command::Marks => MARKS,
            Command::Pages => PAGES,
            Command::Fonts => FONTS,
            Command::Faces => FACES,
            Command::Character => CHARACTER,
            Command::Replay => REPLAY,
            Command::Help => HELP,
        }
    }
}

// How all commands are called.
#[derive(Clone, Copy)]
pub(crate) struct Usage;

impl fmt::Display for Usage {
    fn fmt<W: fmt::Write>(&self, f: &mut fmt::Formatter<W>) -> fmt::Result {
        f.write_str("dviflat reads TeX's DVI through virtual fonts, and writes it out flat\n")?;
        for command in COMMANDS {
            write!(f, "\n{}", command.usage())?;
        }
        f.write_str(LOOKED_UP)
    }
}

const LOOKED_UP: &str = "
Where flatten or marks is given no fonts, the script dviflat looks for those of
the document by kpsewhich.
";

const FLATTEN: &str = "  dviflat flatten DOC -o OUT [--pages A-B] [--check]
          [--tfm NAME=FILE.. --rank NAME=FILE,NAME=FILE..]
      copies the pages to a file whose fonts are faces alone, and shows how
      many pages, marks, pairs and bytes there are; --check, first or last,
      reads the file back and copies it again, and compares
";

const MARKS: &str = "  dviflat marks DOC PAGE [--tfm NAME=FILE.. --rank NAME=FILE,NAME=FILE..]
      shows the ten counts of a page and its marks, one a line; or the refusal,
      and where it happened
";

const PAGES: &str = "  dviflat pages DOC
      shows how many pages a DVI document has and its magnification, where each
      page begins and its ten counters, and the fonts that are defined
";

const FONTS: &str = "  dviflat fonts FILE
      shows the names of the fonts that a DVI document or a VF file defines,
      one a line
";

const FACES: &str = "  dviflat faces --tfm NAME=FILE.. [--size S --text TEXT]
      makes a shelf of the TFM files, and shows of each face its check sum,
      its design size and how many characters it has; at a size of S DVI units
      (1 to 134217727), also how wide each character of TEXT is
";

const CHARACTER: &str = "  dviflat character --tfm NAME=FILE.. --rank NAME=FILE,NAME=FILE..
          --font NAME --size S --code C [--at H,V]
      makes a shelf of the TFM files and puts the VF files of each --rank on
      top, at most four ranks, the lowest first; shows the marks of character C
      (0 to 255) of the font NAME at a size of S DVI units, set at H,V or else
      at 0,0, and its width; or the refusal, and where it happened
";

const REPLAY: &str = "  dviflat replay SCRIPT [--expect FILE]
      runs a script of calls on the library, and prints the answer to each; or
      compares the answers with those in FILE, and shows which cases differ
";

const HELP: &str = "  dviflat help [COMMAND]
      shows how the program is called, or one command; so does --help behind a
      command
";
