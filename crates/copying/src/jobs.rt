// What `flatten` is asked to do.
ghost use Rattle.std.specs.Prelude.{◌≡◌};
ghost use Rattle.terminal.specs.Options.{ToldUnless};
ghost use Rattle.copying.specs.Jobs.{asked, asked_by, is_check, without_check};

use std::alloc::Global;
use terminal::{Failure, Kind, Options};

const KNOWN: [Kind; 4] = [Kind::Tfm, Kind::Rank, Kind::Out, Kind::Pages];

#[derive(Drop)]
pub(crate) struct Job<'a> {
    pub(crate) file: &'a str,
    pub(crate) target: &'a str,
    pub(crate) options: Options<'a>,
    // Whether the file is read back and copied again.
    pub(crate) check: bool,
}

impl<'a> Job<'a> {
    pub(crate) fn parse(words: &'a [String], heap: Global) -> Result<Job<'a>, Failure>
        ensures { ToldUnless (asked words.now) asked_by result }
    {
        let [file, words @ ..] = words else {
            return Err(Failure::Told(format!(in heap; "flatten takes a document")?));
        };
        let (check, words) = without_check(words);
        let options = Options::parse("flatten", &KNOWN, words, heap)?;
        let target = options.needed(options.out, Kind::Out, heap)?;
        Ok(Job {
            file: file.as_str(),
            target,
            options,
            check,
        })
    }
}

// Whether a `--check` stands in front or behind, and the other words.
fn without_check<'a>(words: &'a [String]) -> (bool, &'a [String])
    ensures { (result.0, result.1.now) ≡ without_check words.now }
{
    match words {
        [first, rest @ ..] if is_check(first) => (true, rest),
        [rest @ .., last] if is_check(last) => (true, rest),
        _ => (false, words),
    }
}

fn is_check(word: &String) -> bool
    ensures { result ≡ is_check word.now }
{
    word.as_str() == "--check"
}
