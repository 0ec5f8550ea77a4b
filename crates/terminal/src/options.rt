// The options of a command, read from the words behind it.
ghost use Rattle.std.specs.Prelude.{◌≡◌, IfOk};
ghost use Rattle.terminal.specs.Options.{ToldUnless, PutAs, parsed, fresh, taken, put, given_of};

use crate::failure::Failure;
use crate::kinds::Kind;
use crate::values;
use crate::values::Font;
use std::alloc::{AllocError, Global};

// A shelf has at most so many ranks.
const MAX_RANKS: usize = 4;

// What the options give. Of an option that is given twice the last counts; fonts and ranks are kept all.
#[derive(Drop)]
pub struct Options<'a> {
    // The command that they are given to: failures are told under its name.
    command: &'static str,
    // The options that the command takes.
    known: &'static [Kind],
    // The faces to make, each of a TFM file.
    pub fonts: Vec<Font<'a>>,
    // VF files rank by rank, the lowest rank first.
    pub ranks: Vec<Vec<Font<'a>>>,
    pub font: Option<&'a str>,
    // In DVI units.
    pub size: Option<u32>,
    pub code: Option<u8>,
    // A start point, h and v.
    pub at: Option<(i64, i64)>,
    pub text: Option<&'a str>,
    // The file to write.
    pub out: Option<&'a str>,
    // The first page and the last.
    pub pages: Option<(usize, usize)>,
}

impl<'a> Options<'a> {
    // Each option is followed by its value.
    pub fn parse(
        command: &'static str,
        known: &'static [Kind],
        words: &'a [String],
        heap: Global,
    ) -> Result<Options<'a>, Failure>
        ensures { ToldUnless (parsed known.now fresh words.now) given_of result }
    {
        let mut options = Options::none(command, known, heap);
        let mut rest = words;
        while let [option, value, more @ ..] = rest {
            options.take(option.as_str(), value.as_str(), heap)?;
            rest = more;
        }
        if !rest.is_empty() {
            return Err(Failure::Told(format!(in heap; "{command}: each option takes a value")?));
        }
        Ok(options)
    }

    fn none(command: &'static str, known: &'static [Kind], heap: Global) -> Options<'a>
        ensures given { given_of result ≡ fresh }
        ensures known { result.known.now ≡ known.now }
    {
        Options {
            command,
            known,
            fonts: Vec::new(heap),
            ranks: Vec::new(heap),
            font: None,
            size: None,
            code: None,
            at: None,
            text: None,
            out: None,
            pages: None,
        }
    }

    // An option that the command takes, with a value that the option takes.
    fn take(&mut self, option: &str, value: &'a str, heap: Global) -> Result<(), Failure>
        ensures taken { ToldUnless (taken self.old.known.now (given_of self.old) option.now value.now) (λ u. given_of self.new) result }
        ensures known { self.new.known.now ≡ self.old.known.now }
    {
        let command = self.command;
        match Kind::named(self.known, option) {
            None => Err(Failure::Told(format!(in heap; "{command}: no such option: {option}")?)),
            Some(kind) if self.put(kind, value, heap)? => Ok(()),
            Some(kind) => {
                let takes = kind.takes();
                Err(Failure::Told(format!(in heap;
                    "{command}: {option} takes {takes}, not {value}"
                )?))
            }
        }
    }

    // Whether the option takes the value, which is then kept.
    fn put(&mut self, kind: Kind, value: &'a str, heap: Global) -> Result<bool, AllocError>
        ensures put { IfOk result (PutAs (put (given_of self.old) kind value.now) (given_of self.new)) }
        ensures known { self.new.known.now ≡ self.old.known.now }
    {
        Ok(match kind {
            Kind::Tfm => match values::font_of(value) {
                Some(font) => {
                    self.fonts.push(font)?;
                    true
                }
                None => false,
            },
            Kind::Rank => match values::fonts_of(value, heap)? {
                Some(fonts) if self.ranks.len() < MAX_RANKS => {
                    self.ranks.push(fonts)?;
                    true
                }
                _ => false,
            },
            Kind::Font => {
                self.font = Some(value);
                true
            }
            Kind::Size => {
                self.size = values::size_of(value);
                self.size.is_some()
            }
            Kind::Code => {
                self.code = values::code_of(value);
                self.code.is_some()
            }
            Kind::At => {
                self.at = values::point_of(value);
                self.at.is_some()
            }
            Kind::Text => {
                self.text = Some(value);
                true
            }
            Kind::Out => {
                self.out = Some(value);
                true
            }
            Kind::Pages => {
                self.pages = values::range_of(value);
                self.pages.is_some()
            }
        })
    }

    // A value that the command cannot do without.
    pub fn needed<T>(&self, value: Option<T>, kind: Kind, heap: Global) -> Result<T, Failure>
        ensures { ToldUnless value (λ x. x) result }
    {
        match value {
            Some(value) => Ok(value),
            None => {
                let command = self.command;
                let word = kind.word();
                Err(Failure::Told(format!(in heap; "{command}: {word} is missing")?))
            }
        }
    }
}
