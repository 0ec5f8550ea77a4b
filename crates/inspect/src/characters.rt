// `character`: shows what a character comes to: its marks and its width, or why it is refused.
use crate::asking::{Answer, ask};
use crate::chains::show_chain;
use answers::{Told, meaning};
use shelf::{Asked, Shelf};
use stacks::{Task, over_shelf};
use terminal::{Ended, Failure, Kind, Options, Output};

const KNOWN: [Kind; 6] = [
    Kind::Tfm,
    Kind::Rank,
    Kind::Font,
    Kind::Size,
    Kind::Code,
    Kind::At,
];

pub fn show_character(rt: &HostRuntime, words: &[String]) -> Result<Ended, Failure> {
    let heap = rt.alloc();
    let options = Options::parse("character", &KNOWN, words, heap)?;
    let name = options.needed(options.font, Kind::Font, heap)?;
    let size = options.needed(options.size, Kind::Size, heap)?;
    let code = options.needed(options.code, Kind::Code, heap)?;
    let (h, v) = options.at.unwrap_or((0, 0));
    let asked = Asked {
        font: 0,
        size,
        code,
        h,
        v,
    };
    over_shelf(rt, &options, Character { name, asked })
}

// A character of the font that bears a name.
#[derive(Drop)]
struct Character<'a> {
    name: &'a str,
    asked: Asked,
}

impl<'a> Task for Character<'a> {
    fn over<S: Shelf + Drop>(
        self,
        rt: &HostRuntime,
        options: &Options,
        shelf: S,
    ) -> Result<Ended, Failure> {
        let heap = rt.alloc();
        let name = self.name;
        let Some(font) = shelf.find(name.as_bytes()) else {
            return Err(Failure::Told(format!(in heap;
                "character: no font on the shelf has the name {name}"
            )?));
        };
        let asked = Asked { font, ..self.asked };
        show(rt, options, &ask(&shelf, asked, heap)?)
    }
}

// The marks, and behind them the width; or the refusal and its chain, with the marks that were made before it.
fn show(rt: &HostRuntime, options: &Options, told: &Answer) -> Result<Ended, Failure> {
    let mut out = Output::new(rt);
    for mark in told.lists.marks_written() {
        writeln!(out, "{}", Told(*mark));
    }
    let ended = match &told.answer {
        Ok((_, width)) => {
            writeln!(out, "width {width}");
            Ended::Done
        }
        Err(refusal) => {
            writeln!(out, "refused {}: {}", refusal.number(), meaning(refusal));
            show_chain(told.lists.links_written(), options, None, &mut out);
            Ended::Refused
        }
    };
    out.finish()?;
    Ok(ended)
}
