// `faces`: shows what a shelf of TFM files holds.
ghost use Rattle.std.specs.Prelude.{◌≡◌, ◌<◌, ◌≤◌, pos};
ghost use Rattle.shelf.specs.Answers.{answer};
ghost use Rattle.shelf.specs.Meaning.{called};
ghost use Rattle.inspect.specs.Widths.{width_answered};

use crate::points::Points;
use shelf::{Asked, Mark, Shelf};
use terminal::{Ended, Failure, Kind, Options, Output};
use tfm::TfmShelf;

const KNOWN: [Kind; 3] = [Kind::Tfm, Kind::Size, Kind::Text];

pub fn show_faces(rt: &HostRuntime, words: &[String]) -> Result<Ended, Failure> {
    let heap = rt.alloc();
    let options = Options::parse("faces", &KNOWN, words, heap)?;
    if options.fonts.is_empty() {
        return Err(Failure::Told(format!(in heap; "faces: give at least one --tfm NAME=FILE")?));
    }
    let sample = match (options.size, options.text) {
        (Some(size), Some(text)) => Some((size, text.as_bytes())),
        (None, None) => None,
        _ => return Err(Failure::Told(format!(in heap; "faces: --size and --text go together")?)),
    };
    let shelf = stacks::faces_of(rt, options.fonts.as_slice())?;
    let mut out = Output::new(rt);
    for k in 0..shelf.count().faces {
        if k > 0 {
            writeln!(out, "");
        }
        let face = FaceOn { shelf: &shelf, k };
        face.describe(&mut out);
        if let Some((size, text)) = sample {
            face.measure(size, text, &mut out);
        }
    }
    out.finish()?;
    Ok(Ended::Done)
}

// A face of a shelf, by its number.
#[derive(Clone, Copy)]
struct FaceOn<'a> {
    shelf: &'a TfmShelf,
    k: u16,
}

impl FaceOn<'_> {
    fn describe(&self, out: &mut Output) {
        let Some(face) = self.shelf.face(self.k) else {
            return;
        };
        write!(out, "face {}  ", self.k);
        out.write_bytes(face.name);
        let checksum = face.checksum;
        writeln!(out, "\n  check sum    {checksum} (octal {checksum:o})");
        writeln!(out, "  design size  {} pt", Points(face.design));
        writeln!(out, "  characters   {}", self.characters());
    }

    // The width of each byte of the text, and their sum.
    fn measure(&self, size: u32, text: &[u8], out: &mut Output) {
        writeln!(out, "  at size      {size}");
        let mut sum = 0i64;
        for code in text {
            write!(out, "    {}  code {code:>3}  width ", shown(*code));
            match self.width(size, *code) {
                Some(width) => {
                    writeln!(out, "{width:>11}");
                    sum = sum.saturating_add(width);
                }
                None => writeln!(out, "       none"),
            }
        }
        writeln!(out, "  sum          {sum}");
    }

    // How many codes the face has a character for.
    fn characters(&self) -> usize {
        (0..=u8::MAX)
            .filter(|code| self.width(UNIT_SIZE, *code).is_some())
            .count()
    }

    // The width that the code comes to at a size, in no more marks than one; none where it is refused.
    fn width(&self, size: u32, code: u8) -> Option<i64>
        ensures { result ≡ width_answered (answer (called (⟦<TfmShelf as Shelf>⟧.means self.now.shelf.now) self.now.k size code (pos 0) (pos 0)) 1) }
    {
        let mut marks = [Mark::Rule {
            height: 0,
            width: 0,
            h: 0,
            v: 0,
        }];
        let asked = Asked {
            font: self.k,
            size,
            code,
            h: 0,
            v: 0,
        };
        let answer = self.shelf.character(asked, &mut [], &mut marks);
        answer.ok().map(|(_, width)| width)
    }
}

// A byte as it is printed: itself where it is a visible ASCII letter, else a blank.
fn shown(code: u8) -> char
    ensures visible { 33 ≤ code → code ≤ 126 → result ≡ code }
    ensures low { code < 33 → result ≡ 32 }
    ensures high { 126 < code → result ≡ 32 }
{
    match code {
        b'!'..=b'~' => char::from(code),
        _ => ' ',
    }
}

// At this size a width is the fix_word itself, and every face's widths are in range.
const UNIT_SIZE: u32 = 1_048_576;
