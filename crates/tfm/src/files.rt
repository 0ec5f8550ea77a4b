// TFM files: whether these bytes are one, and what it states.
ghost use Rattle.std.specs.Prelude.{◌≡◌, ◌+◌, ◌*◌, ◌^◌, ◌<◌, ◌≤◌, true, length, if◌then◌else◌, Some, None};
ghost use Rattle.std.specs.Option.{option_map};
ghost use Rattle.numbers.specs.Bytes.{number};
ghost use Rattle.shelf.specs.Spelling.{spelled};
ghost use Rattle.tfm.specs.Files.{bc, codes, nw, characters, widths, behind, counts_agree, contents_agree, is_tfm, Fit};
ghost use Rattle.tfm.specs.Outlines.{outlined, outline_of};

use crate::faces::TfmFace;
use crate::words::Words;
use numbers::number;
use shelf::Name;

// The twelve counts take so many bytes.
const COUNTS: usize = 24;

// The header begins with the check sum and the design size.
const CHECKSUM_PLACE: usize = 24;

const DESIGN_PLACE: usize = 28;

// Design sizes are 1 to 2,048 points, in 2^-20 points.
const LEAST_DESIGN: u32 = 1_048_576;

const DESIGN_LIMIT: u32 = 2_147_483_648;

// A file whose counts agree with each other and its length, and whose words are what they should be.
#[derive(Clone, Copy)]
pub(crate) struct TfmFile<'a> {
    bytes: &'a [u8],
    ghost fit: { Fit bytes.now },
}

impl<'a> TfmFile<'a> {
    // None where these bytes are no TFM file.
    pub(crate) fn new(bytes: &'a [u8]) -> Option<TfmFile<'a>>
        ensures { option_map (λ f. f.bytes.now) result ≡ (if is_tfm bytes.now then Some bytes.now else None) }
    {
        if counts_agree(bytes) && contents_agree(bytes) {
            Some(TfmFile { bytes })
        } else {
            None
        }
    }

    // What is kept of the file under a name, where it stands at a place of the shelf's bytes.
    pub(crate) fn face(&self, name: Name, place: usize) -> TfmFace
        requires { place + length self.now.bytes.now ≤ 2 ^ 32 }
        ensures { outline_of result ≡ outlined (spelled name) place self.now.bytes.now }
    {
        let layout = layout_of(self.bytes);
        TfmFace {
            name,
            checksum: number(self.bytes, CHECKSUM_PLACE, 4),
            design: number(self.bytes, DESIGN_PLACE, 4),
            first: layout.first,
            count: layout.codes,
            characters: place + layout.characters,
            widths: place + layout.widths,
        }
    }
}

fn counts_agree(file: &[u8]) -> bool
    ensures is { result ≡ counts_agree file.now }
    ensures room { result ≡ true → widths file.now + 4 * nw file.now ≤ length file.now }
{
    let lf = two(file, 0);
    let lh = two(file, 2);
    let bc = two(file, 4);
    let ec = two(file, 6);
    let nw = two(file, 8);
    lh >= 2
        && bc <= ec + 1
        && ec <= 255
        && (1..=256).contains(&nw)
        && lf == 6 + lh + (ec + 1 - bc) + nw + words_behind(file)
        && file.len() == 4 * lf
}

// The words after the widths, which are not looked at.
fn words_behind(file: &[u8]) -> usize
    ensures value { result ≡ behind file.now }
    ensures bound { result < 2 ^ 20 }
{
    two(file, 10)
        + two(file, 12)
        + two(file, 14)
        + two(file, 16)
        + two(file, 18)
        + two(file, 20)
        + two(file, 22)
}

// The number in two bytes.
fn two(file: &[u8], place: usize) -> usize
    ensures value { result ≡ number file.now place 2 }
    ensures bound { result < 2 ^ 16 }
{
    number(file, place, 2) as usize
}

fn contents_agree(file: &[u8]) -> bool
    requires { widths file.now + 4 * nw file.now ≤ length file.now }
    ensures { result ≡ contents_agree file.now }
{
    let layout = layout_of(file);
    let codes = Words {
        file,
        from: layout.characters,
        n: layout.codes,
    };
    let widths = Words {
        file,
        from: layout.widths,
        n: layout.nw,
    };
    (LEAST_DESIGN..DESIGN_LIMIT).contains(&number(file, DESIGN_PLACE, 4))
        && codes.are_below(layout.nw)
        && widths.are_fix_words()
        && number(file, layout.widths, 4) == 0
}

// Where the tables of a file stand, and how many entries they have.
#[derive(Clone, Copy)]
struct Layout {
    first: usize,
    codes: usize,
    nw: usize,
    characters: usize,
    widths: usize,
}

fn layout_of(file: &[u8]) -> Layout
    ensures { result ≡ record { first = bc file.now; codes = codes file.now; nw = nw file.now; characters = characters file.now; widths = widths file.now } }
{
    let first = two(file, 4);
    let codes = (two(file, 6) + 1).saturating_sub(first);
    let characters = COUNTS + 4 * two(file, 2);
    Layout {
        first,
        codes,
        nw: two(file, 8),
        characters,
        widths: characters + 4 * codes,
    }
}
