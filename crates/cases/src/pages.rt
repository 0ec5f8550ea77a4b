// A copy of one page: what is written for it, and when it is refused.
use crate::sample::{SAMPLE, entry};
use pairs::PairTable;
use shelf::{Mark, Refusal, Shelf};
use std::process::Abort;
use std::test::Fail;
use tfm::TfmShelf;
use writing::{
    Opening, Standing, append_closing, append_page, closed_length, measure_page, write_front,
};

// What stands in an output before.
const BLANK: u8 = 7;

// A glyph of b at 10 points, five points to the right.
const MARKS: [Mark; 1] = [Mark::Glyph {
    face: 0,
    size: 655_360,
    code: 65,
    h: 327_680,
    v: 0,
}];

// Counts 1 and 7, the others 0.
const COUNTS: [u8; 40] = [
    0, 0, 0, 1, 0, 0, 0, 0, 0, 0, 0, 0, 0, 0, 0, 0, 0, 0, 0, 0, 0, 0, 0, 0, 0, 0, 0, 0, 0, 0, 0, 0,
    0, 0, 0, 0, 0, 0, 0, 7,
];

const OPENING: Opening = Opening {
    mag: 1000,
    l: 20,
    u: 30,
};

const FRONT: [u8; 15] = [247, 2, 1, 131, 146, 192, 28, 59, 0, 0, 0, 0, 3, 232, 0];

// The page behind its counts: no page before, right, a definition, its selection, the glyph, the end.
const PAGE: [u8; 29] = [
    255, 255, 255, 255, 145, 5, 0, 0, 243, 0, 0, 0, 0, 0, 0, 10, 0, 0, 0, 10, 0, 0, 0, 1, 98, 171,
    133, 65, 140,
];

const CLOSING: [u8; 59] = [
    248, 0, 0, 0, 15, 1, 131, 146, 192, 28, 59, 0, 0, 0, 0, 3, 232, 0, 0, 0, 20, 0, 0, 0, 30, 0, 0,
    0, 1, 243, 0, 0, 0, 0, 0, 0, 10, 0, 0, 0, 10, 0, 0, 0, 1, 98, 249, 0, 0, 0, 85, 2, 223, 223,
    223, 223, 223, 223, 223,
];

// The file as DVItype reads it: its page at 15, its postamble at 85.
fn is_written(out: &[u8]) -> bool {
    out.get(..15) == Some(FRONT.as_slice())
        && out.get(15) == Some(&139)
        && out.get(16..56) == Some(COUNTS.as_slice())
        && out.get(56..85) == Some(PAGE.as_slice())
        && out.get(85..144) == Some(CLOSING.as_slice())
}

// Puts the page behind the front, in an output of so many bytes; the answer, and how many pairs there are then.
fn page_in<S: Shelf>(shelf: &S, table: &mut PairTable, out: &mut [u8]) -> Result<Standing, u8> {
    let standing = write_front(OPENING, out).map_err(Refusal::number)?;
    append_page(shelf, table, standing, &COUNTS, &MARKS, out).map_err(Refusal::number)
}

fn closes<S: Shelf>(rt: &impl Abort, shelf: &S) {
    let mut table = PairTable::new();
    let mut out = [BLANK; 146];
    let after = Standing {
        used: 85,
        last: 15,
        pages: 1,
    };
    assert_eq!(rt; page_in(shelf, &mut table, &mut out), Ok(after));
    assert_eq!(rt; table.len(), 1);
    assert_eq!(rt; closed_length(shelf, &table, after), 144);
    let closed = append_closing(shelf, &table, OPENING, after, &mut out);
    assert_eq!(rt; closed.map_err(Refusal::number), Ok(144));
    assert!(rt; is_written(&out));
    assert_eq!(rt; &out[144..], [BLANK; 2].as_slice());
}

// One byte is wanting for the closing.
fn has_no_room<S: Shelf>(rt: &impl Abort, shelf: &S) {
    let mut table = PairTable::new();
    let mut out = [BLANK; 143];
    assert_eq!(rt; page_in(shelf, &mut table, &mut out), Err(24));
    assert_eq!(rt; table.len(), 0);
    assert_eq!(rt; &out[..15], FRONT.as_slice());
    assert_eq!(rt; &out[15..], [BLANK; 128].as_slice());
}

// Glyphs of the face at sizes 1, 2 and so on.
fn at_sizes<S: Shelf>(shelf: &S, count: usize) -> (Result<usize, u8>, usize) {
    let mut marks = [MARKS[0]; 65];
    for (k, mark) in marks.iter_mut().enumerate() {
        *mark = Mark::Glyph {
            face: 0,
            size: k as u32 + 1,
            code: 65,
            h: 0,
            v: 0,
        };
    }
    let mut table = PairTable::new();
    let standing = Standing {
        used: 15,
        last: u32::MAX,
        pages: 0,
    };
    let used = measure_page(shelf, &mut table, standing, &marks[..count.min(65)]);
    (used.map_err(Refusal::number), table.len())
}

#[test]
fn a_page_is_written_and_closed(rt: HostRuntime) -> Result<(), Fail> {
    let Ok(shelf) = TfmShelf::new(&SAMPLE, &[entry()], rt.alloc()) else {
        return Err(Fail::new("no shelf"));
    };
    closes(&rt, &shelf);
    has_no_room(&rt, &shelf);
    // 45 bytes, then 20 for each glyph: a definition of 17, a selection and 2; then the end
    assert_eq!(rt; at_sizes(&shelf, 64), (Ok(15 + 45 + 64 * 20 + 1), 64));
    assert_eq!(rt; at_sizes(&shelf, 65), (Err(23), 64));
    Ok(())
}
