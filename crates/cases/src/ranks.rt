// A rank over a rank over a TFM shelf: a character of the upper one expands through both to marks of a face.
use crate::sample::{SAMPLE, entry};
use rank::Rank;
use shelf::{Asked, Cause, Count, Link, Mark, Refusal, Shelf};
use std::alloc::Global;
use std::process::Abort;
use std::test::Fail;
use tfm::TfmShelf;

// The file of 40 bytes in docs/FORMATS.md: code 1, in 5 bytes from place 33 on, moves right by half the size and sets
// code 65 of the font b at the whole size; its width is 1/512 of the size.
const LOWER: [u8; 40] = [
    247, 202, 0, 0, 0, 0, 0, 0, 160, 0, 0, 243, 0, 0, 0, 0, 0, 0, 16, 0, 0, 0, 160, 0, 0, 0, 1, 98,
    5, 1, 0, 8, 0, 145, 8, 0, 0, 65, 248, 248,
];

// A file over it that calls it c, at half the size: code 2 sets code 1 by the command at 33, then by the one at 34 a rule
// as high as the size and half as wide, and by the one at 43 code 1 again; its width is the size.
const UPPER: [u8; 45] = [
    247, 202, 0, 0, 0, 0, 0, 0, 160, 0, 0, 243, 0, 0, 0, 0, 0, 0, 8, 0, 0, 0, 160, 0, 0, 0, 1, 99,
    11, 2, 16, 0, 0, 1, 132, 0, 16, 0, 0, 0, 8, 0, 0, 1, 248,
];

// b is font 0, c font 1 and d font 2.
fn ranks(heap: Global) -> Option<Rank<Rank<TfmShelf>>> {
    let faces = TfmShelf::new(&SAMPLE, &[entry()], heap).ok()?;
    let mut lower = Rank::new(faces, heap).ok()?;
    lower.add(b"c", &LOWER).ok()?;
    let mut upper = Rank::new(lower, heap).ok()?;
    upper.add(b"d", &UPPER).ok()?;
    Some(upper)
}

const NO_MARK: Mark = Mark::Rule {
    height: 0,
    width: 0,
    h: -1,
    v: -1,
};

const NO_LINK: Link = Link {
    font: 9,
    code: 9,
    place: 9,
};

// c at half the size of 1,048,576 makes a glyph of b at 524,288, half of that to the right of where it is set.
fn glyph(h: i32) -> Mark {
    Mark::Glyph {
        face: 0,
        size: 524_288,
        code: 65,
        h,
        v: 200,
    }
}

fn rule(h: i32) -> Mark {
    Mark::Rule {
        height: 1_048_576,
        width: 524_288,
        h,
        v: 200,
    }
}

fn link(font: u16, code: u16, place: usize) -> Link {
    Link { font, code, place }
}

fn asked(code: u8, h: i64) -> Asked {
    Asked {
        font: 2,
        size: 1_048_576,
        code,
        h,
        v: 200,
    }
}

// What is asked for, in a mark list of `room` entries, and what comes of it.
#[derive(Clone, Copy)]
struct Row {
    asked: Asked,
    room: usize,
    expected: Result<(usize, i64), Refusal>,
    marks: [Mark; 3],
    chain: [Link; 3],
}

fn fault(cause: Cause, links: usize) -> Result<(usize, i64), Refusal> {
    Err(Refusal::Fault { cause, links })
}

fn answers(rt: &impl Abort, shelf: &Rank<Rank<TfmShelf>>, row: &Row) {
    let mut marks = [NO_MARK; 3];
    let mut chain = [NO_LINK; 3];
    let answer = shelf.character(row.asked, &mut chain, &mut marks[..row.room.min(3)]);
    assert_eq!(rt; answer, row.expected);
    assert_eq!(rt; marks, row.marks);
    assert_eq!(rt; chain, row.chain);
}

#[test]
fn three_layers_have_three_fonts_and_one_face(rt: HostRuntime) -> Result<(), Fail> {
    let Some(shelf) = ranks(rt.alloc()) else {
        return Err(Fail::new("no shelf"));
    };
    assert_eq!(rt; shelf.count(), Count { fonts: 3, faces: 1 });
    assert_eq!(rt; shelf.find(b"b"), Some(0));
    assert_eq!(rt; shelf.find(b"c"), Some(1));
    assert_eq!(rt; shelf.find(b"d"), Some(2));
    assert_eq!(rt; shelf.find(b"e"), None);
    Ok(())
}

// From 100: c moves by 524,288 / 512 = 1,024, so that the rule stands at 1,124, and c is set again at 525,412.
#[test]
fn a_character_expands_through_both_ranks(rt: HostRuntime) -> Result<(), Fail> {
    let Some(shelf) = ranks(rt.alloc()) else {
        return Err(Fail::new("no shelf"));
    };
    answers(
        &rt,
        &shelf,
        &Row {
            asked: asked(2, 100),
            room: 3,
            expected: Ok((3, 1_048_576)),
            marks: [glyph(262_244), rule(1_124), glyph(787_556)],
            chain: [NO_LINK; 3],
        },
    );
    answers(
        &rt,
        &shelf,
        &Row {
            asked: asked(2, 100),
            room: 2,
            expected: Err(Refusal::MarksFull),
            marks: [glyph(262_244), rule(1_124), NO_MARK],
            chain: [NO_LINK; 3],
        },
    );
    Ok(())
}

// The move in c at 33 goes out of range; what is linked behind it is the command of d that sets c.
#[test]
fn a_fault_has_a_link_for_each_packet_innermost_first(rt: HostRuntime) -> Result<(), Fail> {
    let Some(shelf) = ranks(rt.alloc()) else {
        return Err(Fail::new("no shelf"));
    };
    answers(
        &rt,
        &shelf,
        &Row {
            asked: asked(2, 1_073_741_823),
            room: 3,
            expected: fault(Cause::OutOfRange, 2),
            marks: [NO_MARK; 3],
            chain: [link(1, 1, 33), link(2, 2, 33), NO_LINK],
        },
    );
    answers(
        &rt,
        &shelf,
        &Row {
            asked: asked(2, 1_073_216_511),
            room: 3,
            expected: fault(Cause::OutOfRange, 2),
            marks: [glyph(1_073_478_655), rule(1_073_217_535), NO_MARK],
            chain: [link(1, 1, 33), link(2, 2, 43), NO_LINK],
        },
    );
    answers(
        &rt,
        &shelf,
        &Row {
            asked: asked(3, 100),
            room: 3,
            expected: fault(Cause::NoCode, 0),
            marks: [NO_MARK; 3],
            chain: [NO_LINK; 3],
        },
    );
    Ok(())
}
