// What `character` answers and leaves, over the file of 44 bytes.
use crate::sample::{SAMPLE, entry};
use shelf::{Asked, FacesAlone, Link, Mark, Refusal, Shelf};
use std::process::Abort;
use std::test::Fail;
use tfm::TfmShelf;

const NO_MARK: Mark = Mark::Rule {
    height: 0,
    width: 0,
    h: -1,
    v: -1,
};

const NO_LINK: Link = Link {
    font: 9,
    code: 9,
    place: 9,
};

// What a row asks for, how many entries its mark list has, and the marks and the width that come of it,
// or the refusal by its number, as docs/REFUSALS.md lists them.
struct Row {
    asked: Asked,
    room: usize,
    expected: Result<(usize, i64), u8>,
}

const ROWS: [Row; 12] = [
    Row {
        asked: Asked {
            font: 0,
            size: 655_360,
            code: 65,
            h: 100,
            v: 200,
        },
        room: 2,
        expected: Ok((1, 327_680)),
    },
    Row {
        asked: Asked {
            font: 0,
            size: 655_360,
            code: 65,
            h: 100,
            v: 200,
        },
        room: 0,
        expected: Err(19),
    },
    Row {
        asked: Asked {
            font: 0,
            size: 655_360,
            code: 66,
            h: 100,
            v: 200,
        },
        room: 0,
        expected: Err(16),
    },
    Row {
        asked: Asked {
            font: 0,
            size: 655_360,
            code: 64,
            h: 100,
            v: 200,
        },
        room: 2,
        expected: Err(16),
    },
    Row {
        asked: Asked {
            font: 0,
            size: 655_360,
            code: 66,
            h: 1_073_741_824,
            v: 0,
        },
        room: 2,
        expected: Err(17),
    },
    Row {
        asked: Asked {
            font: 0,
            size: 655_360,
            code: 65,
            h: 0,
            v: -1_073_741_824,
        },
        room: 2,
        expected: Err(17),
    },
    Row {
        asked: Asked {
            font: 0,
            size: 655_360,
            code: 65,
            h: 1_073_741_823,
            v: -1_073_741_823,
        },
        room: 2,
        expected: Ok((1, 327_680)),
    },
    Row {
        asked: Asked {
            font: 0,
            size: 0,
            code: 66,
            h: 1_073_741_824,
            v: 0,
        },
        room: 2,
        expected: Err(18),
    },
    Row {
        asked: Asked {
            font: 0,
            size: 134_217_728,
            code: 65,
            h: 0,
            v: 0,
        },
        room: 2,
        expected: Err(18),
    },
    Row {
        asked: Asked {
            font: 0,
            size: 134_217_727,
            code: 65,
            h: 0,
            v: 0,
        },
        room: 2,
        expected: Ok((1, 67_108_856)),
    },
    Row {
        asked: Asked {
            font: 1,
            size: 0,
            code: 66,
            h: 1_073_741_824,
            v: 0,
        },
        room: 2,
        expected: Err(14),
    },
    Row {
        asked: Asked {
            font: 0,
            size: 1,
            code: 65,
            h: 0,
            v: 0,
        },
        room: 1,
        expected: Ok((1, 0)),
    },
];

fn answers<S: Shelf>(rt: &impl Abort, shelf: &S, row: &Row) {
    let mut marks = [NO_MARK; 2];
    let mut chain = [NO_LINK; 1];
    let room = row.room.min(2);
    let answer = shelf.character(row.asked, &mut chain, &mut marks[..room]);
    assert_eq!(rt; answer.map_err(Refusal::number), row.expected);
    let first = match row.expected {
        Ok((1, _)) => placed(row.asked).unwrap_or(NO_MARK),
        _ => NO_MARK,
    };
    assert_eq!(rt; marks, [first, NO_MARK]);
    assert_eq!(rt; chain, [NO_LINK]);
}

// The glyph that was asked for.
fn placed(asked: Asked) -> Option<Mark> {
    Some(Mark::Glyph {
        face: asked.font,
        size: asked.size,
        code: asked.code,
        h: i32::try_from(asked.h).ok()?,
        v: i32::try_from(asked.v).ok()?,
    })
}

#[test]
fn a_face_answers_by_the_rules(rt: HostRuntime) -> Result<(), Fail> {
    let Ok(shelf) = TfmShelf::new(&SAMPLE, &[entry()], rt.alloc()) else {
        return Err(Fail::new("no shelf"));
    };
    for row in ROWS.iter() {
        answers(&rt, &shelf, row);
    }
    let alone = FacesAlone(shelf);
    for row in ROWS.iter() {
        answers(&rt, &alone, row);
    }
    Ok(())
}
