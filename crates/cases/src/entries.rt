// What the maker of a TFM shelf answers for sound and for damaged input.
use crate::sample::{FILE_LENGTH, SAMPLE, entry, outcome};
use shelf::Refusal;
use std::alloc::Global;
use std::test::Fail;
use tfm::{Entry, NotMade};

// The first entry's file is none.
const BROKEN: NotMade = NotMade::Refused(Refusal::BrokenTfm { entry: 0 });

const FULL: NotMade = NotMade::Refused(Refusal::ShelfFull);

// A place in the file and the byte put there, each of which breaks the file.
const BREAKING: [(usize, u8); 22] = [
    // lf one less and one more, lh 1 and 3
    (1, 10),
    (1, 12),
    (3, 1),
    (3, 3),
    // bc and ec out of step with lf, bc above ec + 1, ec above 255
    (5, 64),
    (5, 66),
    (5, 67),
    (6, 1),
    (7, 66),
    // nw 0, 1, 3 and above 256
    (9, 0),
    (9, 1),
    (9, 3),
    (8, 1),
    // each of two counts behind the widths
    (11, 1),
    (23, 1),
    // design size 0, below 1 point, and 2^31
    (29, 0),
    (29, 15),
    (28, 128),
    // a width index of nw, a first width that is not 0, a width that is no fix_word
    (32, 2),
    (39, 1),
    (40, 1),
    (40, 254),
];

// A place and a byte, with which the file is still one.
const HARMLESS: [(usize, u8); 6] = [
    // another check sum, a design size of 1 point, the largest
    (24, 255),
    (29, 16),
    (28, 127),
    // no character, bytes of a code's word that are passed over, a negative width
    (32, 0),
    (35, 255),
    (40, 255),
];

fn patched(place: usize, byte: u8, heap: Global) -> Result<(), NotMade> {
    let mut bytes = SAMPLE;
    if place < FILE_LENGTH {
        bytes[place] = byte;
    }
    outcome(&bytes, &[entry()], heap)
}

#[test]
fn refusals_have_their_numbers(rt: HostRuntime) {
    assert_eq!(rt; Refusal::BrokenTfm { entry: 0 }.number(), 7);
    assert_eq!(rt; Refusal::ShelfFull.number(), 8);
    assert_eq!(rt; Refusal::TfmName { entry: 0 }.number(), 9);
    assert_eq!(rt; Refusal::BrokenTfm { entry: 0 }.value(), Some(0));
    assert_eq!(rt; Refusal::ShelfFull.value(), None);
    assert_eq!(rt; Refusal::TfmName { entry: 1 }.value(), Some(1));
}

#[test]
fn a_damaged_file_is_refusal_7(rt: HostRuntime) {
    assert_eq!(rt; outcome(&SAMPLE, &[entry()], rt.alloc()), Ok(()));
    for (place, byte) in BREAKING.iter() {
        assert_eq!(rt; patched(*place, *byte, rt.alloc()), Err(BROKEN));
    }
    for (place, byte) in HARMLESS.iter() {
        assert_eq!(rt; patched(*place, *byte, rt.alloc()), Ok(()));
    }
}

#[test]
fn a_cut_file_is_refusal_7(rt: HostRuntime) {
    for file_length in 0..FILE_LENGTH {
        assert_eq!(rt;
            outcome(
                &SAMPLE,
                &[Entry {
                    file_length,
                    ..entry()
                }],
                rt.alloc(),
            ),
            Err(BROKEN)
        );
    }
    assert_eq!(rt;
        outcome(
            &SAMPLE,
            &[Entry {
                file_length: 45,
                ..entry()
            }],
            rt.alloc(),
        ),
        Err(BROKEN)
    );
}

// The second entry's places, and what comes of it after an entry b.
// An `Entry` written out would take six lines a row.
const SECOND: [(usize, usize, usize, usize, Result<(), Refusal>); 12] = [
    // another name; the same name; the same name with a broken file; the same name with a file outside
    (45, 1, 0, 44, Ok(())),
    (44, 1, 0, 44, Err(Refusal::TfmName { entry: 1 })),
    (44, 1, 0, 40, Err(Refusal::TfmName { entry: 1 })),
    (44, 1, 3, 44, Err(Refusal::BrokenTfm { entry: 1 })),
    // no name, inside at the end of the bytes and outside one place later
    (45, 0, 0, 44, Err(Refusal::TfmName { entry: 1 })),
    (46, 0, 0, 44, Err(Refusal::TfmName { entry: 1 })),
    (47, 0, 0, 44, Err(Refusal::BrokenTfm { entry: 1 })),
    // a name one byte past the end, a file so, and places that do not fit when added
    (45, 2, 0, 44, Err(Refusal::BrokenTfm { entry: 1 })),
    (45, 1, 3, 44, Err(Refusal::BrokenTfm { entry: 1 })),
    (usize::MAX, 1, 0, 44, Err(Refusal::BrokenTfm { entry: 1 })),
    (45, usize::MAX, 0, 44, Err(Refusal::BrokenTfm { entry: 1 })),
    (45, 1, usize::MAX, 44, Err(Refusal::BrokenTfm { entry: 1 })),
];

#[test]
fn entries_are_judged_by_range_name_and_file(rt: HostRuntime) {
    for (name_place, name_length, file_place, file_length, expected) in SECOND.iter() {
        let second = Entry {
            name_place: *name_place,
            name_length: *name_length,
            file_place: *file_place,
            file_length: *file_length,
        };
        assert_eq!(rt;
            outcome(&SAMPLE, &[entry(), second], rt.alloc()),
            expected.map_err(NotMade::Refused)
        );
    }
}

#[test]
fn names_and_sizes_have_limits(rt: HostRuntime) -> Result<(), Fail> {
    let mut bytes = Vec::from_slice(rt.alloc(), &SAMPLE)?;
    bytes.extend_from_slice(&[1; 62])?;
    assert_eq!(rt;
        outcome(
            bytes.as_slice(),
            &[Entry {
                name_length: 63,
                ..entry()
            }],
            rt.alloc(),
        ),
        Ok(())
    );
    assert_eq!(rt;
        outcome(
            bytes.as_slice(),
            &[Entry {
                name_length: 64,
                ..entry()
            }],
            rt.alloc(),
        ),
        Err(NotMade::Refused(Refusal::TfmName { entry: 0 }))
    );
    assert_eq!(rt; outcome(&SAMPLE, &[entry(); 33], rt.alloc()), Err(FULL));
    assert_eq!(rt;
        outcome(&SAMPLE, &[entry(); 32], rt.alloc()),
        Err(NotMade::Refused(Refusal::TfmName { entry: 1 }))
    );
    let full = vec![in rt.alloc(); 0u8; 1_048_576]?;
    assert_eq!(rt; outcome(full.as_slice(), &[], rt.alloc()), Ok(()));
    let over = vec![in rt.alloc(); 0u8; 1_048_577]?;
    assert_eq!(rt; outcome(over.as_slice(), &[entry()], rt.alloc()), Err(FULL));
    Ok(())
}
