// The TFM file of 44 bytes in docs/FORMATS.md, with one character: code 65, half as wide as the size.
use std::alloc::Global;
use tfm::{Entry, NotMade, TfmShelf};

// The file, and two names behind it: b at 44, c at 45.
pub const SAMPLE: [u8; 46] = [
    0, 11, 0, 2, 0, 65, 0, 65, 0, 2, 0, 0, 0, 0, 0, 0, 0, 0, 0, 0, 0, 0, 0, 0, 0, 0, 0, 0, 0, 160,
    0, 0, 1, 0, 0, 0, 0, 0, 0, 0, 0, 8, 0, 0, 98, 99,
];

pub const FILE_LENGTH: usize = 44;

// The entry of the file under the name b.
pub fn entry() -> Entry {
    Entry {
        name_place: 44,
        name_length: 1,
        file_place: 0,
        file_length: FILE_LENGTH,
    }
}

// What comes of making a shelf.
pub fn outcome(bytes: &[u8], entries: &[Entry], heap: Global) -> Result<(), NotMade> {
    TfmShelf::new(bytes, entries, heap).map(|_| ())
}
