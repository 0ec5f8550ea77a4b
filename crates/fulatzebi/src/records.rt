// The records that cross to C. They hold numbers alone, since no enum crosses; include/fulatzebi.h has them once more.

// A font of a bundle: where its name and its file stand among the bundle's bytes. Rank 0 is the TFM files, ranks 1 to 4
// are the VF files above them.
#[repr(C)]
#[derive(Clone, Copy, Debug, Eq, PartialEq)]
pub struct FontRecord {
    pub rank: u32,
    pub name_place: usize,
    pub name_length: usize,
    pub file_place: usize,
    pub file_length: usize,
}

// A page to copy: where its document stands among the bytes of all, and the page's number, from 1.
#[repr(C)]
#[derive(Clone, Copy, Debug, Eq, PartialEq)]
pub struct SourceRecord {
    pub place: usize,
    pub length: usize,
    pub page: usize,
}

// What a legal document states, with the places of its 248, its 249 and its last page.
#[repr(C)]
#[derive(Clone, Copy, Debug, Eq, PartialEq)]
pub struct DocumentRecord {
    pub mag: u32,
    pub l: u32,
    pub u: u32,
    pub pages: u32,
    pub last: u32,
    pub post: usize,
    pub end: usize,
}

// Where a page's 139 stands, and its ten counts.
#[repr(C)]
#[derive(Clone, Copy, Debug, Eq, PartialEq)]
pub struct PageRecord {
    pub place: usize,
    pub counts: [i32; 10],
}

// A mark: kind 1 is a glyph (face, size and code), kind 2 a rule (height and width). What a kind does not have is 0.
#[repr(C)]
#[derive(Clone, Copy, Debug, Eq, PartialEq)]
pub struct MarkRecord {
    pub kind: u32,
    pub face: u32,
    pub size: u32,
    pub code: u32,
    pub height: u32,
    pub width: u32,
    pub h: i32,
    pub v: i32,
}

// A link of a fault's chain: a packet under way, by its font and code, or the page, by 65,535 and its number.
#[repr(C)]
#[derive(Clone, Copy, Debug, Eq, PartialEq)]
pub struct LinkRecord {
    pub font: u32,
    pub code: u32,
    pub place: usize,
}

// What a call answers: number 0 is accepted, 1 to 26 are refusals, and above 26 the call could not be made.
// Step, rank and index say what of the call was refused.
#[repr(C)]
#[derive(Clone, Copy, Debug, Eq, PartialEq)]
pub struct Answer {
    pub number: u32,
    pub step: u32,
    pub rank: u32,
    pub index: usize,
    pub value: usize,
    pub links: usize,
    pub marks: usize,
    pub length: usize,
}
