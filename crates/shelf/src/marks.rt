// What a character or a page leaves: marks, and the links of a fault's chain.

// A glyph of a face or a rule, at a position in 1/65,536 point.
#[derive(Clone, Copy, Debug, Eq, PartialEq)]
pub enum Mark {
    Glyph {
        face: u16,
        size: u32,
        code: u8,
        h: i32,
        v: i32,
    },
    Rule {
        height: u32,
        width: u32,
        h: i32,
        v: i32,
    },
}

// A packet under way at a fault, by its font and code, or the page, by 65,535 and its number;
// and the place of the command that did not succeed. Two numbers of 16 bits for both: links are given so to callers.
#[derive(Clone, Copy, Debug, Eq, PartialEq)]
pub struct Link {
    pub font: u16,
    pub code: u16,
    pub place: usize,
}
