// What the tables of a VF file hold.

// A local font: its number, the font below, and its size as a fix_word's four bytes.
#[derive(Clone, Copy, Default)]
pub struct Local {
    pub number: u32,
    pub font: u16,
    pub size: u32,
}

// A packet: where in the file its bytes start, how many they are, and its width as a fix_word's four bytes.
// A place and a length, not a slice, since the tables outlive the borrow of the file.
#[derive(Clone, Copy)]
pub struct Packet {
    pub start: usize,
    pub length: usize,
    pub width: u32,
}
