// What a page or a packet under way keeps.
use shelf::Mark;

// The registers, in 1/65,536 point: the position h and v, the spacings w and x across, y and z down.
#[derive(Clone, Copy, Default)]
pub struct Registers {
    pub h: i64,
    pub v: i64,
    pub w: i64,
    pub x: i64,
    pub y: i64,
    pub z: i64,
}

// The selected font: a font of the shelf, at a size.
#[derive(Clone, Copy)]
pub struct Chosen {
    pub font: u16,
    pub size: u32,
}

// One of the four spacings.
#[derive(Clone, Copy)]
pub enum Spacing {
    W,
    X,
    Y,
    Z,
}

// What a rule comes to: a mark, or none where a side is not positive, and its width in any case.
#[derive(Clone, Copy)]
pub struct Drawn {
    pub mark: Option<Mark>,
    pub width: i64,
}

// A command carried out: the marks made, its length in bytes, and whether the page or packet goes on. All three are there
// in any case, and the loop asks the last one once, so an enum of two cases would be no plainer than a bool.
#[derive(Clone, Copy)]
pub struct Turn {
    pub marks: usize,
    pub length: usize,
    pub on: bool,
}
