// What a legal document states, and where.

#[derive(Clone, Copy, Debug, PartialEq, Eq)]
pub struct Document {
    pub mag: u32,
    // the height and width of the largest page, as the postamble has them
    pub l: u32,
    pub u: u32,
    // the places of the postamble's 248 and of the 249 behind it
    pub post: usize,
    pub end: usize,
    // the place of the last page as the postamble has it, 4,294,967,295 where there is none
    pub last: u32,
    pub pages: u16,
}
