// What a copy takes from the document that it is opened on, and how far it has come.

// The document's magnification, and the height and width of its largest page.
#[derive(Clone, Copy, Debug, Eq, PartialEq)]
pub struct Opening {
    pub mag: u32,
    pub l: u32,
    pub u: u32,
}

// The bytes used, the place of the last page, 4,294,967,295 where there is none, and how many pages there are.
// A copy uses at most 16,777,216 bytes, so that four bytes hold a place, and no sum of places is too great.
#[derive(Clone, Copy, Debug, Eq, PartialEq)]
pub struct Standing {
    pub used: u32,
    pub last: u32,
    pub pages: u16,
}
