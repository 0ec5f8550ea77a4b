// A virtual font of a rank: its name, its file's place among the bytes of all, and the file's tables.
use shelf::Name;
use vf::Vf;

#[derive(Clone, Copy)]
pub struct Font {
    pub name: Name,
    pub start: usize,
    pub length: usize,
    pub vf: Vf,
}
