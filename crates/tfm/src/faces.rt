// A face of a TFM shelf: what its file states, and where in the shelf's bytes its tables stand.
ghost use Rattle.std.specs.Prelude.{◌+◌, ◌^◌, ◌<◌, ◌≤◌};

use shelf::Name;

#[derive(Clone, Copy)]
pub struct TfmFace {
    pub name: Name,
    pub checksum: u32,
    // in 2^-20 points
    pub design: u32,
    // the first code that has a word, and how many have one
    pub first: usize,
    pub count: usize,
    // the places of the codes' words and of the widths
    pub characters: usize,
    pub widths: usize,
    ghost small: { checksum < 2 ^ 32 },
    ghost least: { 2 ^ 20 ≤ design },
    ghost most: { design < 2 ^ 31 },
    ghost codes: { first + count ≤ 256 },
    ghost words: { characters ≤ 2 ^ 32 },
    ghost table: { widths ≤ 2 ^ 32 },
}
