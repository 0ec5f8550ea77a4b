// The pairs of a copy: a face at a size, and the place of its definition in the output.
ghost use Rattle.copies.specs.Pairs.{is_pair};

use numbers::Keyed;

#[derive(Clone, Copy)]
pub struct Pair {
    pub face: u16,
    pub size: u32,
    pub place: usize,
}

// A pair is asked for by its face and size.
impl Keyed<(u16, u32)> for Pair {
    ghost has = { is_pair };

    fn has_key(&self, key: (u16, u32)) -> bool {
        self.face == key.0 && self.size == key.1
    }
}
