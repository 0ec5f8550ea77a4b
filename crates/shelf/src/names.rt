// A font's name: 1 to 63 bytes, kept in place.
ghost use Rattle.std.specs.Prelude.{◌≡◌, ◌<◌, ◌≤◌, length};

// An array and a count, and no vector of fixed capacity, which is never Copy: a name is copied like a number.
pub struct Name {
    bytes: [u8; 63],
    count: usize,
    ghost some: { 0 < count },
    ghost few: { count ≤ 63 },
    ghost full: { length bytes ≡ 63 },
}

impl Copy for Name {}

mod spelling;
