// fix_words scaled by a size.
ghost use Rattle.std.specs.Prelude.{◌≡◌, ◌-◌, ◌*◌, ◌/◌, ◌^◌, ◌<◌, ◌≤◌};
ghost use Rattle.numbers.specs.FixWords.{begins_fix_word, halvings, unit, share, less, scaled};

use crate::lengths::is_size;

// Whether a byte can begin a fix_word.
pub fn begins_fix_word(first: u8) -> bool
    ensures { result ≡ begins_fix_word first }
{
    first == 0 || first == 255
}

// A fix_word, given as its four bytes, scaled by a size; none for no size, or where its first byte is neither 0 nor 255.
#[tactic(auto, unfolding(crate::specs::FixWords::scaled))]
pub fn scale(word: u32, size: u32) -> Option<i32>
    ensures { result ≡ scaled size word }
{
    if !is_size(size) {
        return None;
    }
    let halved = Halved::of(size);
    let share = halved.share(word % 16_777_216);
    match word / 16_777_216 {
        0 => Some(share as i32),
        255 => Some((share as i64 - halved.less() as i64) as i32),
        _ => None,
    }
}

// A size with what scaling needs of it: how often it is halved to stand below 2^23, and what it then is.
#[derive(Clone, Copy)]
struct Halved {
    size: u32,
    e: u32,
    z: u64,
    ghost small: { size < 2 ^ 27 },
    ghost few: { e ≤ 4 },
    ghost halvings: { e ≡ halvings size },
    ghost unit: { z ≡ unit size },
    ghost below: { z < 2 ^ 23 },
}

impl Halved {
    fn of(size: u32) -> Halved
        requires { size < 2 ^ 27 }
        ensures { result.size ≡ size }
    {
        let e = halvings_of(size);
        Halved {
            size,
            e,
            z: u64::from(size >> e),
        }
    }

    // What the last three bytes give.
    fn share(&self, b: u32) -> u64
        requires { b < 2 ^ 24 }
        ensures value { result ≡ share self.now.size b }
        ensures bound { result < 2 ^ 31 }
    {
        (u64::from(b) * self.z) >> (20 - self.e)
    }

    // What a first byte of 255 takes off.
    fn less(&self) -> u64
        ensures value { result ≡ less self.now.size }
        ensures bound { result < 2 ^ 31 }
    {
        self.z << (4 + self.e)
    }
}

// How often a size is halved to stand below 2^23.
fn halvings_of(size: u32) -> u32
    requires { size < 2 ^ 27 }
    ensures value { result ≡ halvings size }
    ensures bound { result ≤ 4 }
{
    if size < 8_388_608 {
        0
    } else if size < 16_777_216 {
        1
    } else if size < 33_554_432 {
        2
    } else if size < 67_108_864 {
        3
    } else {
        4
    }
}
