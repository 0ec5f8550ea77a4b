// Sizes and positions, in 1/65,536 point.
ghost use Rattle.std.specs.Prelude.{◌≡◌, ◌^◌, ◌<◌, IfSome, unsigned_abs};
ghost use Rattle.numbers.specs.Lengths.{good_size, in_range, moved_to};

// Sizes lie below this, so that a scaled fix_word stays within 2^31.
const SIZE_LIMIT: u32 = 134_217_728;

// Positions go no further than this either way.
const POSITION_LIMIT: i64 = 1_073_741_823;

pub fn is_size(n: u32) -> bool
    ensures { result ≡ good_size n }
{
    (1..SIZE_LIMIT).contains(&n)
}

pub fn in_range(z: i64) -> bool
    ensures { result ≡ in_range z }
{
    (-POSITION_LIMIT..=POSITION_LIMIT).contains(&z)
}

// A position moved by a length; none where it leaves the range.
pub fn moved(at: i64, by: i64) -> Option<i64>
    ensures value { result ≡ moved_to at by }
    ensures bound { IfSome result (λ z. unsigned_abs z < 2 ^ 30) }
{
    at.checked_add(by).filter(|z| in_range(*z))
}
