// A part of a slice, with no precondition.
ghost use Rattle.std.specs.Prelude.{◌≡◌, take, drop};

// The n entries from a place on, as far as there are any.
pub fn part<T>(items: &[T], place: usize, n: usize) -> &[T]
    ensures { result.now ≡ take n (drop place items.now) }
{
    let rest = items.get(place..).unwrap_or(&[]);
    rest.get(..n).unwrap_or(rest)
}
