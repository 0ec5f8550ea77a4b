// Numbers of 1 to 4 bytes, high byte first, at a place of a slice.
ghost use Rattle.std.specs.Prelude.{◌≡◌, ◌+◌, ◌^◌, ◌<◌, ◌≤◌, length, min, pos, ◌≤ℤ◌, IfSome, if◌then◌else◌, Some, None, OnSome};
ghost use Rattle.numbers.specs.Bytes.{is_width, number, number_at, signed_at, signed, complement_at, fitting, written, written_to, signed_written, signed_written_to};

use crate::parts::part;

// Bytes, a place and a width are three parameters: each call is about another place, and a struct of the three would be
// made for one call and thrown away.

// The unsigned number in the `width` bytes from `place` on; none where they end before, or for no such width.
pub fn unsigned_at(bytes: &[u8], place: usize, width: usize) -> Option<u32>
    ensures value { result ≡ number_at bytes.now place width }
    ensures bound { IfSome result (λ n. n < 256 ^ width) }
    ensures within { OnSome result (place + width ≤ length bytes.now) }
{
    match bytes.get(place..)?.get(..width)? {
        [a] => Some(u32::from(*a)),
        [a, b] => Some(u32::from_be_bytes([0, 0, *a, *b])),
        [a, b, c] => Some(u32::from_be_bytes([0, *a, *b, *c])),
        [a, b, c, d] => Some(u32::from_be_bytes([*a, *b, *c, *d])),
        _ => None,
    }
}

// The number there in two's complement.
pub fn signed_at(bytes: &[u8], place: usize, width: usize) -> Option<i32>
    ensures value { result ≡ signed_at bytes.now place width }
    ensures within { OnSome result (place + width ≤ length bytes.now) }
{
    let n = unsigned_at(bytes, place, width)?;
    signed_of(n, width)
}

// The unsigned number in the bytes from `place` on, of which there are `width`, but no more than 4.
// A byte past the end counts as 0.
pub fn number(bytes: &[u8], place: usize, width: usize) -> u32
    ensures value { result ≡ number bytes.now place (min width 4) }
    ensures bound { result < 256 ^ min width 4 }
{
    match unsigned_at(bytes, place, width) {
        Some(n) => n,
        None => padded(bytes, place, width),
    }
}

// The same byte by byte, for any width and where bytes are missing. The loop counts bytes, of which some may be in no
// slice that an iterator could go over. Hardly a call comes to it: it is never inlined, so that `number` stays short.
#[cold]
#[inline(never)]
fn padded(bytes: &[u8], place: usize, width: usize) -> u32
    ensures value { result ≡ number bytes.now place (min width 4) }
    ensures bound { result < 256 ^ min width 4 }
{
    let bytes = part(bytes, place, 4);
    let mut n = 0;
    for i in 0..width.min(4) {
        n = n * 256 + u32::from(bytes.get(i).copied().unwrap_or(0));
    }
    n
}

// Writes an unsigned number into the `width` bytes from `place` on, and answers the place after it.
// None, and nothing written, where they end before, for no such width, or where the number does not fit it.
pub fn write_unsigned(bytes: &mut [u8], place: usize, width: usize, n: u32) -> Option<usize>
    ensures after { result ≡ written_to bytes.old place width n }
    ensures bytes { bytes.new ≡ written bytes.old place width n }
    ensures again { OnSome result (number_at bytes.new place width ≡ Some n) }
{
    if bytes.len() < width || bytes.len() - width < place || !fits(n, width) {
        return None;
    }
    bytes[place..place + width].copy_from_slice(&n.to_be_bytes()[4 - width..]);
    Some(place + width)
}

// The same for a number in two's complement.
pub fn write_signed(bytes: &mut [u8], place: usize, width: usize, z: i64) -> Option<usize>
    ensures after { result ≡ signed_written_to bytes.old place width z }
    ensures bytes { bytes.new ≡ signed_written bytes.old place width z }
    ensures again { OnSome result (signed_at bytes.new place width ≡ Some z) }
{
    let n = complement(z, width)?;
    write_unsigned(bytes, place, width, n)
}

// How many numbers have so many bytes; none for no such width.
fn numbers_of(width: usize) -> Option<i64>
    ensures value { result ≡ (if is_width width then Some (pos (256 ^ width)) else None) }
    ensures bound { IfSome result (λ z. (pos 256 ≤ℤ z) × (z ≤ℤ pos (2 ^ 32))) }
{
    match width {
        1 => Some(256),
        2 => Some(65_536),
        3 => Some(16_777_216),
        4 => Some(4_294_967_296),
        _ => None,
    }
}

// Whether there is such a width and the number has no more bytes.
fn fits(n: u32, width: usize) -> bool
    ensures { result ≡ fitting width n }
{
    numbers_of(width).is_some_and(|end| i64::from(n) < end)
}

// The number whose bytes in two's complement are an unsigned number's; none for no such width.
fn signed_of(n: u32, width: usize) -> Option<i32>
    requires { n < 256 ^ width }
    ensures { result ≡ (if is_width width then Some (signed width n) else None) }
{
    let end = numbers_of(width)?;
    let z = i64::from(n);
    let z = if 2 * z < end { z } else { z - end };
    i32::try_from(z).ok()
}

// The unsigned number whose bytes are a number's in two's complement; none where it does not fit the width.
pub fn complement(z: i64, width: usize) -> Option<u32>
    ensures { result ≡ complement_at width z }
{
    let end = numbers_of(width)?;
    if z < 0 {
        if z < -(end / 2) {
            return None;
        }
        Some((z + end) as u32)
    } else if z < end / 2 {
        Some(z as u32)
    } else {
        None
    }
}
