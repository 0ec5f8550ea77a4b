// Moves to marks, each in its shortest form: how long one is, and its bytes.
ghost use Rattle.std.specs.Prelude.{◌≡◌, ◌+◌, ◌^◌, ◌<◌, ◌≤◌, ◌∷◌, length, true, unsigned_abs};
ghost use Rattle.numbers.specs.Bytes.{complement, digits, is_width};
ghost use Rattle.copies.specs.Marks.{move_width, move_bytes};
ghost use Rattle.copies.specs.Writing.{overwritten};

use crate::outputs::write_over;
use numbers::complement;

// The fewest bytes that hold a move in two's complement, and the unsigned number in them.
fn shortest(z: i64) -> (usize, u32)
    requires { unsigned_abs z < 2 ^ 32 }
    ensures width { result.0 ≡ move_width z }
    ensures number { result.1 ≡ complement (move_width z) z }
    ensures fits { result.1 < 256 ^ result.0 }
{
    if let Some(n) = complement(z, 1) {
        return (1, n);
    }
    if let Some(n) = complement(z, 2) {
        return (2, n);
    }
    if let Some(n) = complement(z, 3) {
        return (3, n);
    }
    (4, low_four(z))
}

// Two positions of four bytes each may lie further apart than four bytes hold; then these are the low four.
fn low_four(z: i64) -> u32
    requires { unsigned_abs z < 2 ^ 32 }
    ensures { result ≡ complement 4 z }
{
    if z < 0 {
        (z + 4_294_967_296) as u32
    } else {
        z as u32
    }
}

// How many bytes a move takes.
#[tactic(auto, unfolding(copies::specs::Marks::move_bytes))]
pub(crate) fn move_length(group: u8, z: i64) -> usize
    requires { unsigned_abs z < 2 ^ 32 }
    ensures value { result ≡ length (move_bytes group z) }
    ensures most { result ≤ 5 }
{
    if z == 0 {
        return 0;
    }
    let (width, _) = shortest(z);
    width + 1
}

// Writes a move by a command of this group, whose number is one less than that of its first command; answers the place behind.
#[tactic(auto, unfolding(copies::specs::Marks::move_bytes))]
pub(crate) fn write_move(out: &mut [u8], at: usize, group: u8, z: i64) -> usize
    requires group { group < 200 }
    requires apart { unsigned_abs z < 2 ^ 32 }
    requires room { at + length (move_bytes group z) ≤ length out.old }
    ensures after { result ≡ at + length (move_bytes group z) }
    ensures written { out.new ≡ overwritten at (move_bytes group z) out.old }
{
    if z == 0 {
        return at;
    }
    let (width, n) = shortest(z);
    write_command(out, at, group + width as u8, width, n);
    at + 1 + width
}

// A command's byte and its parameter.
fn write_command(out: &mut [u8], at: usize, byte: u8, width: usize, n: u32)
    requires width { is_width width ≡ true }
    requires fits { n < 256 ^ width }
    requires room { at + 1 + width ≤ length out.old }
    ensures { out.new ≡ overwritten at (byte ∷ digits width n) out.old }
{
    let [a, b, c, d] = n.to_be_bytes();
    match width {
        1 => write_over(out, at, &[byte, d]),
        2 => write_over(out, at, &[byte, c, d]),
        3 => write_over(out, at, &[byte, b, c, d]),
        _ => write_over(out, at, &[byte, a, b, c, d]),
    }
}
