// Cutting a line into words, and reading the numbers and bytes that the words spell.
ghost use Rattle.std.specs.Prelude.{◌≡◌, ◌≢◌, ◌==◌, ℕ, ◌-◌, ◌^◌, ◌<◌, ◌≤◌, pos, negsuc, List, map, length, slice_index_or, Option, Some, None, Err, IfOk, IfErr, IfSome};
ghost use Rattle.std.specs.List.{slice_split};
ghost use Rattle.std.specs.Option.{ok_or};
ghost use Rattle.script.specs.Bytes.{spelled_bytes, spelled_pairs, Makes};
ghost use Rattle.script.specs.Spelling.{hexadecimal_digit, signed, spelled_byte, spelled_fix_word, spells_number, unsigned};
ghost use Rattle.script.specs.declared.problems.Problem.TheVariants.{NotBytes, NotNumber, WrongCount};

use crate::problems::Problem;
use std::alloc::{AllocError, Global};

// The parts of a text between its separators. They lie in the text: nothing of it is copied.
pub fn cut<'a>(text: &'a [u8], separator: u8, heap: Global) -> Result<Vec<&'a [u8]>, AllocError>
    ensures { IfOk result (λ parts. map (λ part. part.now) parts.items ≡ slice_split (λ byte. byte == separator) text.now) }
{
    text.split(|byte| *byte == separator).collect(heap)
}

// A decimal number that a word spells. One that is too large or too small counts as the last that there is.
pub trait Number: Copy + Default {
    // What a word spells, where it is a number.
    ghost spelling: { List ℕ → Option Self };

    fn spelled(word: &[u8]) -> Result<Self, Problem>
        ensures { result ≡ ok_or (spelling word.now) NotNumber };
}

// Without a sign.
impl Number for usize {
    ghost spelling = { unsigned };

    fn spelled(word: &[u8]) -> Result<usize, Problem> {
        if word.is_empty() {
            return Err(Problem::NotNumber);
        }
        let mut value = 0usize;
        for letter in word {
            match *letter {
                digit @ b'0'..=b'9' => {
                    value = value
                        .saturating_mul(10)
                        .saturating_add(usize::from(digit - b'0'))
                }
                _ => return Err(Problem::NotNumber),
            }
        }
        Ok(value)
    }
}

// With a minus sign, or none.
impl Number for i64 {
    ghost spelling = { signed };

    fn spelled(word: &[u8]) -> Result<i64, Problem> {
        match word {
            [b'-', digits @ ..] => {
                let number = usize::spelled(digits)?;
                Ok(i64::try_from(number).map_or(i64::MIN, |number| -number))
            }
            digits => Ok(i64::try_from(usize::spelled(digits)?).unwrap_or(i64::MAX)),
        }
    }
}

// The numbers of words that are so many and nothing else.
pub fn all<T: Number, const N: usize>(words: &[&[u8]]) -> Result<[T; N], Problem>
    ensures count { length words.now ≢ N → result ≡ Err WrongCount }
    ensures spelled { IfOk result (λ numbers. (k : ℕ) (w : _) (d : T) → k < N → T.spelling (slice_index_or words.now k w).now ≡ Some (slice_index_or numbers k d)) }
    ensures refused { length words.now ≡ N → IfErr result (λ problem. (problem ≡ NotNumber) × ((k : ℕ) × (k < N) × ((w : _) → T.spelling (slice_index_or words.now k w).now ≡ None))) }
{
    if words.len() != N {
        return Err(Problem::WrongCount);
    }
    // The array is filled by place: `array::try_from_fn` asks that it fits in memory, which no N promises here.
    let mut numbers = [T::default(); N];
    for (i, word) in words.iter().enumerate() {
        numbers[i] = T::spelled(word)?;
    }
    Ok(numbers)
}

// A size in DVI units. A number that no call can be given counts as the nearest that can; the library refuses both.
pub fn size(number: i64) -> u32
    ensures within { (n : ℕ) → n < 2 ^ 32 → number ≡ pos n → result ≡ n }
    ensures above { (n : ℕ) → 2 ^ 32 ≤ n → number ≡ pos n → result ≡ 2 ^ 32 - 1 }
    ensures below { (n : ℕ) → number ≡ negsuc n → result ≡ 0 }
{
    u32::try_from(number.max(0)).unwrap_or(u32::MAX)
}

// A font. A number that no call can be given counts as the last, which no shelf has.
pub fn font(number: i64) -> u16
    ensures within { (n : ℕ) → n < 2 ^ 16 → number ≡ pos n → result ≡ n }
    ensures above { (n : ℕ) → 2 ^ 16 ≤ n → number ≡ pos n → result ≡ 2 ^ 16 - 1 }
    ensures below { (n : ℕ) → number ≡ negsuc n → result ≡ 2 ^ 16 - 1 }
{
    u16::try_from(number).unwrap_or(u16::MAX)
}

// The bytes that a word spells by two digits each, or `-` for none.
pub fn bytes(word: &[u8], heap: Global) -> Result<Vec<u8>, Problem>
    ensures { Makes (ok_or (spelled_bytes word.now) NotBytes) result }
{
    match word {
        b"-" => Ok(Vec::new(heap)),
        digits => bytes_of_pairs(digits, heap),
    }
}

fn bytes_of_pairs(digits: &[u8], heap: Global) -> Result<Vec<u8>, Problem>
    ensures { Makes (ok_or (spelled_pairs digits.now) NotBytes) result }
{
    let mut bytes = Vec::with_capacity(heap, digits.len() / 2)?;
    for pair in digits.chunks(2) {
        bytes.push(byte_of(pair).ok_or(Problem::NotBytes)?)?;
    }
    Ok(bytes)
}

// The four bytes of a fix_word as one number.
pub fn fix_word(word: &[u8]) -> Result<u32, Problem>
    ensures { result ≡ ok_or (spelled_fix_word word.now) NotBytes }
{
    if word.len() != 8 {
        return Err(Problem::NotBytes);
    }
    let mut number = 0;
    for letter in word {
        let digit = digit_of(*letter).ok_or(Problem::NotBytes)?;
        number = number * 16 + u32::from(digit);
    }
    Ok(number)
}

fn byte_of(pair: &[u8]) -> Option<u8>
    ensures { result ≡ spelled_byte pair.now }
{
    let [high, low] = pair else {
        return None;
    };
    Some(digit_of(*high)? * 16 + digit_of(*low)?)
}

fn digit_of(letter: u8) -> Option<u8>
    ensures is { result ≡ hexadecimal_digit letter }
    ensures bound { IfSome result (λ digit. digit < 16) }
{
    match letter {
        b'0'..=b'9' => Some(letter - b'0'),
        b'a'..=b'f' => Some(letter - b'a' + 10),
        _ => None,
    }
}
