// What the values of options spell.
ghost use Rattle.std.specs.Prelude.{◌≡◌, ◌==◌, map, IfOk};
ghost use Rattle.std.specs.List.{slice_split};
ghost use Rattle.std.specs.Option.{option_map};
ghost use Rattle.script.specs.Spelling.{signed, unsigned};
ghost use Rattle.terminal.specs.Values.{size_given, without_plus, code_given, point_given, range_given, font_given, font_view, fonts_given, all_fonts};

use script::Number;
use std::alloc::{AllocError, Global};

// A font to load: the name that it is to have, and the file that describes it.
#[derive(Clone, Copy)]
pub struct Font<'a> {
    pub name: &'a str,
    pub file: &'a str,
}

// A size that the library takes. It may have a plus sign.
pub fn size_of(value: &str) -> Option<u32>
    ensures { result ≡ size_given value.now }
{
    let number = usize::spelled(without_plus(value.as_bytes())).ok()?;
    u32::try_from(number)
        .ok()
        .filter(|size| numbers::is_size(*size))
}

fn without_plus(text: &[u8]) -> &[u8]
    ensures { result.now ≡ without_plus text.now }
{
    match text {
        [b'+', rest @ ..] => rest,
        _ => text,
    }
}

pub fn code_of(value: &str) -> Option<u8>
    ensures { result ≡ code_given value.now }
{
    u8::try_from(usize::spelled(value.as_bytes()).ok()?).ok()
}

// A start point, as H,V.
pub fn point_of(value: &str) -> Option<(i64, i64)>
    ensures { result ≡ point_given value.now }
{
    let (h, v) = value.split_once(',')?;
    number_of(h).zip(number_of(v))
}

// The first page and the last, as A-B.
pub fn range_of(value: &str) -> Option<(usize, usize)>
    ensures { result ≡ range_given value.now }
{
    let (first, last) = value.split_once('-')?;
    count_of(first).zip(count_of(last))
}

fn count_of(text: &str) -> Option<usize>
    ensures { result ≡ unsigned text.now }
{
    usize::spelled(text.as_bytes()).ok()
}

fn number_of(text: &str) -> Option<i64>
    ensures { result ≡ signed text.now }
{
    i64::spelled(text.as_bytes()).ok()
}

// A name and a file, as NAME=FILE.
pub fn font_of(value: &str) -> Option<Font<'_>>
    ensures { option_map font_view result ≡ font_given value.now }
{
    let (name, file) = value.split_once('=')?;
    Some(Font { name, file })
}

// Fonts that stand on one rank, as NAME=FILE,NAME=FILE.
pub fn fonts_of<'a>(value: &'a str, heap: Global) -> Result<Option<Vec<Font<'a>>>, AllocError>
    ensures { IfOk result (λ o. option_map (λ v. map font_view v.items) o ≡ fonts_given value.now) }
{
    let parts = parts_of(value, heap)?;
    fonts_in(parts.as_slice(), heap)
}

// What stands between the commas of a text.
fn parts_of<'a>(text: &'a str, heap: Global) -> Result<Vec<&'a str>, AllocError>
    ensures { IfOk result (λ v. map (λ x. x.now) v.items ≡ slice_split (λ b. b == 44) text.now) }
{
    text.split(',').collect(heap)
}

// The font that each part names; none where one names none.
fn fonts_in<'a>(parts: &[&'a str], heap: Global) -> Result<Option<Vec<Font<'a>>>, AllocError>
    ensures { IfOk result (λ o. option_map (λ v. map font_view v.items) o ≡ all_fonts (map (λ x. x.now) parts.now)) }
{
    let mut fonts = Vec::new(heap);
    for part in parts {
        match font_of(*part) {
            Some(font) => fonts.push(font)?,
            None => return Ok(None),
        }
    }
    Ok(Some(fonts))
}
