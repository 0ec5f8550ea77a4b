// The fonts of a command line by their numbers on its shelf.
ghost use Rattle.std.specs.Prelude.{◌≡◌};
ghost use Rattle.stacks.specs.Fonts.{font_in, font_of};

use terminal::{Font, Options};

// The faces have the first numbers, then the files of the ranks, the lowest first.
pub fn font_of<'a>(options: &Options<'a>, number: usize) -> Option<Font<'a>>
    ensures { result ≡ font_of options.now number }
{
    let faces = options.fonts.as_slice();
    if number < faces.len() {
        Some(faces[number])
    } else {
        font_in(options.ranks.as_slice(), number - faces.len())
    }
}

fn font_in<'a>(ranks: &[Vec<Font<'a>>], number: usize) -> Option<Font<'a>>
    ensures { result ≡ font_in ranks.now number }
{
    let [first, rest @ ..] = ranks else {
        return None;
    };
    let fonts = first.as_slice();
    if number < fonts.len() {
        Some(fonts[number])
    } else {
        font_in(rest, number - fonts.len())
    }
}
