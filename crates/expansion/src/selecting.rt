// Local fonts at the sizes that a packet selects them.
ghost use Rattle.std.specs.Prelude.{◌≡◌};
ghost use Rattle.vf.specs.Fonts.{font_of};
ghost use Rattle.expansion.specs.Selecting.{measure_at, sized_at, chosen_at, selects, first_font};

use machine::Chosen;
use numbers::{complement, is_size, scale};
use shelf::Cause;
use vf::{Local, Vf};

// A length parameter of a packet, by the VF font's size.
pub(crate) fn measure_at(size: u32, b: i64) -> Option<i64>
    ensures { result ≡ measure_at size b }
{
    let word = complement(b, 4)?;
    scale(word, size).map(i64::from)
}

// What a font number selects.
pub(crate) fn select(vf: &Vf, size: u32, number: u32) -> Result<Chosen, Cause>
    ensures { result ≡ selects (font_of vf.now) size number }
{
    chosen_at(size, vf.local(number).ok_or(Cause::NoFont)?)
}

// What a packet starts with.
pub(crate) fn first_font(vf: &Vf, size: u32) -> Result<Option<Chosen>, Cause>
    ensures { result ≡ first_font (font_of vf.now) size }
{
    vf.first_local()
        .map(|local| chosen_at(size, local))
        .transpose()
}

fn chosen_at(size: u32, local: Local) -> Result<Chosen, Cause>
    ensures { result ≡ chosen_at size local }
{
    sized_at(local.font, scale(local.size, size))
}

fn sized_at(font: u16, size: Option<i32>) -> Result<Chosen, Cause>
    ensures { result ≡ sized_at font size }
{
    let size = u32::try_from(size.ok_or(Cause::BadSize)?)
        .ok()
        .filter(|size| is_size(*size))
        .ok_or(Cause::BadSize)?;
    Ok(Chosen { font, size })
}
