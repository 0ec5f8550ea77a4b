// A page as the machine runs it.
ghost use Rattle.std.specs.Prelude.{◌≡◌};
ghost use Rattle.reading.specs.Reading.{chosen_in, page_acts};

use document::FontTable;
use machine::{Body, Chosen};
use numbers::is_size;
use shelf::{Cause, Link, Shelf};

#[derive(Clone, Copy)]
pub(crate) struct PageBody<'a> {
    pub(crate) fonts: FontTable<'a>,
    pub(crate) page: u16,
}

// The font of the chain's outermost link, which names the page.
const PAGE: u16 = u16::MAX;

impl<'a> Body for PageBody<'a> {
    ghost acts = { λ s. page_acts s.fonts.bytes.now s.fonts.document s.page };

    // Lengths stand for themselves.
    fn measure(&self, b: i64) -> Option<i64> {
        Some(b)
    }

    fn choose<S: Shelf>(&self, below: &S, number: u32) -> Result<Chosen, Cause> {
        let definition = self.fonts.font(number).ok_or(Cause::NoFont)?;
        let font = below.find(definition.name).ok_or(Cause::NoName)?;
        if is_size(definition.size) {
            Ok(Chosen {
                font,
                size: definition.size,
            })
        } else {
            Err(Cause::BadSize)
        }
    }

    fn is_page(&self) -> bool {
        true
    }

    fn link(&self, place: usize) -> Link {
        Link {
            font: PAGE,
            code: self.page,
            place,
        }
    }
}
