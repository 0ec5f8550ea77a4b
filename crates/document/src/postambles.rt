// The postamble of a document, where its ending says that it stands, and the checks of all that it holds.
ghost use Rattle.std.specs.Prelude.{◌≡◌, ◌+◌, ◌-◌, length, take, slice_index};
ghost use Rattle.document.specs.Bytes.{four, two};
ghost use Rattle.document.specs.Fonts.{first_unlawful};
ghost use Rattle.document.specs.Legal.{bare, ended, units_behind, placed, stated};
ghost use Rattle.document.specs.Pages.{leads, broken_pointer};
ghost use Rattle.shelf.specs.declared.refusals.Refusal.TheVariants.{BrokenPostamble, BrokenPages};

use crate::checks::{DEN, NUM, bare_length, check_number, past_comment};
use crate::documents::Document;
use crate::entries::Entries;
use crate::windows::lawful_to;
use numbers::{number, part};
use shelf::Refusal;

const BOP: u32 = 139;

// A pointer that leads nowhere, -1.
const NO_PAGE: u32 = 4_294_967_295;

#[derive(Clone, Copy)]
pub(crate) struct Postamble<'a> {
    bytes: &'a [u8],
    // the length without the 223s at the end
    bare: usize,
    // the place of the 248
    post: u32,
}

impl<'a> Postamble<'a> {
    // What the ending says, sound or not.
    #[tactic(auto, unfolding(crate::specs::Bytes::four))]
    pub(crate) fn of(bytes: &'a [u8]) -> Postamble<'a>
        ensures bytes { result.bytes.now ≡ bytes.now }
        ensures bare { result.bare ≡ bare bytes.now (length bytes.now) }
        ensures post { result.post ≡ four bytes.now (bare bytes.now (length bytes.now) - 5) }
    {
        let bare = bare_length(bytes);
        let post = number(bytes, bare.saturating_sub(5), 4);
        Postamble { bytes, bare, post }
    }

    // The place of one of its bytes. By `as`, since usize has no `From<u32>`; nothing is lost.
    fn place(&self, offset: u8) -> usize
        ensures { result ≡ self.now.post + offset }
    {
        self.post as usize + usize::from(offset)
    }

    // The number in four bytes there.
    #[tactic(auto, unfolding(crate::specs::Bytes::four))]
    fn field(&self, offset: u8) -> u32
        ensures { result ≡ four self.now.bytes.now (self.now.post + offset) }
    {
        number(self.bytes, self.place(offset), 4)
    }

    // How many pages it counts.
    #[tactic(auto, unfolding(crate::specs::Bytes::two))]
    fn pages(&self) -> u16
        ensures { result ≡ two self.now.bytes.now (self.now.post + 27) }
    {
        number(self.bytes, self.place(27), 2) as u16
    }

    // The byte so many before the 223s.
    fn from_end(&self, back: usize) -> u32
        ensures { result ≡ slice_index self.now.bytes.now (self.now.bare - back) }
    {
        number(self.bytes, self.bare.saturating_sub(back), 1)
    }

    pub(crate) fn check_ending(&self) -> Result<(), Refusal>
        ensures { result ≡ ended self.now.bytes.now self.now.bare self.now.post }
    {
        let length = self.bytes.len();
        let post = self.place(0);
        let sound = length.saturating_sub(self.bare) >= 4
            && self.bare >= 6
            && self.from_end(1) == 2
            && self.from_end(6) == 249
            && past_comment(self.bytes) <= post
            && post + 35 <= self.bare
            && number(self.bytes, post, 1) == 248;
        if sound {
            Ok(())
        } else {
            Err(Refusal::BrokenEnding { length })
        }
    }

    #[tactic(auto, unfolding(crate::specs::Bytes::four))]
    pub(crate) fn check_units(&self) -> Result<(), Refusal>
        ensures { result ≡ units_behind self.now.bytes.now self.now.post }
    {
        check_number(self.bytes, self.place(5), NUM)?;
        check_number(self.bytes, self.place(9), DEN)?;
        check_number(self.bytes, self.place(13), number(self.bytes, 10, 4))
    }

    // Its commands, behind its own 29 bytes.
    pub(crate) fn check_commands(&self) -> Result<(), Refusal>
        ensures { result ≡ placed BrokenPostamble (first_unlawful (take (self.now.bare - 6) self.now.bytes.now) (self.now.post + 29)) }
    {
        let commands = Entries::new(part(self.bytes, 0, self.end()), self.place(29));
        let place = lawful_to(commands);
        if place < commands.to {
            Err(Refusal::BrokenPostamble { place })
        } else {
            Ok(())
        }
    }

    // The place of the 249.
    fn end(&self) -> usize
        ensures { result ≡ self.now.bare - 6 }
    {
        self.bare.saturating_sub(6)
    }

    // The chain of pages, from the pointer to the last back to the first.
    pub(crate) fn check_pages(&self) -> Result<(), Refusal>
        ensures { result ≡ placed BrokenPages (broken_pointer self.now.bytes.now self.now.post) }
    {
        let mut limit = self.post;
        let mut place = self.place(1);
        // So many pages, each found from the one behind it: there is nothing to go over.
        for _page in 0..self.pages() {
            let a = number(self.bytes, place, 4);
            if !self.leads_to(limit, a) {
                return Err(Refusal::BrokenPages { place });
            }
            limit = a;
            place = a as usize + 41;
        }
        if number(self.bytes, place, 4) == NO_PAGE {
            Ok(())
        } else {
            Err(Refusal::BrokenPages { place })
        }
    }

    // Whether a pointer leads to a page below `limit`.
    fn leads_to(&self, limit: u32, a: u32) -> bool
        ensures { result ≡ leads self.now.bytes.now self.now.post limit a }
    {
        let at = a as usize;
        past_comment(self.bytes) <= at
            && at + 45 <= self.place(0)
            && a < limit
            && number(self.bytes, at, 1) == BOP
    }

    #[tactic(auto, unfolding(crate::specs::Bytes::four))]
    pub(crate) fn document(&self) -> Document
        ensures { result ≡ stated self.now.bytes.now self.now.post (self.now.bare - 6) }
    {
        Document {
            mag: number(self.bytes, 10, 4),
            l: self.field(17),
            u: self.field(21),
            post: self.place(0),
            end: self.end(),
            last: self.field(1),
            pages: self.pages(),
        }
    }
}
