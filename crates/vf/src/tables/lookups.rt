// Local fonts by number and packets by code: looked up, entered as the file is read, and copied.
ghost use Rattle.std.specs.Prelude.{◌≡◌, ◌<◌, length, None, ◌==◌, nat_le, slice_get, slice_index_or, ⊤};
ghost use Rattle.vf.specs.Fonts.{font_of, no_font, local_by, with_local, with_packet};

use crate::entries::{Local, Packet};
use crate::packets::Coded;
use crate::tables::{MAX_LOCALS, Vf};
use numbers::{Keyed, first_match};
use std::alloc::AllocError;

impl Keyed<u32> for Local {
    ghost has = { λ l k. (l.number == k) };

    fn has_key(&self, key: u32) -> bool {
        self.number == key
    }
}

impl Vf {
    // The local font of a number.
    pub fn local(&self, number: u32) -> Option<Local>
        ensures { result ≡ local_by (font_of self.now) number }
    {
        let locals = &self.locals[..self.count];
        let k = first_match(locals, number)?;
        locals.get(k).copied()
    }

    // The local font that is defined first.
    pub fn first_local(&self) -> Option<Local>
        ensures { result ≡ slice_get (font_of self.now).locals 0 }
    {
        self.locals[..self.count].first().copied()
    }

    // The packet of a code.
    pub fn packet(&self, code: u8) -> Option<Packet>
        ensures { result ≡ slice_index_or (font_of self.now).packets code None }
    {
        self.packets[usize::from(code)]
    }

    // Tables with no entry.
    pub(crate) fn new() -> Vf
        ensures { font_of result ≡ no_font }
    {
        Vf {
            count: 0,
            locals: [Local::default(); MAX_LOCALS],
            packets: [None; 256],
        }
    }

    pub(crate) fn is_full(&self) -> bool
        ensures { result ≡ nat_le 16 (length (font_of self.now).locals) }
    {
        self.count >= MAX_LOCALS
    }

    pub(crate) fn add_local(&mut self, l: Local)
        requires { length (font_of self.old).locals < 16 }
        ensures { font_of self.new ≡ with_local (font_of self.old) l }
    {
        self.locals[self.count] = l;
        self.count += 1;
    }

    pub(crate) fn add_packet(&mut self, k: Coded)
        ensures { font_of self.new ≡ with_packet (font_of self.old) k }
    {
        self.packets[usize::from(k.code)] = Some(k.packet);
    }
}

// By hand, so that what it gives stands here: the same tables again, and it never fails.
impl Clone for Vf {
    ghost is_clone = { λ f copy. copy ≡ f };

    ghost is_infallible = { λ _. ⊤ };

    fn clone(&self) -> Result<Vf, AllocError> {
        Ok(Vf {
            count: self.count,
            locals: self.locals,
            packets: self.packets,
        })
    }
}
