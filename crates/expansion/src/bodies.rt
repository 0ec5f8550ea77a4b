// A packet as the machine runs it.
ghost use Rattle.vf.specs.Fonts.{font_of};
ghost use Rattle.expansion.specs.Expanding.{packet_acts};

use crate::selecting::{measure_at, select};
use machine::{Body, Chosen};
use shelf::{Asked, Cause, Link, Shelf};
use vf::Vf;

#[derive(Clone, Copy)]
pub(crate) struct PacketBody<'a> {
    pub(crate) vf: &'a Vf,
    pub(crate) asked: Asked,
}

impl<'a> Body for PacketBody<'a> {
    ghost acts = { λ s. packet_acts (font_of s.vf.now) s.asked };

    fn measure(&self, b: i64) -> Option<i64> {
        measure_at(self.asked.size, b)
    }

    fn choose<S: Shelf>(&self, below: &S, number: u32) -> Result<Chosen, Cause> {
        select(self.vf, self.asked.size, number)
    }

    fn is_page(&self) -> bool {
        false
    }

    fn link(&self, place: usize) -> Link {
        Link {
            font: self.asked.font,
            code: u16::from(self.asked.code),
            place,
        }
    }
}
