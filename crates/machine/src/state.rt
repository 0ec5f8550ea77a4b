// A page or a packet under way.
use crate::frames::Frames;
use crate::registers::{Chosen, Registers};

#[derive(Drop)]
pub struct Machine {
    pub at: Registers,
    pub font: Option<Chosen>,
    pub frames: Frames,
}
