// What a run stands on.
use crate::body::Body;
use shelf::Shelf;

// A page or a packet over the shelf below, and the bytes that hold its commands. Four contracts write
// out its world: a definition of specs/ cannot name the ghost members of a type parameter.
#[derive(Drop)]
pub struct Level<'a, S: Shelf, B: Body> {
    pub below: &'a S,
    pub body: &'a B,
    pub bytes: &'a [u8],
}
