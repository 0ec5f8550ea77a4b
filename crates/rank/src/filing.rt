// Files added to a rank one after the other.
ghost use Rattle.std.specs.Prelude.{◌≡◌, ◌<◌, min, [], ◌++◌, map, length, take, drop, slice_index_or};
ghost use Rattle.rank.specs.Adding.{added_all, given_by};
ghost use Rattle.rank.specs.Held.{files_of};

use crate::ranks::Rank;
use shelf::{Refusal, Shelf};

// A file, and the name that it is to be added under.
#[derive(Clone, Copy)]
pub struct Offer<'a> {
    pub name: &'a [u8],
    pub file: &'a [u8],
}

impl<S: Shelf> Rank<S> {
    // Adds each file, whatever became of those before it, and puts the answer to each into the list of answers; as many
    // files as the shorter list has.
    pub fn add_all(&mut self, offers: &[Offer], answers: &mut [Result<(), Refusal>])
        ensures files { (files_of self.new, take (min (length offers.now) (length answers.old)) answers.new) ≡ added_all (S.means self.old.below) (files_of self.old, []) (map given_by (take (min (length offers.now) (length answers.old)) offers.now)) }
        ensures rest { drop (min (length offers.now) (length answers.old)) answers.new ≡ drop (min (length offers.now) (length answers.old)) answers.old }
        ensures below { self.new.below ≡ self.old.below }
    {
        // The answers are written by place: `iter_mut` behind an adapter, as `zip` is, does not say what it has written so far
        // (tried, the proof did not close).
        for (k, offer) in offers.iter().enumerate() {
            if k >= answers.len() {
                return;
            }
            answers[k] = self.add(offer.name, offer.file);
        }
    }
}
