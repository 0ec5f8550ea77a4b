// Pairs looked up, entered and forgotten.
ghost use Rattle.std.specs.Prelude.{◌≡◌, ◌<◌, ◌≤◌, [], length, take, IfSome, IfErr, OnOk, is_ok, slice_get};
ghost use Rattle.shelf.specs.declared.refusals.Refusal.TheVariants.{PairsFull};
ghost use Rattle.copies.specs.Pairs.{pair_by};
ghost use Rattle.pairs.specs.Tables.{pairs_of, entered_in, defined_before};

use crate::tables::{MAX_PAIRS, PairTable};
use copies::Pair;
use numbers::first_match;
use shelf::Refusal;

// What stands in a table past its count.
const NO_PAIR: Pair = Pair {
    face: 0,
    size: 0,
    place: 0,
};

impl PairTable {
    pub fn new() -> PairTable
        ensures { pairs_of result ≡ [] }
    {
        PairTable {
            pairs: [NO_PAIR; MAX_PAIRS],
            count: 0,
        }
    }

    // The pairs by number.
    pub fn as_slice(&self) -> &[Pair]
        ensures value { result.now ≡ pairs_of self.now }
        ensures few { length result.now ≤ 64 }
    {
        &self.pairs[..self.count]
    }

    pub fn len(&self) -> usize
        ensures value { result ≡ length (pairs_of self.now) }
        ensures few { result ≤ 64 }
    {
        self.as_slice().len()
    }

    // The number of the pair of a face and a size.
    #[tactic(auto, unfolding(copies::specs::Pairs::pair_by))]
    pub fn find(&self, face: u16, size: u32) -> Option<usize>
        ensures value { result ≡ pair_by (pairs_of self.now) face size }
        ensures within { IfSome result (λ n. n < length (pairs_of self.now)) }
        ensures few { IfSome result (λ n. n < 64) }
    {
        first_match(self.as_slice(), (face, size))
    }

    // The pair of a number.
    pub fn get(&self, number: usize) -> Option<Pair>
        ensures { result ≡ slice_get (pairs_of self.now) number }
    {
        self.as_slice().get(number).copied()
    }

    // Enters a pair under the next number; refused, and nothing changes, where 64 are there.
    pub fn enter(&mut self, pair: Pair) -> Result<(), Refusal>
        ensures entered { (is_ok result, pairs_of self.new) ≡ entered_in (pairs_of self.old) pair }
        ensures full { IfErr result (λ e. e ≡ PairsFull) }
        ensures room { OnOk result (length (pairs_of self.old) < 64) }
    {
        if self.count >= MAX_PAIRS {
            return Err(Refusal::PairsFull);
        }
        self.pairs[self.count] = pair;
        self.count += 1;
        Ok(())
    }

    // Leaves the first pairs, so many; all where there are no more.
    pub fn truncate(&mut self, count: usize)
        ensures { pairs_of self.new ≡ take count (pairs_of self.old) }
    {
        self.count = self.count.min(count);
    }

    // Forgets the pairs that are defined from a place on: the first of them and, since a pair keeps its number, all behind it.
    pub fn forget_from(&mut self, place: usize)
        ensures { pairs_of self.new ≡ defined_before place (pairs_of self.old) }
    {
        let kept = self.count_before(place);
        self.truncate(kept);
    }

    // How many pairs stand before the first that is defined at a place or past it.
    fn count_before(&self, place: usize) -> usize
        ensures { result ≡ length (defined_before place (pairs_of self.now)) }
    {
        self.as_slice()
            .iter()
            .take_while(|p| p.place < place)
            .count()
    }
}
