// A rank as a shelf: the fonts below keep their numbers, and its own follow.
ghost use Rattle.std.specs.Prelude.{◌≡◌, ◌+◌, ◌-◌, ◌≤◌, ◌++◌, map, length, take};
ghost use Rattle.std.proofs.Common.{sym, subst};
ghost use Rattle.rank.specs.Entries.{entries_of, entry_name};
ghost use Rattle.rank.specs.Ranks.{rank_of, RankOk, fitting};
ghost use Rattle.std.specs.List.{AllByRecursion};
ghost use Rattle.shelf.specs.Names.{GoodName, Distinct};
ghost use Rattle.rank.specs.Lawfuls.{rank_lawful, good-font-names};
ghost use Rattle.rank.specs.Named.{fitting-few, fitting-names, fitting-all};

use crate::fonts::Font;
use crate::ranks::Rank;
use expansion::expand;
use numbers::{first_match, part};
use shelf::{Asked, Count, Face, Link, Mark, Refusal, Shelf};

impl<S: Shelf> Rank<S> {
    // The fonts that find room above those below; all do, by the ghost field `ok`.
    fn own(&self) -> &[Font]
        ensures fonts { result.now ≡ take (4096 - length (S.means self.now.below).names) self.now.fonts.items }
        ensures few { length (S.means self.now.below).names + length result.now ≤ 4096 }
    {
        let room = 4096 - usize::from(self.below.count().fonts);
        part(self.fonts.as_slice(), 0, room)
    }
}

impl<S: Shelf> Shelf for Rank<S> {
    ghost means = { λ s. rank_of (S.Shelf.means s.below) (entries_of s.bytes.items s.fonts.items) };

    ghost lawful = { λ s.
        let m = S.Shelf.means s.below in
        let law = S.Shelf.lawful s.below in
        let bs = s.bytes.items in
        let fs = s.fonts.items in
        rank_lawful m (fitting m (entries_of bs fs)) law (subst (AllByRecursion GoodName) (sym (fitting-names m bs fs)) (good-font-names (take (4096 - length m.names) fs))) (fitting-few (length m.names) (entries_of bs fs) law.few) };

    ghost distinct = { λ s.
        let m = S.Shelf.means s.below in
        subst (λ es. Distinct (m.names ++ map entry_name es)) (sym (fitting-all m (entries_of s.bytes.items s.fonts.items) s.ok.few)) s.ok.unlike };

    fn count(&self) -> Count {
        let below = self.below.count();
        Count {
            fonts: below.fonts + self.own().len() as u16,
            faces: below.faces,
        }
    }

    fn find(&self, name: &[u8]) -> Option<u16> {
        // With `or_else`, and a closure that looks in this rank, the proof did not close.
        if let Some(k) = self.below.find(name) {
            return Some(k);
        }
        let base = self.below.count().fonts;
        let k = first_match(self.own(), name)?;
        Some(base + k as u16)
    }

    fn face(&self, k: u16) -> Option<Face<'_>> {
        self.below.face(k)
    }

    fn character(
        &self,
        asked: Asked,
        chain: &mut [Link],
        marks: &mut [Mark],
    ) -> Result<(usize, i64), Refusal> {
        let base = self.below.count().fonts;
        if asked.font < base {
            return self.below.character(asked, chain, marks);
        }
        let fonts = self.own();
        asked.start(base + fonts.len() as u16)?;
        let k = usize::from(asked.font - base);
        let f = &fonts[k];
        let file = part(self.bytes.as_slice(), f.start, f.length);
        expand(&self.below, &f.vf, file, asked, chain, marks)
    }
}
