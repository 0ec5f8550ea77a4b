// A rank made, and files added to it.
ghost use Rattle.std.specs.Prelude.{◌≡◌, ◌+◌, ◌<◌, ◌≤◌, false, [], ◌∷◌, ◌++◌, length, IfSome, IfOk, if◌then◌else◌, Some, None, OnErr};
ghost use Rattle.std.specs.Option.{option_map};
ghost use Rattle.shelf.specs.Names.{found_in};
ghost use Rattle.shelf.specs.Spelling.{spelled};
ghost use Rattle.vf.specs.Fonts.{font_of};
ghost use Rattle.rank.specs.Adding.{added, lacking, free};
ghost use Rattle.rank.specs.Held.{files_of};
ghost use Rattle.rank.specs.Ranks.{rank_of};

use crate::fonts::Font;
use crate::ranks::Rank;
use shelf::{Name, Refusal, Shelf};
use std::alloc::{AllocError, Global};
use vf::{Vf, read_vf};

const MAX_FILES: usize = 8;

const MAX_BYTES: usize = 32_768;

const MAX_FONTS: u16 = 4096;

impl<S: Shelf + Drop> Rank<S> {
    // A rank with no file, and memory for all that it may be given.
    pub fn new(below: S, heap: Global) -> Result<Rank<S>, AllocError>
        ensures below { IfOk result (λ k. k.below ≡ below) }
        ensures bytes { IfOk result (λ k. k.bytes.items ≡ []) }
        ensures files { IfOk result (λ k. k.fonts.items ≡ []) }
    {
        let bytes = Vec::with_capacity(heap, MAX_BYTES)?;
        let fonts = Vec::with_capacity(heap, MAX_FILES)?;
        Ok(Rank {
            below,
            bytes,
            fonts,
        })
    }
}

// Whether there is no room for so many bytes more.
fn no_room(files: usize, bytes: usize, fonts: u16, more: usize) -> bool
    ensures is { result ≡ lacking files bytes fonts more }
    ensures files { result ≡ false → files < 8 }
    ensures bytes { result ≡ false → bytes + more ≤ 32768 }
    ensures fonts { result ≡ false → fonts < 4096 }
{
    files >= MAX_FILES || bytes.saturating_add(more) > MAX_BYTES || fonts >= MAX_FONTS
}

impl<S: Shelf> Rank<S> {
    // What the rank means is written out in the contracts: a definition of specs/ cannot name the ghost members of `S`.

    // The name that a new font is given; none where it has not 1 to 63 bytes, or a font bears it already. It reads as the
    // TFM shelf's, but asks another table; what both share is `Name::new`, and a function for the rest would be as long.
    fn new_name(&self, bytes: &[u8]) -> Option<Name>
        ensures is { option_map spelled result ≡ (if free (rank_of (S.means self.now.below) (files_of self.now)).names bytes.now then Some bytes.now else None) }
        ensures fresh { IfSome result (λ n. found_in (rank_of (S.means self.now.below) (files_of self.now)).names (spelled n) ≡ None) }
    {
        let name = Name::new(bytes)?;
        self.find(bytes).is_none().then_some(name)
    }

    // Puts a file behind the others; the memory for it is there. That the shelf below stays is a clause of each call here,
    // and in no type, since it sets the rank after the call beside the one before.
    fn keep(&mut self, name: Name, file: &[u8], vf: Vf)
        requires few { length self.old.fonts.items < 8 }
        requires short { length self.old.bytes.items + length file.now ≤ 32768 }
        requires room { length (rank_of (S.means self.old.below) (files_of self.old)).names < 4096 }
        requires fresh { found_in (rank_of (S.means self.old.below) (files_of self.old)).names (spelled name) ≡ None }
        ensures is { files_of self.new ≡ files_of self.old ++ record { name = spelled name; file = file.now; font = font_of vf } ∷ [] }
        ensures below { self.new.below ≡ self.old.below }
    {
        let start = self.bytes.len();
        let length = file.len();
        if self.bytes.extend_from_slice(file).is_err() {
            return;
        }
        self.fonts.push_reserved(Font {
            name,
            start,
            length,
            vf,
        });
    }

    // Adds a file under a name, or refuses it and leaves the rank as it was.
    pub fn add(&mut self, name: &[u8], file: &[u8]) -> Result<(), Refusal>
        ensures is { (files_of self.new, result) ≡ added (S.means self.old.below) (files_of self.old) name.now file.now }
        ensures below { self.new.below ≡ self.old.below }
        ensures same { OnErr result (self.new ≡ self.old) }
    {
        if no_room(
            self.fonts.len(),
            self.bytes.len(),
            self.count().fonts,
            file.len(),
        ) {
            return Err(Refusal::ShelfFull);
        }
        let kept = self.new_name(name).ok_or(Refusal::VfName)?;
        let vf = read_vf(&self.below, file)?;
        self.keep(kept, file, vf);
        Ok(())
    }
}
