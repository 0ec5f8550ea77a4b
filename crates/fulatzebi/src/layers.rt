// The shelf that a bundle of fonts makes: the faces of its TFM files, and four ranks of VF files above them.
ghost use Rattle.std.specs.Prelude.{◌≡◌, ◌⊎◌, IfOk, IfErr, Ok, Err, map};
ghost use Rattle.std.specs.Option.{option_map, unwrap_or};
ghost use Rattle.shelf.specs.Refusals.{returned};
ghost use Rattle.rank.specs.Held.{files_of};
ghost use Rattle.rank.specs.Ranks.{rank_of};
ghost use Rattle.fulatzebi.specs.Answers.{no_memory};
ghost use Rattle.fulatzebi.specs.Layers.{Faced, bytes_in, entry_in, known, laid, of_rank, offered, shelf_of, stop_of};

use crate::records::FontRecord;
use crate::stops::{Step, Stop, Why};
use rank::Rank;
use shelf::{Refusal, Shelf};
use std::alloc::{AllocError, Global};
use tfm::{Entry, NotMade, TfmShelf};

// A rank to which no file is added is as if it were not there, so that every bundle has a shelf of one type.
pub(crate) type Stack = Rank<Rank<Rank<Rank<TfmShelf>>>>;

const RANKS: u32 = 4;

// The bytes of a bundle, and the fonts in it.
#[derive(Clone, Copy)]
pub(crate) struct Bundle<'a> {
    pub(crate) bytes: &'a [u8],
    pub(crate) fonts: &'a [FontRecord],
}

// No call keeps a shelf: each makes it from its bundle, and drops it.
pub(crate) fn stack_of(bundle: Bundle<'_>, heap: Global) -> Result<Stack, Stop>
    ensures made { IfOk result (λ s. Ok (⟦<Stack as Shelf>⟧.means s) ≡ shelf_of bundle.entry.bytes.now bundle.entry.fonts.now) }
    ensures refused { IfErr result (λ s. (s ≡ no_memory) ⊎ (Err s ≡ shelf_of bundle.entry.bytes.now bundle.entry.fonts.now)) }
{
    if !are_known(bundle.fonts) {
        return Err(Stop {
            step: Step::Call,
            why: Why::BadRecord,
        });
    }
    let faces = faces_of(bundle, heap)?;
    let first = ranked(faces, 1, bundle, heap)?;
    let second = ranked(first, 2, bundle, heap)?;
    let third = ranked(second, 3, bundle, heap)?;
    ranked(third, 4, bundle, heap)
}

fn are_known(fonts: &[FontRecord]) -> bool
    ensures { result ≡ known fonts.now }
{
    fonts.iter().all(|font| font.rank <= RANKS)
}

fn faces_of(bundle: Bundle<'_>, heap: Global) -> Result<TfmShelf, Stop>
    ensures { Faced bundle.entry.bytes.now bundle.entry.fonts.now result }
{
    let fonts = fonts_of(bundle.fonts, 0, heap)?;
    let entries = entries_of(fonts.as_slice(), heap)?;
    TfmShelf::new(bundle.bytes, entries.as_slice(), heap).map_err(not_made)
}

// The fonts of one rank, in their order.
fn fonts_of(fonts: &[FontRecord], rank: u32, heap: Global) -> Result<Vec<FontRecord>, AllocError>
    ensures { IfOk result (λ v. v.items ≡ of_rank rank fonts.now) }
{
    fonts
        .iter()
        .copied()
        .filter(|font| font.rank == rank)
        .collect(heap)
}

fn entries_of(fonts: &[FontRecord], heap: Global) -> Result<Vec<Entry>, AllocError>
    ensures { IfOk result (λ v. v.items ≡ map entry_in fonts.now) }
{
    fonts.iter().map(entry_of).collect(heap)
}

fn entry_of(font: &FontRecord) -> Entry
    ensures { result ≡ entry_in font.now }
{
    Entry {
        name_place: font.name_place,
        name_length: font.name_length,
        file_place: font.file_place,
        file_length: font.file_length,
    }
}

fn not_made(why: NotMade) -> Stop
    ensures { result ≡ stop_of why }
{
    match why {
        NotMade::Refused(refusal) => Step::Font {
            rank: 0,
            index: entry_refused(refusal),
        }
        .refused(refusal),
        NotMade::NoMemory(error) => Stop::from(error),
    }
}

// The TFM file that a refusal names, counted from 0; 0 where it is about all of them.
fn entry_refused(refusal: Refusal) -> usize
    ensures { result ≡ unwrap_or (returned refusal).value 0 }
{
    refusal.value().unwrap_or(0)
}

// A rank with the files that the bundle has for it.
fn ranked<S: Shelf + Drop>(
    below: S,
    rank: u32,
    bundle: Bundle<'_>,
    heap: Global,
) -> Result<Rank<S>, Stop>
    ensures made { IfOk result (λ r. Ok (rank_of (S.means r.below) (files_of r)) ≡ laid bundle.entry.bytes.now bundle.entry.fonts.now rank (S.means below)) }
    ensures refused { IfErr result (λ s. (s ≡ no_memory) ⊎ (Err s ≡ laid bundle.entry.bytes.now bundle.entry.fonts.now rank (S.means below))) }
{
    let fonts = fonts_of(bundle.fonts, rank, heap)?;
    let mut made = Rank::new(below, heap)?;
    // `index` goes into a refusal, and each file is held against those before it, so nothing collects them.
    for (index, font) in fonts.as_slice().iter().enumerate() {
        if let Err(why) = add(&mut made, font, bundle.bytes) {
            return Err(Stop {
                step: Step::Font { rank, index },
                why,
            });
        }
    }
    Ok(made)
}

fn add<S: Shelf>(made: &mut Rank<S>, font: &FontRecord, bytes: &[u8]) -> Result<(), Why>
    ensures is { (files_of made.new, result) ≡ offered (S.means made.old.below) (files_of made.old) bytes.now font.now }
    ensures below { made.new.below ≡ made.old.below }
{
    let Some(name) = bytes_at(bytes, font.name_place, font.name_length) else {
        return Err(Why::BadRecord);
    };
    let Some(file) = bytes_at(bytes, font.file_place, font.file_length) else {
        return Err(Why::BadRecord);
    };
    made.add(name, file).map_err(Why::Refused)
}

// The n bytes from a place on; none where they reach outside.
pub(crate) fn bytes_at(bytes: &[u8], place: usize, n: usize) -> Option<&[u8]>
    ensures { option_map (λ s. s.now) result ≡ bytes_in bytes.now place n }
{
    bytes.get(place..)?.get(..n)
}
