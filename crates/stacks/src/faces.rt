// Faces made from the TFM files that the command line names.
ghost use Rattle.std.specs.Prelude.{◌≡◌, ◌+◌, ◌*◌, ◌<◌, ◌≤◌, ℕ, List, ◌∷◌, [], ◌++◌, OnOk, length, take};

use answers::refused;
use shelf::Refusal;
use std::alloc::AllocError;
use terminal::{Failure, Font};
use tfm::{Entry, NotMade, TfmShelf};

pub fn faces_of(rt: &HostRuntime, fonts: &[Font]) -> Result<TfmShelf, Failure> {
    let heap = rt.alloc();
    let mut loaded = Loaded {
        bytes: Vec::new(heap),
        entries: Vec::new(heap),
    };
    for font in fonts {
        let file = terminal::read(rt, font.file)?;
        loaded.add(font.name.as_bytes(), unpadded(file.as_slice()))?;
    }
    TfmShelf::new(loaded.bytes.as_slice(), loaded.entries.as_slice(), heap).try_map_err(
        |why| match why {
            NotMade::Refused(refusal) => Ok(refused(file_of(refusal, fonts), refusal, heap)?),
            NotMade::NoMemory(error) => Ok(error.into()),
        },
    )
}

// Names and files one behind the other, and where each stands, as `TfmShelf::new` takes them.
#[derive(Drop)]
struct Loaded {
    bytes: Vec<u8>,
    entries: Vec<Entry>,
}

impl Loaded {
    fn add(&mut self, name: &[u8], file: &[u8]) -> Result<(), AllocError>
        ensures bytes { OnOk result (self.new.bytes.items ≡ self.old.bytes.items ++ (name.now ++ file.now)) }
        ensures entries { OnOk result (self.new.entries.items ≡ self.old.entries.items ++ record { name_place = length self.old.bytes.items; name_length = length name.now; file_place = length self.old.bytes.items + length name.now; file_length = length file.now } ∷ []) }
    {
        let name_place = self.bytes.len();
        self.bytes.extend_from_slice(name)?;
        let file_place = self.bytes.len();
        self.bytes.extend_from_slice(file)?;
        self.entries.push(Entry {
            name_place,
            name_length: name.len(),
            file_place,
            file_length: file.len(),
        })?;
        Ok(())
    }
}

// A TFM file begins with its length in words of four bytes, and some are padded beyond it. A file that is shorter than
// it says is handed on whole, so that the library refuses it.
fn unpadded(file: &[u8]) -> &[u8]
    ensures short { length file.now < 2 → result.now ≡ file.now }
    ensures cut { (a b : ℕ) (rest : List ℕ) → file.now ≡ a ∷ b ∷ rest → (256 * a + b) * 4 ≤ length file.now → result.now ≡ take ((256 * a + b) * 4) file.now }
    ensures whole { (a b : ℕ) (rest : List ℕ) → file.now ≡ a ∷ b ∷ rest → length file.now < (256 * a + b) * 4 → result.now ≡ file.now }
{
    let [high, low, ..] = file else {
        return file;
    };
    let words = usize::from(u16::from_be_bytes([*high, *low]));
    file.get(..words * 4).unwrap_or(file)
}

// The file that a refusal is about.
fn file_of<'a>(refusal: Refusal, fonts: &[Font<'a>]) -> Option<&'a str> {
    match refusal {
        Refusal::BrokenTfm { entry } | Refusal::TfmName { entry } => Some(fonts.get(entry)?.file),
        _ => None,
    }
}
