// A VF file read front to back over a shelf below.
ghost use Rattle.std.specs.Prelude.{◌≡◌, ◌+◌, ◌-◌, ◌<◌, ◌≤◌, length, IfSome, IfOk};
ghost use Rattle.vf.specs.Files.{positive, reading_of, fresh, opened, defined, packed, item, walk, walked, vf_in, vf_of};

use crate::entries::Local;
use crate::packets::packet_at;
use crate::tables::Vf;
use commands::definition_at;
use shelf::{Refusal, Shelf};

// Definitions come before packets, and packets before the bytes 248 that end the file.
#[derive(Clone, Copy)]
pub(crate) enum Phase {
    Definitions,
    Packets,
    Ending,
}

// The tables as far as the file has been read. The file and the place in it are handed down: if the reader held them,
// each clause would have to say that the file stays.
#[derive(Drop)]
pub(crate) struct Reader {
    phase: Phase,
    vf: Vf,
}

// The tables of a VF file whose local fonts are found below, or the first refusal.
#[tactic(auto, unfolding(crate::specs::Files::vf_of))]
pub fn read_vf<S: Shelf>(below: &S, file: &[u8]) -> Result<Vf, Refusal>
    ensures { vf_in result ≡ vf_of (S.means below.now).names file.now }
{
    let start = first_item(file).ok_or(Refusal::BrokenVf { place: 0 })?;
    // The reader is lent: handed over by value, its tables, of some 8 KB, are cleared and moved twice more.
    let mut reader = Reader::new();
    reader.items(below, file, start)?;
    Ok(reader.vf)
}

// The place after the preamble: 247 202, a length byte, a comment as long, check sum and design size.
fn first_item(file: &[u8]) -> Option<usize>
    ensures is { result ≡ opened file.now }
    ensures within { IfSome result (λ start. start ≤ length file.now) }
{
    let [247, 202, n, ..] = file else {
        return None;
    };
    let start = usize::from(*n) + 11;
    (start <= file.len()).then_some(start)
}

// Whether four bytes are a fix_word above 0, whose first byte is then 0.
fn is_positive(word: u32) -> bool
    ensures { result ≡ positive word }
{
    (1..16_777_216).contains(&word)
}

impl Reader {
    fn new() -> Reader
        ensures { reading_of result ≡ fresh }
    {
        Reader {
            phase: Phase::Definitions,
            vf: Vf::new(),
        }
    }

    // Item by item to the end of the file. Each item says where the next one begins, and changes the tables that the next is
    // read into: no iterator of the library steps so.
    fn items<S: Shelf>(&mut self, below: &S, file: &[u8], start: usize) -> Result<(), Refusal>
        requires { start ≤ length file.now }
        ensures { walked (reading_of self.new) result ≡ walk (S.means below.now).names file.now 0 start (length file.now - start) (reading_of self.old) }
    {
        let mut at = start;
        while at < file.len() {
            at = self.item(below, file, at)?;
        }
        match self.phase {
            Phase::Ending => Ok(()),
            _ => Err(Refusal::BrokenVf { place: at }),
        }
    }

    // The item at `at`; answers the place after it. That it lies further on and in the file is a fact of two values,
    // which no type here holds, so that `item`, `define` and `pack` each say it.
    fn item<S: Shelf>(&mut self, below: &S, file: &[u8], at: usize) -> Result<usize, Refusal>
        requires { at < length file.now }
        ensures is { (reading_of self.new, result) ≡ item (S.means below.now).names file.now at (reading_of self.old) }
        ensures on { IfOk result (λ n. at < n) }
        ensures within { IfOk result (λ n. n ≤ length file.now) }
    {
        match (file[at], self.phase) {
            (0..=242, Phase::Definitions | Phase::Packets) => self.pack(file, at),
            (op @ 243..=246, Phase::Definitions) => {
                self.define(below, file, at, usize::from(op) - 242)
            }
            (248, _) => {
                self.phase = Phase::Ending;
                Ok(at + 1)
            }
            _ => Err(Refusal::BrokenVf { place: at }),
        }
    }

    // The definition at `at`, whose number has `width` bytes.
    fn define<S: Shelf>(
        &mut self,
        below: &S,
        file: &[u8],
        at: usize,
        width: usize,
    ) -> Result<usize, Refusal>
        ensures is { (reading_of self.new, result) ≡ defined (S.means below.now).names file.now at width (reading_of self.old) }
        ensures on { IfOk result (λ n. at < n) }
        ensures within { IfOk result (λ n. n ≤ length file.now) }
    {
        let broken = Refusal::BrokenVf { place: at };
        if self.vf.is_full() {
            return Err(broken);
        }
        let d = definition_at(file, at, width).ok_or(broken)?;
        if !is_positive(d.size) || self.vf.local(d.number).is_some() {
            return Err(broken);
        }
        let font = below.find(d.name).ok_or(Refusal::NotBelow { place: at })?;
        self.vf.add_local(Local {
            number: d.number,
            font,
            size: d.size,
        });
        Ok(at + width + 15 + d.name.len())
    }

    // The packet at `at`.
    fn pack(&mut self, file: &[u8], at: usize) -> Result<usize, Refusal>
        ensures is { (reading_of self.new, result) ≡ packed file.now at (reading_of self.old) }
        ensures on { IfOk result (λ n. at < n) }
        ensures within { IfOk result (λ n. n ≤ length file.now) }
    {
        let broken = Refusal::BrokenVf { place: at };
        let k = packet_at(file, at).ok_or(broken)?;
        if self.vf.packet(k.code).is_some() {
            return Err(broken);
        }
        self.vf.add_packet(k);
        self.phase = Phase::Packets;
        Ok(k.packet.start + k.packet.length)
    }
}
