// The output buffer that a script's runs write into.
ghost use Rattle.std.specs.Prelude.{◌≡◌, ◌+◌, ◌≤◌, length};

use script::Problem;
use std::alloc::{AllocError, Global};

// What a fresh buffer holds.
const FILLER: u8 = 170;

// The offset basis and the prime of the 64-bit FNV-1a hash.
const BASIS: u64 = 0xcbf2_9ce4_8422_2325;

const PRIME: u64 = 0x0000_0100_0000_01b3;

#[derive(Drop)]
pub struct Buffer {
    bytes: Vec<u8>,
}

impl Buffer {
    // Of no byte.
    pub fn empty(heap: Global) -> Buffer {
        Buffer {
            bytes: Vec::new(heap),
        }
    }

    pub fn fresh(count: usize, heap: Global) -> Result<Buffer, AllocError> {
        Ok(Buffer {
            bytes: vec![in heap; FILLER; count]?,
        })
    }

    // So many bytes from the front, as a call is given them.
    pub fn front(&mut self, length: usize) -> Result<&mut [u8], Problem> {
        self.bytes
            .as_mut_slice()
            .get_mut(..length)
            .ok_or(Problem::NoSuchPlace)
    }

    // The bytes that a caller writes over those at a place.
    pub fn poke(&mut self, place: usize, bytes: &[u8]) -> Result<(), Problem> {
        let end = place.checked_add(bytes.len()).ok_or(Problem::NoSuchPlace)?;
        let part = self
            .bytes
            .as_mut_slice()
            .get_mut(place..end)
            .ok_or(Problem::NoSuchPlace)?;
        part.copy_from_slice(bytes);
        Ok(())
    }

    // The hash of all bytes, and of so many from the front.
    pub fn hash(&self) -> u64 {
        hash(self.bytes.as_slice())
    }

    pub fn hash_of_front(&self, length: usize) -> u64 {
        hash(self.bytes.as_slice().get(..length).unwrap_or(&[]))
    }
}

fn hash(bytes: &[u8]) -> u64 {
    bytes.iter().fold(
        BASIS,
        |hash, byte| (hash ^ u64::from(*byte)).wrapping_mul(PRIME),
    )
}
