// The byte strings that a script has named, and the lines that name them.
ghost use Rattle.std.specs.Prelude.{◌≡◌, ◌<◌, ℕ, List, map, None, Ok, IfErr};
ghost use Rattle.std.specs.Option.{ok_or, option_copied};
ghost use Rattle.std.specs.Result.{result_ok};
ghost use Rattle.script.specs.Bytes.{filled_bytes, spelled_bytes, Makes};
ghost use Rattle.script.specs.Naming.{bytes_of, list_of, Defines, Gives, Loads};
ghost use Rattle.script.specs.declared.problems.Problem.TheVariants.{NoSuchBytes, NotBytes};

use crate::problems::Problem;
use crate::words;
use crate::words::Number;
use std::alloc::Global;
use std::{array, fs};

// A name's last byte chooses its list, where the newest stands last. So a line that names bytes asks for no other name,
// and no choice of names makes it long; a look-up goes through one list, and through all names at the worst. Few lists,
// since each `case` clears them all.
#[derive(Drop)]
pub struct Store {
    lists: [Vec<Named>; 8],
}

#[derive(Drop)]
pub struct Named {
    name: Vec<u8>,
    bytes: Vec<u8>,
}

impl Store {
    pub fn new(heap: Global) -> Store
        ensures { (name : List ℕ) → bytes_of result name ≡ None }
    {
        Store {
            lists: array::from_fn(|_| Vec::new(heap)),
        }
    }

    pub fn forget(&mut self)
        ensures { (name : List ℕ) → bytes_of self.new name ≡ None }
    {
        // by place, since `iter_mut` does not say what it leaves
        for i in 0..8 {
            self.lists[i].clear();
        }
    }

    // The bytes that were last given this name.
    pub fn find(&self, name: &[u8]) -> Result<&[u8], Problem>
        ensures found { option_copied (result_ok result) ≡ bytes_of self.now name.now }
        ensures missing { IfErr result (λ problem. problem ≡ NoSuchBytes) }
    {
        let list = self.lists[list_of(name)].as_slice();
        // from the end, since the newest counts
        let mut i = list.len();
        while i > 0 {
            i -= 1;
            if list[i].name.as_slice() == name {
                return Ok(list[i].bytes.as_slice());
            }
        }
        Err(Problem::NoSuchBytes)
    }

    // A line that names bytes, by all its words.
    pub fn define(&mut self, rt: &HostRuntime, line: &[&[u8]]) -> Result<(), Problem>
        ensures { Defines self.old self.new (map (λ word. word.now) line.now) result }
    {
        match line {
            [b"bytes", name, digits] => self.spell(name, digits, rt.alloc()),
            [b"fill", name, byte, count] => self.fill(name, byte, count, rt.alloc()),
            [b"file", name, path] => self.load(name, path, rt),
            _ => Err(Problem::WrongCount),
        }
    }

    fn spell(&mut self, name: &[u8], digits: &[u8], heap: Global) -> Result<(), Problem>
        ensures { Gives self.old self.new name.now (ok_or (spelled_bytes digits.now) NotBytes) result }
    {
        self.give(name, words::bytes(digits, heap)?, heap)
    }

    fn fill(&mut self, name: &[u8], byte: &[u8], count: &[u8], heap: Global) -> Result<(), Problem>
        ensures { Gives self.old self.new name.now (filled_bytes byte.now count.now) result }
    {
        self.give(name, filled(byte, count, heap)?, heap)
    }

    fn load(&mut self, name: &[u8], path: &[u8], rt: &HostRuntime) -> Result<(), Problem>
        ensures { Loads self.old self.new name.now path.now result }
    {
        let path = std::str::from_utf8(path).map_err(|_| Problem::NotText)?;
        let bytes = fs::read(rt, path).map_err(|_| Problem::NoSuchFile)?;
        self.give(name, bytes, rt.alloc())
    }

    fn give(&mut self, name: &[u8], bytes: Vec<u8>, heap: Global) -> Result<(), Problem>
        ensures { Gives self.old self.new name.now (Ok bytes.items) result }
    {
        let list = list_of(name);
        let name = Vec::from_slice(heap, name)?;
        self.lists[list].push(Named { name, bytes })?;
        Ok(())
    }
}

// Names that end in digits are spread over all lists.
fn list_of(name: &[u8]) -> usize
    ensures is { result ≡ list_of name.now }
    ensures bound { result < 8 }
{
    match name {
        [.., last] => usize::from(*last % 8),
        [] => 0,
    }
}

fn filled(byte: &[u8], count: &[u8], heap: Global) -> Result<Vec<u8>, Problem>
    ensures { Makes (filled_bytes byte.now count.now) result }
{
    let byte = u8::try_from(usize::spelled(byte)?).map_err(|_| Problem::NotByte)?;
    Ok(vec![in heap; byte; usize::spelled(count)?]?)
}
