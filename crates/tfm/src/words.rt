// Words of a file, tested by the first of their four bytes.
ghost use Rattle.std.specs.Prelude.{◌≡◌, ℕ, ◌+◌, ◌*◌, ◌≤◌, Bool, length, slice_index};
ghost use Rattle.tfm.specs.Files.{every, indexed, fix_words};

use numbers::begins_fix_word;

// n words from a place of the file on.
#[derive(Clone, Copy)]
pub(crate) struct Words<'a> {
    pub(crate) file: &'a [u8],
    pub(crate) from: usize,
    pub(crate) n: usize,
    ghost inside: { from + 4 * n ≤ length file.now },
}

impl Words<'_> {
    // Whether each begins with a width index below the limit.
    pub(crate) fn are_below(&self, limit: usize) -> bool
        ensures { result ≡ indexed self.now.file.now self.now.from self.now.n limit }
    {
        self.each(|first| usize::from(first) < limit)
    }

    // Whether each begins with 0 or 255.
    pub(crate) fn are_fix_words(&self) -> bool
        ensures { result ≡ fix_words self.now.file.now self.now.from self.now.n }
    {
        self.each(|first| begins_fix_word(first))
    }

    // Whether the first byte of each passes a test that the closure computes. By place, as the tables of the format are
    // given: over `chunks` each clause would have to say again where a chunk stood.
    fn each<F: Fn(u8) -> bool>(&self, passes: F) -> bool
        requires { F.IsAlwaysCallable passes }
        ensures { (test : ℕ → Bool) → ((x : ℕ) (b : Bool) → F.post passes x b → b ≡ test x) → result ≡ every (λ i. test (slice_index self.now.file.now (self.now.from + 4 * i))) self.now.n }
    {
        (0..self.n).all(|i| passes(self.file[self.from + 4 * i]))
    }
}
