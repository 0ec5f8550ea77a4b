// One search serves every table: the first entry that has a key.
ghost use Rattle.std.specs.Prelude.{◌≡◌, ◌<◌, Bool, length, IfSome};
ghost use Rattle.numbers.specs.Match.{first_match};

// An entry of a table that can be asked whether it has a key.
pub trait Keyed<K> {
    ghost has: { Self → K → Bool };

    fn has_key(&self, key: K) -> bool
        ensures { result ≡ has self.now key };
}

// The index of the first entry that has the key; none where none has.
pub fn first_match<K: Copy, T: Keyed<K>>(table: &[T], key: K) -> Option<usize>
    ensures first { result ≡ first_match (λ x. T.Keyed.has x key) table.now }
    ensures within { IfSome result (λ k. k < length table.now) }
{
    table.iter().position(|x| x.has_key(key))
}
