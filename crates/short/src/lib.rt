// A few bytes, kept where they stand: the project has no heap.
#![tactic(auto)]

ghost use Rattle.std.specs.Prelude.{◌≡◌, ℕ, ◌+◌, ◌-◌, ◌<◌, ◌≤◌, List, [], ◌∷◌, ◌++◌, length, take, drop, replicate};
ghost use Rattle.short.specs.Zeros.{filled-back, length-back};

use std::marker::Model;

// At most N bytes: the first `len` of the buffer. The others are 0.
#[derive(Clone, Copy)]
pub struct Short<const N: usize> {
    bytes: [u8; N],
    len: usize,
}

// Clauses see the bytes alone, and these say what the whole buffer holds, since the others are 0.
impl<const N: usize> Model for Short<N> {
    ghost Value = { List ℕ };

    ghost view = { λ s. take s.len s.bytes };

    ghost invariant = { λ s. (s.len ≤ N) × (length s.bytes ≡ N) × (drop s.len s.bytes ≡ replicate (N - s.len) 0) };

    ghost inverse = { λ l. record { bytes = l ++ replicate (N - length l) 0; len = length l } };

    ghost inverse_ok = { λ s h i. record { bytes = filled-back N s.bytes s.len h i; len = length-back N s.bytes s.len h i } };
}

impl<const N: usize> Short<N> {
    pub fn new() -> Self
        ensures { result ≡ [] }
    {
        Short {
            bytes: [0; N],
            len: 0,
        }
    }

    pub fn len(&self) -> usize
        ensures size { result ≡ length self.now }
        ensures within { result ≤ N }
    {
        self.len
    }

    pub fn as_slice(&self) -> &[u8]
        ensures { result.now ≡ self.now }
    {
        &self.bytes[..self.len]
    }

    // One byte more; nothing where N stand there already.
    pub fn push(&mut self, b: u8)
        ensures fits { length self.old < N → self.new ≡ self.old ++ b ∷ [] }
        ensures full { N ≤ length self.old → self.new ≡ self.old }
    {
        if self.len < N {
            self.bytes[self.len] = b;
            self.len += 1;
        }
    }

    // Some bytes more; nothing where they don't fit.
    pub fn extend(&mut self, more: &[u8])
        ensures fits { length self.old + length more.now ≤ N → self.new ≡ self.old ++ more.now }
        ensures full { N < length self.old + length more.now → self.new ≡ self.old }
    {
        if more.len() <= N - self.len {
            let end = self.len + more.len();
            let bytes = &mut self.bytes[..];
            bytes[self.len..end].copy_from_slice(more);
            self.len = end;
        }
    }
}
