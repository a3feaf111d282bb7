// Words in memory of a fixed size.
ghost use Rattle.std.specs.Prelude.{◌≡◌, ◌≤◌, ◌==◌, [], ◌∷◌, ◌++◌, length, take};

// As many words as were put in. A word for which there is no room is left out: whoever fills the memory up takes that for too many.
// Kept: memory with a count beside it, since a `Vec` needs the heap, which no program of this repository has (a rule of the project).
#[derive(Clone, Copy, Debug)]
pub struct Words<const N: usize> {
    memory: [u64; N],
    used: usize,
    ghost within: { used ≤ N },
}

impl<const N: usize> Words<N> {
    ghost use Rattle.texts.specs.Words.{in_use, rows_of};

    pub fn new() -> Self
        ensures { in_use result ≡ [] }
    {
        Words {
            memory: [0; N],
            used: 0,
        }
    }

    pub fn is_full(&self) -> bool
        ensures { result ≡ (length (in_use self.now) == N) }
    {
        self.used == N
    }

    pub fn as_slice(&self) -> &[u64]
        ensures { result.now ≡ in_use self.now }
    {
        &self.memory[..self.used]
    }

    pub fn as_mut_slice(&mut self) -> &mut [u64]
        ensures { result.now ≡ in_use self.old }
    {
        let used = self.used;
        let memory = &mut self.memory;
        &mut memory[..used]
    }

    // Takes words back from the end, where there are more than so many.
    pub fn truncate(&mut self, used: usize)
        ensures { in_use self.new ≡ take used (in_use self.old) }
    {
        self.used = self.used.min(used);
    }

    pub fn push(&mut self, word: u64)
        ensures { in_use self.new ≡ take N (in_use self.old ++ word ∷ []) }
    {
        if self.used < N {
            self.memory[self.used] = word;
            self.used += 1;
        }
    }

    pub fn extend(&mut self, words: &[u64])
        ensures { in_use self.new ≡ take N (in_use self.old ++ words.now) }
    {
        for word in words {
            self.push(*word);
        }
    }

    // So many rows of these words, the first word counted up.
    pub fn extend_rows(&mut self, rows: u64, first: u64, others: &[u64])
        ensures { in_use self.new ≡ take N (in_use self.old ++ rows_of rows first others.now) }
    {
        for row in 0..rows {
            if self.is_full() {
                return;
            }
            self.push(first.wrapping_add(row));
            self.extend(others);
        }
    }
}
