//! Random words. The start placement and the moves draw by them.

ghost use Rattle.std.specs.Prelude.{◌≡◌, ℕ, ◌+◌, ◌<◌, ◌^◌, List, [], length, slice_index_or};
ghost use Rattle.fab_site.specs.Words.{pick_of, word_at, words_at};

/// Random words of 32 bits. Each word depends only on its number.
pub trait Words {
    /// The four words of each move.
    ghost moves: { Self → ℕ → List ℕ };

    /// The start words.
    ghost starts: { Self → ℕ → ℕ };

    /// The four words of move `k`.
    fn move_words(&self, k: u64) -> [u32; 4]
        ensures { result ≡ moves self.now k };

    /// Start word `i`.
    fn start_word(&self, i: u32) -> u32
        ensures { result ≡ starts self.now i };

    /// Writes the words of the moves from `first` on, one entry of `out` for each move.
    fn fill_words(&self, first: u64, out: &mut [[u32; 4]])
        requires { first + length out.old < 2 ^ 64 }
        ensures { (i : ℕ) → i < length out.new →
            slice_index_or out.new i [] ≡ moves self.now (first + i) }
    {
        for i in 0..out.len() {
            out[i] = self.move_words(first + i as u64);
        }
    }

    /// Writes the start words from `first` on.
    fn fill_starts(&self, first: u32, out: &mut [u32])
        requires { first + length out.old < 2 ^ 32 }
        ensures { (i : ℕ) → i < length out.new →
            slice_index_or out.new i 0 ≡ starts self.now (first + i) }
    {
        for i in 0..out.len() {
            out[i] = self.start_word(first + i as u32);
        }
    }

    /// The words of move `k`, for a caller that judges the move again and still has them: `words`.
    fn words_again(&self, k: u64, words: [u32; 4]) -> [u32; 4]
        requires { words ≡ moves self.now k }
        ensures { result ≡ moves self.now k }
    {
        let _had = words;
        self.move_words(k)
    }
}

/// Words from two lists. Past the end of a list every word is 0.
#[derive(Drop)]
pub struct ListWords {
    pub starts: Vec<u32>,
    pub moves: Vec<[u32; 4]>,
}

impl Words for ListWords {
    ghost moves = { λ w. words_at w.moves.items };

    ghost starts = { λ w. word_at w.starts.items };

    fn move_words(&self, k: u64) -> [u32; 4] {
        match self.moves.get(k as usize) {
            Some(words) => *words,
            None => [0; 4],
        }
    }

    fn start_word(&self, i: u32) -> u32 {
        match self.starts.get(i as usize) {
            Some(word) => *word,
            None => 0,
        }
    }
}

/// Picks one of `n` choices by the word `w`: `floor(w * n / 2^32)`. If `n` is not 0, this is below `n`.
pub fn pick(w: u32, n: u32) -> u32
    ensures value { result ≡ pick_of w n }
    ensures below { 0 < n → result < n }
{
    ((u64::from(w) * u64::from(n)) >> 32) as u32
}
