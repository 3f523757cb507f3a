//! The random words of a seed, from the ChaCha cipher.

ghost use Rattle.std.specs.Prelude.{◌≡◌, ℕ, ◌+◌, ◌-◌, ◌*◌, ◌<◌, ◌≤◌, ◌^◌, [], length, slice_index_or};
ghost use Rattle.rand_chacha.specs.ChaCha.{key_of, word_at};
ghost use Rattle.fab_move.specs.Stream.{block_words, cipher_seed, stream_moves, stream_starts, stream_word, words_from};

use fab_site::Words;
use rand_chacha::ChaCha8Rng;
use rand_core::SeedableRng;
use rand_core::utils::NextWord;
use std::marker::Model;

/// The random words of a seed. They are the same on every machine.
#[derive(Drop)]
pub struct StreamWords {
    seed: u64,
    cipher_seed: [u8; 32],
}

impl Model for StreamWords {
    ghost use Rattle.std.specs.Prelude.{ℕ, ◌≡◌};
    ghost use Rattle.fab_move.specs.Stream.{cipher_seed as cipher_seed_of};

    ghost Value = { ℕ };

    ghost view = { λ w. w.seed };

    ghost invariant = { λ w. w.cipher_seed ≡ cipher_seed_of w.seed };
}

impl StreamWords {
    /// The words of a seed.
    pub fn new(seed: u64) -> StreamWords
        ensures { result ≡ seed }
    {
        StreamWords {
            seed,
            cipher_seed: cipher_seed_of(seed),
        }
    }

    /// The cipher, set to start word `i`.
    fn starts_from(&self, i: u32) -> ChaCha8Rng
        ensures { result ≡
            record { key = key_of (cipher_seed self.now); stream = 1; word_pos = i } }
    {
        let mut stream = ChaCha8Rng::from_seed(self.cipher_seed);
        stream.set_stream(1);
        stream.set_word_pos(u128::from(i));
        stream
    }
}

impl Words for StreamWords {
    ghost moves = { λ w. stream_moves w };

    ghost starts = { λ w. stream_starts w };

    fn move_words(&self, k: u64) -> [u32; 4] {
        next_four(&mut moves_from(self.cipher_seed, k))
    }

    // The cipher makes the blocks of four moves at once. If it starts anew for each four moves, its compiled code need not test at which
    // place of its blocks it is. If it went on, it would have to test this for each word.
    fn fill_words(&self, first: u64, out: &mut [[u32; 4]]) {
        let done = fill_fours(self.cipher_seed, first, out);
        if done < out.len() {
            let mut stream = moves_from(self.cipher_seed, first + done as u64);
            fill_rest(&mut stream, done, out);
        }
    }

    fn words_again(&self, _k: u64, words: [u32; 4]) -> [u32; 4] {
        words
    }

    fn start_word(&self, i: u32) -> u32 {
        self.starts_from(i).next_word()
    }

    // The start words follow one another, so one cipher makes 64 of them at once.
    fn fill_starts(&self, first: u32, out: &mut [u32]) {
        fill_in_row(&mut self.starts_from(first), out);
    }
}

/// The seed of the cipher: the eight bytes of `seed`, the lowest first, and then zeros.
fn cipher_seed_of(seed: u64) -> [u8; 32]
    ensures { result ≡ cipher_seed seed }
{
    let low = seed.to_le_bytes();
    [
        low[0], low[1], low[2], low[3], low[4], low[5], low[6], low[7], 0, 0, 0, 0, 0, 0, 0, 0, 0,
        0, 0, 0, 0, 0, 0, 0, 0, 0, 0, 0, 0, 0, 0, 0,
    ]
}

/// The cipher, set to the first word of move `k`.
#[inline(always)]
fn moves_from(cipher_seed: [u8; 32], k: u64) -> ChaCha8Rng
    ensures { result ≡ record { key = key_of cipher_seed; stream = 0; word_pos = 16 * k } }
{
    let mut stream = ChaCha8Rng::from_seed(cipher_seed);
    stream.set_word_pos(16 * u128::from(k));
    stream
}

/// The words of the four moves from `first` on.
#[inline(always)]
fn four_moves(cipher_seed: [u8; 32], first: u64) -> [[u32; 4]; 4]
    requires { first + 4 < 2 ^ 64 }
    ensures { (j : ℕ) → j < 4 →
        slice_index_or result j [] ≡ block_words (key_of cipher_seed) (first + j) }
{
    let mut stream = moves_from(cipher_seed, first);
    let one = next_four(&mut stream);
    pass_twelve(&mut stream);
    let two = next_four(&mut stream);
    pass_twelve(&mut stream);
    let three = next_four(&mut stream);
    pass_twelve(&mut stream);
    let four = next_four(&mut stream);
    [one, two, three, four]
}

/// Writes the words of the moves from `first` on in whole groups of four; up to three entries at the end of `out` are left. Returns how
/// many entries it wrote.
fn fill_fours(cipher_seed: [u8; 32], first: u64, out: &mut [[u32; 4]]) -> usize
    requires { first + length out.old < 2 ^ 64 }
    ensures within { result ≤ length out.new }
    ensures each { (i : ℕ) → i < result →
        slice_index_or out.new i [] ≡ block_words (key_of cipher_seed) (first + i) }
{
    let fours = out.len() / 4;
    'fours: for i in 0..fours {
        let [one, two, three, four] = four_moves(cipher_seed, first + 4 * i as u64);
        out[4 * i] = one;
        out[4 * i + 1] = two;
        out[4 * i + 2] = three;
        out[4 * i + 3] = four;
    }
    4 * fours
}

/// Fills `out` from entry `done` on. Each entry gets the first four words of a block of 16.
fn fill_rest(stream: &mut ChaCha8Rng, done: usize, out: &mut [[u32; 4]])
    requires within { done ≤ length out.old }
    requires places { stream.old.word_pos + 16 * (length out.old - done) < 2 ^ 68 }
    ensures each { (i : ℕ) → done + i < length out.new →
        slice_index_or out.new (done + i) [] ≡
        words_from stream.old (stream.old.word_pos + 16 * i) }
    ensures before { (i : ℕ) → i < done →
        slice_index_or out.new i [] ≡ slice_index_or out.old i [] }
{
    'entries: for i in done..out.len() {
        out[i] = next_four(stream);
        pass_twelve(stream);
    }
}

/// Fills `out` with the next words.
fn fill_in_row(stream: &mut ChaCha8Rng, out: &mut [u32])
    requires { stream.old.word_pos + length out.old < 2 ^ 68 }
    ensures { (i : ℕ) → i < length out.new →
        slice_index_or out.new i 0 ≡
        word_at 4 stream.old.key stream.old.stream (stream.old.word_pos + i) }
{
    'entries: for i in 0..out.len() {
        out[i] = stream.next_word();
    }
}

/// The next four words.
#[inline(always)]
fn next_four(stream: &mut ChaCha8Rng) -> [u32; 4]
    requires { stream.old.word_pos + 4 < 2 ^ 68 }
    ensures words { result ≡ words_from stream.old stream.old.word_pos }
    ensures later { stream.new ≡ record stream.old { word_pos = stream.old.word_pos + 4 } }
{
    [
        stream.next_word(),
        stream.next_word(),
        stream.next_word(),
        stream.next_word(),
    ]
}

/// Skips twelve words.
#[inline(always)]
fn pass_twelve(stream: &mut ChaCha8Rng)
    requires { stream.old.word_pos + 12 < 2 ^ 68 }
    ensures { stream.new ≡ record stream.old { word_pos = stream.old.word_pos + 12 } }
{
    // There is no loop, so that the compiler sees where the cipher is after each word.
    let _first = next_four(stream);
    let _second = next_four(stream);
    let _third = next_four(stream);
}
