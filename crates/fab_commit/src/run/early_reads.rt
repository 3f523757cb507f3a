//! Reads early what the next moves look at. A large design does not fit the nearest caches, and the reads of a move wait for one another:
//! its block, the target, the block there, the nets of both. Here the reads of many moves wait side by side. No result depends on what is
//! read.

ghost use Rattle.fab_commit.specs.Run.Commits.{IsSound, run_for};

use crate::run::state::{Given, State};
use fab_move::{Proposal, chosen, propose};
use fab_net::BlockId;
use fab_site::Words;

/// A design of fewer blocks fits the nearest caches, and reading early would only take time.
const LARGE: usize = 16_384;

/// The most moves that are looked at together.
const MOST: usize = 32;

/// The number of no block.
const NO_BLOCK: BlockId = BlockId(u32::MAX);

/// If the design is large, reads what the moves with these words will look at. The returned value has no meaning: a caller keeps it, so
/// that the compiler keeps the reads. Allocates nothing.
pub(crate) fn read_early<W: Words>(given: &Given<'_, W>, state: &State, words: &[[u32; 4]]) -> u64
    requires sound { IsSound (run_for W.moves given.now) state.now }
{
    if given.design.blocks() < LARGE {
        return 0;
    }
    let own = read_own(given, state, words);
    let displaced = read_displaced(given, state, words);
    own ^ displaced
}

/// Reads the blocks that the words choose.
fn read_own<W: Words>(given: &Given<'_, W>, state: &State, words: &[[u32; 4]]) -> u64
    requires sound { IsSound (run_for W.moves given.now) state.now }
{
    let mut read: u64 = 0;
    'words: for i in 0..words.len() {
        if let Some(block) = chosen(given.design, &given.fixed, words[i][0]) {
            read ^= read_block(state, block);
        }
    }
    read
}

/// Reads the blocks on the targets that the words propose now.
fn read_displaced<W: Words>(given: &Given<'_, W>, state: &State, words: &[[u32; 4]]) -> u64
    requires sound { IsSound (run_for W.moves given.now) state.now }
{
    let mut others = [NO_BLOCK; MOST];
    'words: for i in 0..words.len().min(MOST) {
        others[i] = displaced(given, state, words[i]);
    }
    let mut read: u64 = 0;
    'others: for i in 0..MOST {
        read ^= read_block(state, others[i]);
    }
    read
}

/// The block that a move with these words would displace now, or a number that no block has.
fn displaced<W: Words>(given: &Given<'_, W>, state: &State, words: [u32; 4]) -> BlockId
    requires sound { IsSound (run_for W.moves given.now) state.now }
{
    let proposal = propose(
        given.design,
        given.grid,
        &given.fixed,
        &state.placement,
        state.stage.range,
        words,
    );
    match proposal {
        Proposal::Move(swap) => match swap.other {
            Some(other) => other,
            None => NO_BLOCK,
        },
        Proposal::Nothing => NO_BLOCK,
        Proposal::Void(_, _) => NO_BLOCK,
    }
}

/// Reads what is kept of `block`, if there is a block of this number.
fn read_block(state: &State, block: BlockId) -> u64 {
    if block.0 as usize >= state.placement.blocks() {
        return 0;
    }
    let site = state.placement.site_of(block);
    u64::from(site.x) ^ state.cost.read_early(block)
}
