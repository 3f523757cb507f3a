//! The nets of blocks, and how many pins of a block are on each.

ghost use Rattle.std.specs.Prelude.{◌≡◌, ℕ, ◌+◌, ◌++◌, ◌-◌, ◌^◌, ◌<◌, ◌≤◌, [], length, IfOk, OnOk, slice_index_or};
ghost use Rattle.std.specs.List.{All, sum_by};
ghost use Rattle.fab_net.specs.Rows.{row_of};
ghost use Rattle.fab_net.specs.BlockNets.{block_nets, block_pins, net_where, pins_at, pins_where};

use crate::netlist_types::{NetId, Terminal};
use crate::rows::{Rows, gather};
use std::alloc::{AllocError, Global};

/// Adds `net` to the row of each block on which it has a terminal. Each stamp is at most `net` before the call, and at most `net + 1` after
/// it.
fn push_net(
    entries: &mut Vec<(u32, NetId)>,
    stamps: &mut [u32],
    net: u32,
    row: &[Terminal],
) -> Result<(), AllocError>
    requires fits { net + 1 < 2 ^ 32 }
    requires blocks { All (λ t. t.block.0 < length stamps.old) row.now }
    requires stamped { All (λ s. s ≤ net) stamps.old }
    requires within { All (λ e. e.0 < length stamps.old) entries.old.items }
    ensures stamped { OnOk result (All (λ s. s ≤ net + 1) stamps.new) }
    ensures within { OnOk result (All (λ e. e.0 < length stamps.old) entries.new.items) }
    ensures few { OnOk result
        (length entries.new.items ≤ length entries.old.items + length row.now) }
    ensures rows { OnOk result ((b : ℕ) → b < length stamps.old →
        row_of entries.new.items b ≡ row_of entries.old.items b ++ net_where net row.now b) }
{
    for t in row {
        let block = t.block.0;
        if stamps[block as usize] != net + 1 {
            entries.push((block, NetId(net)))?;
            stamps[block as usize] = net + 1;
        }
    }
    Ok(())
}

/// Returns, for each block, its nets in ascending order, without global ones.
pub fn gather_nets(
    alloc: Global,
    blocks: usize,
    terminals: &Rows<Terminal>,
    globals: &[bool],
) -> Result<Rows<NetId>, AllocError>
    requires same { length terminals.now ≡ length globals.now }
    requires fits { length terminals.now < 2 ^ 32 - 1 }
    requires few { sum_by length terminals.now < 2 ^ 32 }
    requires within { (n : ℕ) → n < length terminals.now →
        All (λ t. t.block.0 < blocks) (slice_index_or terminals.now n []) }
    ensures { IfOk result (λ r. r ≡ block_nets blocks terminals.now globals.now) }
{
    let mut entries = Vec::new(alloc);
    let mut stamps = vec![in alloc; 0u32; blocks]?;
    for net in 0..globals.len() {
        if !globals[net] {
            push_net(&mut entries, &mut stamps, net as u32, terminals.row(net))?;
        }
    }
    gather(alloc, blocks, &entries, NetId(0))
}

/// Counts the terminals of a net on each block. All counts must be 0 before.
fn count_pins(counts: &mut [u32], row: &[Terminal])
    requires few { length row.now < 2 ^ 32 }
    requires blocks { All (λ t. t.block.0 < length counts.old) row.now }
    requires none { (b : ℕ) → b < length counts.old → slice_index_or counts.old b 0 ≡ 0 }
    ensures { (b : ℕ) → b < length counts.old → slice_index_or counts.new b 0 ≡ pins_at b row.now }
{
    for t in row {
        counts[t.block.0 as usize] += 1;
    }
}

/// For each block with a count, adds the count to its row and resets it to 0.
fn push_counts(
    entries: &mut Vec<(u32, u32)>,
    counts: &mut [u32],
    row: &[Terminal],
) -> Result<(), AllocError>
    requires blocks { All (λ t. t.block.0 < length counts.old) row.now }
    requires counted { (b : ℕ) → b < length counts.old →
        slice_index_or counts.old b 0 ≡ pins_at b row.now }
    requires within { All (λ e. e.0 < length counts.old) entries.old.items }
    ensures none { OnOk result ((b : ℕ) → b < length counts.old →
        slice_index_or counts.new b 0 ≡ 0) }
    ensures within { OnOk result (All (λ e. e.0 < length counts.old) entries.new.items) }
    ensures few { OnOk result
        (length entries.new.items ≤ length entries.old.items + length row.now) }
    ensures rows { OnOk result ((b : ℕ) → b < length counts.old →
        row_of entries.new.items b ≡ row_of entries.old.items b ++ pins_where row.now b) }
{
    for t in row {
        let block = t.block.0;
        let count = counts[block as usize];
        if count != 0 {
            entries.push((block, count))?;
            counts[block as usize] = 0;
        }
    }
    Ok(())
}

/// Returns, for each block, how many of its pins are on each of its nets. Its nets are in the order of `gather_nets`.
pub fn gather_pins(
    alloc: Global,
    blocks: usize,
    terminals: &Rows<Terminal>,
    globals: &[bool],
) -> Result<Rows<u32>, AllocError>
    requires same { length terminals.now ≡ length globals.now }
    requires few { sum_by length terminals.now < 2 ^ 32 }
    requires within { (n : ℕ) → n < length terminals.now →
        All (λ t. t.block.0 < blocks) (slice_index_or terminals.now n []) }
    ensures { IfOk result (λ r. r ≡ block_pins blocks terminals.now globals.now) }
{
    let mut entries = Vec::new(alloc);
    let mut counts = vec![in alloc; 0u32; blocks]?;
    for net in 0..globals.len() {
        if !globals[net] {
            let row = terminals.row(net);
            count_pins(&mut counts, row);
            push_counts(&mut entries, &mut counts, row)?;
        }
    }
    gather(alloc, blocks, &entries, 0)
}
