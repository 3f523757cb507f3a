//! Circuits that are grown from a seed. They have pads, and tables of four inputs and one output. Most inputs come from nearby blocks.

use crate::draws::Draws;
use fab_text::push_number;
use std::alloc::{AllocError, Global};

/// The architecture of grown circuits: four inputs, an output, and four pads at each position.
pub const ARCH: &[u8] =
    b"io_rat 4\ninpin class: 0 left\ninpin class: 0 right\ninpin class: 0 top\ninpin class: 0 bottom\noutpin class: 1 top right\n";

// How often the distance is doubled, at most.
const DOUBLINGS: u32 = 6;

// A circuit that is being grown. Its logic blocks stand in rows of `side`.
#[derive(Clone, Copy)]
struct Plan {
    logic: u32,
    side: u32,
    /// The number of input pads, which is also the number of output pads.
    pads: u32,
    /// On average, one of `hubs` inputs hangs on a hub, which is one of the first pads.
    hubs: u32,
}

const HUBS: u32 = 12;

// The least side, at most 1,000, of a square with room for `count` blocks.
fn side_of(count: u32) -> u32 {
    for side in 1..1001u32 {
        if side.saturating_mul(side) >= count {
            return side;
        }
    }
    1000
}

fn push_name(text: &mut Vec<u8>, letter: u8, number: u32) -> Result<(), AllocError> {
    text.push(letter)?;
    push_number(text, u64::from(number))
}

// A coordinate at most `reach` from `at`.
fn near(draws: &mut Draws, at: u32, reach: u32, side: u32) -> u32 {
    let high = at.saturating_add(reach).min(side.saturating_sub(1));
    draws.between(at.saturating_sub(reach), high)
}

// How far from a block one of its inputs may come. Each distance is drawn half as often as the one that is half as far.
fn reach_of(draws: &mut Draws) -> u32 {
    let mut reach: u32 = 1;
    for _doubling in 0..DOUBLINGS {
        if draws.below(2) == 0 {
            return reach;
        }
        reach = reach.saturating_mul(2);
    }
    reach
}

// The block at a column and a row, or the last one.
fn block_at(plan: &Plan, x: u32, y: u32) -> u32 {
    y.saturating_mul(plan.side)
        .saturating_add(x)
        .min(plan.logic.saturating_sub(1))
}

// Writes the net of an input of the block at a column and a row.
fn push_source(
    text: &mut Vec<u8>,
    plan: &Plan,
    draws: &mut Draws,
    x: u32,
    y: u32,
) -> Result<(), AllocError> {
    text.push(b' ')?;
    if draws.below(plan.hubs) == 0 {
        return push_name(text, b'i', draws.below(plan.pads.min(HUBS)));
    }
    let reach = reach_of(draws);
    let column = near(draws, x, reach, plan.side);
    let row = near(draws, y, reach, plan.side);
    let block = block_at(plan, column, row);
    if block == block_at(plan, x, y) {
        return push_name(text, b'i', draws.below(plan.pads));
    }
    push_name(text, b'n', block)
}

// Writes the lines of a logic block.
fn push_logic(
    text: &mut Vec<u8>,
    plan: &Plan,
    draws: &mut Draws,
    x: u32,
    y: u32,
) -> Result<(), AllocError> {
    let number = block_at(plan, x, y);
    text.extend_from_slice(b".clb ")?;
    push_name(text, b'b', number)?;
    text.extend_from_slice(b"\npinlist:")?;
    for _ in 0..4 {
        push_source(text, plan, draws, x, y)?;
    }
    text.push(b' ')?;
    push_name(text, b'n', number)?;
    text.extend_from_slice(b"\nsubblock: ")?;
    push_name(text, b'b', number)?;
    text.extend_from_slice(b" 0 1 2 3 4\n\n")
}

// Writes the lines of the pads.
fn push_pads(text: &mut Vec<u8>, plan: &Plan, draws: &mut Draws) -> Result<(), AllocError> {
    for pad in 0..plan.pads {
        text.extend_from_slice(b".input ")?;
        push_name(text, b'p', pad)?;
        text.extend_from_slice(b"\npinlist: ")?;
        push_name(text, b'i', pad)?;
        text.extend_from_slice(b"\n\n.output ")?;
        push_name(text, b'o', pad)?;
        text.extend_from_slice(b"\npinlist: ")?;
        push_name(text, b'n', draws.below(plan.logic))?;
        text.extend_from_slice(b"\n\n")?;
    }
    Ok(())
}

/// The netlist of a circuit of `logic` logic blocks, with four pads for each row of them. On average, one of `hubs` inputs hangs on one of
/// a few nets.
pub fn grown(alloc: Global, logic: u64, hubs: u64, seed: u64) -> Result<Vec<u8>, AllocError> {
    let logic = logic.clamp(1, 60_000) as u32;
    let side = side_of(logic);
    let plan = Plan {
        logic,
        side,
        pads: side.saturating_mul(2),
        hubs: hubs.clamp(1, 1_000_000) as u32,
    };
    let mut draws = Draws::new(seed);
    let mut text = Vec::new(alloc);
    push_pads(&mut text, &plan, &mut draws)?;
    for y in 0..side {
        for x in 0..side {
            if y.saturating_mul(side).saturating_add(x) < logic {
                push_logic(&mut text, &plan, &mut draws, x, y)?;
            }
        }
    }
    Ok(text)
}
