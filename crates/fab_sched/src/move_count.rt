//! The number of moves of a stage.

ghost use Rattle.std.specs.Prelude.{◌≡◌, ℕ, ◌+◌, ◌*◌, ◌<◌, ◌≤◌, ◌^◌, ◌↔◌, Ok, IfOk, IfErr, IsTrue};
ghost use Rattle.fab_sched.specs.declared.fault.SchedFault.TheVariants.{MovesOutOfRange};
ghost use Rattle.fab_sched.specs.Roots.{AreMoves, IsCubeRoot, cube as cubed, cubed_moves};

use crate::fault::SchedFault;

const MOST_MOVES: u64 = 1_073_741_824;

/// The moves of a stage by VPR's rule: `inner` · `blocks`^(4/3), rounded down, and at least 1.
///
/// `MovesOutOfRange` if `inner` is outside 1 to 10,000, or if the moves would be above 1,073,741,824.
#[tactic(auto, using(crate::proofs::Cubes::moves_are, crate::proofs::Cubes::moves_below))]
pub fn moves_of(inner: u64, blocks: u32) -> Result<u64, SchedFault>
    requires { blocks ≤ 65535 }
    ensures found { IfOk result (AreMoves inner blocks) }
    ensures only { (m : ℕ) → AreMoves inner blocks m → result ≡ Ok m }
    ensures fault { IfErr result (λ e. e ≡ MovesOutOfRange) }
{
    if !is_inner(inner) {
        return Err(SchedFault::MovesOutOfRange);
    }
    let bound = cube_of_moves(inner, blocks);
    if cube(MOST_MOVES + 1) <= bound {
        return Err(SchedFault::MovesOutOfRange);
    }
    Ok(cube_root(bound))
}

fn is_inner(inner: u64) -> bool
    ensures { IsTrue result ↔ ((1 ≤ inner) × (inner ≤ 10000)) }
{
    (1..=10_000).contains(&inner)
}

/// The cube of the moves of a stage, before rounding.
#[tactic(auto, using(crate::proofs::Cubes::cube_small, crate::proofs::Cubes::product_fits))]
fn cube_of_moves(inner: u64, blocks: u32) -> u128
    requires inner { inner ≤ 10000 }
    requires blocks { blocks ≤ 65535 }
    ensures cube { result ≡ cubed_moves inner blocks }
    ensures some { 1 ≤ result }
{
    let product = cube(inner) * fourth_power(blocks);
    product.max(1)
}

#[tactic(auto, using(crate::proofs::Cubes::square_small, crate::proofs::Cubes::fourth_small))]
fn fourth_power(n: u32) -> u128
    requires { n ≤ 65535 }
    ensures power { result ≡ n * n * n * n }
    ensures below { result < 2 ^ 64 }
{
    let squared = u128::from(n) * u128::from(n);
    squared * squared
}

fn cube(n: u64) -> u128
    requires { n ≤ 1073741825 }
    ensures { result ≡ cubed n }
{
    let wide = u128::from(n);
    wide * wide * wide
}

/// The whole part of the cube root of a number from 1 to 1,073,741,825³ - 1, by bisection.
fn cube_root(bound: u128) -> u64
    requires some { 1 ≤ bound }
    requires below { bound < cubed 1073741825 }
    ensures root { IsCubeRoot bound result }
    ensures limit { result ≤ 1073741824 }
{
    let mut low: u64 = 1;
    let mut high = MOST_MOVES + 1;
    'halving: while high - low > 1 {
        let middle = low + (high - low) / 2;
        if cube(middle) <= bound {
            low = middle;
        } else {
            high = middle;
        }
    }
    low
}
