//! Whether a change of cost is accepted.

ghost use Rattle.std.specs.Prelude.{◌≡◌, ◌*◌, ◌/◌, ◌<◌};
ghost use Rattle.fab_move.specs.Accept.{chance_of, is_accepted, millionths};

/// Entry n is the chance of accepting a change of n temperatures, in millionths. Beyond the table the chance is 0.
const WHOLE_CHANCES: [u32; 15] = [
    1_000_000, 367_879, 135_335, 49_787, 18_316, 6_738, 2_479, 912, 335, 123, 45, 17, 6, 2, 1,
];

/// Entry n is the factor for n more sixteenths of a temperature, in millionths.
const SIXTEENTH_CHANCES: [u32; 16] = [
    1_000_000, 939_413, 882_497, 829_029, 778_801, 731_616, 687_289, 645_649, 606_531, 569_783,
    535_261, 502_832, 472_367, 443_747, 416_862, 391_606,
];

/// Whether the word `w` accepts the change of cost `delta` at temperature `t`. `delta` and `t` are in ten-thousandths. A change that makes
/// nothing worse is always accepted. At temperature 0 no other change is accepted.
#[tactic(auto, unfolding(crate::specs::Accept::is_accepted))]
pub fn accepts(delta: i64, t: u64, w: u32) -> bool
    ensures { result ≡ is_accepted delta t w }
{
    if delta <= 0 {
        true
    } else if t == 0 {
        false
    } else {
        fraction(w) < chance_at(delta as u64, t)
    }
}

/// The word `w` as a fraction of 2^32, in millionths, rounded down.
fn fraction(w: u32) -> u64
    ensures { result ≡ millionths w }
{
    (u64::from(w) * 1_000_000) >> 32
}

/// The chance of accepting the change of cost `delta` at temperature `t`, in millionths.
#[tactic(auto, using(crate::proofs::Chances::none_so_far))]
fn chance_at(delta: u64, t: u64) -> u64
    requires { 0 < t }
    ensures { result ≡ chance_of (16 * delta / t) }
{
    if delta >= 1 << 59 || t >= 1 << 59 {
        return chance_of_large(delta, t);
    }
    // A change beyond the table needs no division.
    if delta >= 15 * t {
        return 0;
    }
    chance(16 * delta / t)
}

/// The same as `chance_at` for numbers of any size, by a longer division.
#[cold]
#[tactic(auto, using(crate::proofs::Chances::none_beyond))]
fn chance_of_large(delta: u64, t: u64) -> u64
    requires { 0 < t }
    ensures { result ≡ chance_of (16 * delta / t) }
{
    let z = 16 * u128::from(delta) / u128::from(t);
    if z < 240 { chance(z as u64) } else { 0 }
}

/// The chance of accepting a change of `z` sixteenths of a temperature, in millionths.
#[tactic(auto, unfolding(crate::specs::Accept::chance_of))]
fn chance(z: u64) -> u64
    requires { z < 240 }
    ensures { result ≡ chance_of z }
{
    u64::from(WHOLE_CHANCES[z as usize / 16]) * u64::from(SIXTEENTH_CHANCES[z as usize % 16])
        / 1_000_000
}
