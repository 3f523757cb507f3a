//! The numbers of the moves that an owner accepted, if it keeps them.

ghost use Rattle.std.specs.Prelude.{◌≡◌, ℕ, ◌+◌, [], ◌∷◌, OnOk};
ghost use Rattle.fab_commit.specs.Run.Noted.{HasRoomFor, noted, noted_more};

use std::alloc::AllocError;

/// Reserves room for `moves` more numbers, if numbers are kept.
pub(crate) fn reserve_numbers(
    numbers: &mut Option<Vec<u64>>,
    moves: usize,
) -> Result<(), AllocError>
    ensures same { noted numbers.new ≡ noted numbers.old }
    ensures room { OnOk result (HasRoomFor numbers.new moves) }
{
    match numbers {
        Some(kept) => kept.reserve(moves),
        None => Ok(()),
    }
}

/// Notes the number of an accepted move, if numbers are kept.
pub(crate) fn note(numbers: &mut Option<Vec<u64>>, number: u64)
    requires room { HasRoomFor numbers.old 1 }
    ensures noted { noted numbers.new ≡ noted_more (noted numbers.old) (number ∷ []) }
    ensures room { (n : ℕ) → HasRoomFor numbers.old (n + 1) → HasRoomFor numbers.new n }
{
    if let Some(kept) = numbers {
        kept.push_reserved(number);
    }
}
