//! A slot for each number's answer, for tests of the crew. A run of the program does not use it.
ghost use Rattle.std.specs.Prelude.{◌≡◌, map, Some, None, IfOk, replicate};

use std::alloc::{AllocError, Global};

/// An empty slot for each number.
pub fn vacant<T: Drop>(alloc: Global, count: u64) -> Result<Vec<Option<T>>, AllocError>
    ensures { IfOk result (λ v. v.items ≡ replicate count None) }
{
    let mut slots = Vec::with_capacity(alloc, count as usize)?;
    for _place in 0..count {
        slots.push(None)?;
    }
    Ok(slots)
}

/// Takes the answers out of their slots. Returns an error if a slot is empty: memory ran out for its number.
pub fn unwrap_all<T: Drop>(alloc: Global, slots: Vec<Option<T>>) -> Result<Vec<T>, AllocError>
    ensures { IfOk result (λ v. map (λ answer. Some answer) v.items ≡ slots.items) }
{
    let mut all = Vec::with_capacity(alloc, slots.len())?;
    for slot in slots {
        let Some(answer) = slot else {
            return Err(AllocError);
        };
        all.push(answer)?;
    }
    Ok(all)
}
