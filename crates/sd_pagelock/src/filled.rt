//! Vectors with one value many times.

ghost use Rattle.std.specs.Prelude.{◌≡◌, None, IfOk, replicate};

use sd_base::{Memory, PAGES};
use std::alloc::Global;

/// So many times this value, or `Memory`.
pub fn repeated<X: Copy>(alloc: Global, count: u16, value: X) -> Result<Vec<X>, Memory>
    ensures { IfOk result (λ values. values.items ≡ replicate count value) }
{
    let mut values = Vec::with_capacity(alloc, count as usize)?;
    while values.len() < count as usize {
        values.push(value)?;
    }
    Ok(values)
}

/// Nothing for each of 1,024 pages, or `Memory`.
pub fn nothing<I: Drop>(alloc: Global) -> Result<Vec<Option<I>>, Memory>
    ensures { IfOk result (λ values. values.items ≡ replicate 1024 None) }
{
    let mut values = Vec::with_capacity(alloc, PAGES as usize)?;
    while values.len() < PAGES as usize {
        values.push(None)?;
    }
    Ok(values)
}
