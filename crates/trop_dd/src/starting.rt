// The numbers that stay, in their order.
ghost use Rattle.std.specs.Prelude.{◌≡◌, ◌<◌, ◌↔◌, ℕ, true, false, All, Contains, IfOk, filter, length, slice_index_or};
ghost use Rattle.trop_dd.specs.Numbers.{AreCommon};

use std::alloc::{AllocError, Global};

// Which of the numbers below `many` are in the list.
fn flagged(alloc: Global, many: usize, numbers: &[usize]) -> Result<Vec<bool>, AllocError>
    requires within { All (λ k. k < many) numbers.now }
    ensures long { IfOk result (λ flags. length flags.items ≡ many) }
    ensures each { IfOk result (λ flags. (k : ℕ) → k < many →
        (slice_index_or flags.items k false ≡ true) ↔ Contains numbers.now k) }
{
    let mut flags = vec![in alloc; false; many]?;
    for i in 0..numbers.len() {
        flags[numbers[i]] = true;
    }
    Ok(flags)
}

// The numbers that are flagged.
fn picked(alloc: Global, order: &[usize], flags: &[bool]) -> Result<Vec<usize>, AllocError>
    requires within { All (λ k. k < length flags.now) order.now }
    ensures { IfOk result (λ picked. picked.items ≡ filter (λ k. slice_index_or flags.now k false) order.now) }
{
    let mut picked = Vec::with_capacity(alloc, order.len())?;
    for i in 0..order.len() {
        let number = order[i];
        if flags[number] {
            picked.push(number)?;
        }
    }
    Ok(picked)
}

// The numbers of the order that are in the other list too.
pub fn staying(
    alloc: Global,
    many: usize,
    order: &[usize],
    others: &[usize],
) -> Result<Vec<usize>, AllocError>
    requires within { All (λ k. k < many) order.now }
    requires others_within { All (λ k. k < many) others.now }
    ensures { IfOk result (λ start. AreCommon order.now others.now start.items) }
{
    let flags = flagged(alloc, many, others)?;
    picked(alloc, order, flags.as_slice())
}
