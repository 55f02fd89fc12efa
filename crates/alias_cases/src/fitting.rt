//! The blocks that the next term of a list may join.
ghost use Rattle.std.specs.Prelude.{◌≡◌, ◌+◌, slice_index, IfOk};
ghost use Rattle.alias_cases.specs.{fitting_blocks, is_alike, led_to, open_blocks};

use crate::steps::Step;
use std::alloc::{AllocError, Global};

/// The blocks that the next term fits in, rising. It is of the class, and this step leads to it.
pub(crate) fn fitting_blocks(
    alloc: Global,
    steps: &[Option<Step>],
    classes: &[u32],
    step: Option<Step>,
    class: u32,
    blocks: &[u32],
) -> Result<Vec<u32>, AllocError>
    ensures { IfOk result (λ found. found.items ≡ fitting_blocks steps.now classes.now step class blocks.now) }
{
    if let Some(own) = step {
        if let Some(block) = led_to(steps, own, blocks) {
            return Vec::from_slice(alloc, &[block]);
        }
    }
    open_blocks(alloc, classes, class, blocks)
}

/// The block to which the same field leads from a term that is joined with the shorter one.
fn led_to(steps: &[Option<Step>], own: Step, blocks: &[u32]) -> Option<u32>
    ensures { result ≡ led_to blocks.now own steps.now blocks.now }
{
    'each: for (step, block) in steps.iter().zip(blocks) {
        if is_alike(blocks, own, *step) {
            return Some(*block);
        }
    }
    None
}

/// Whether the step is along the same field, from a term that is joined with the shorter one.
fn is_alike(blocks: &[u32], own: Step, step: Option<Step>) -> bool
    ensures { result ≡ is_alike blocks.now own step }
{
    match step {
        Some(other) => {
            other.field == own.field
                && block_at(blocks, other.shorter) == block_at(blocks, own.shorter)
        }
        None => false,
    }
}

/// The blocks of terms of this class, and a new one.
fn open_blocks(
    alloc: Global,
    classes: &[u32],
    class: u32,
    blocks: &[u32],
) -> Result<Vec<u32>, AllocError>
    ensures { IfOk result (λ found. found.items ≡ open_blocks class 0 classes.now blocks.now) }
{
    let mut found = Vec::new(alloc);
    let mut next = 0u32;
    'each: for (block, other) in blocks.iter().zip(classes) {
        if *block == next {
            next = number_after(next)?;
            if *other == class {
                found.push(*block)?;
            }
        }
    }
    found.push(next)?;
    Ok(found)
}

/// The next number; where there is none, so many blocks are want of memory.
fn number_after(number: u32) -> Result<u32, AllocError>
    ensures { IfOk result (λ next. next ≡ number + 1) }
{
    number.checked_add(1).ok_or(AllocError)
}

/// The block at a place, 0 where there is none.
pub(crate) fn block_at(blocks: &[u32], place: usize) -> u32
    ensures { result ≡ slice_index blocks.now place }
{
    match blocks.get(place) {
        Some(block) => *block,
        None => 0,
    }
}
