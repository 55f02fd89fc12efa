//! The configurations of a term list, level by level.
ghost use Rattle.std.specs.Prelude.{◌≡◌, ◌<◌, ◌≤◌, ◌++◌, [], ◌∷◌, length, IfOk, OnOk, IsErrOf};
ghost use Rattle.alias_cases.specs.{extended, next_level};
ghost use Rattle.case_model.specs.{AreConfigurations, AreMoreThan, IsTermList};

use crate::case::{Cases, CasesFault, Terms};
use crate::fitting::fitting_blocks;
use crate::steps::{Step, steps_to};
use sqlite_items::Items;
use std::alloc::{AllocError, Global};

/// All configurations of a term list, in order. Cases exactly where there are more than 65,536 of them, or Memory.
pub fn configurations(alloc: Global, terms: &Terms) -> Result<Cases, CasesFault>
    requires { IsTermList terms.now.list terms.now.classes }
    ensures whole { IfOk result (λ cases. AreConfigurations terms.now.list terms.now.classes cases.list) }
    ensures few { IfOk result (λ cases. length cases.list ≤ 65536) }
    ensures terms { IfOk result (λ cases. cases.terms ≡ terms.now) }
    ensures over { IsErrOf result CasesFault.Cases → AreMoreThan 65536 terms.now.list terms.now.classes }
{
    let found = steps_to(alloc, terms.list.as_slice())?;
    let steps = found.as_slice();
    let classes = terms.classes.as_slice();
    let mut level = Items::new(alloc);
    level.push(Items::new(alloc))?;
    'each: for (step, class) in steps.iter().zip(classes) {
        level = next_level(alloc, steps, classes, *step, *class, level.as_slice())?;
    }
    Ok(Cases {
        terms: terms.twin(alloc)?,
        list: level,
    })
}

/// These configurations, each with each block that the next term fits in. It is of the class, and this step leads
/// to it. Cases where there are more than 65,536, or Memory.
fn next_level(
    alloc: Global,
    steps: &[Option<Step>],
    classes: &[u32],
    step: Option<Step>,
    class: u32,
    level: &[Items<u32>],
) -> Result<Items<Items<u32>>, CasesFault>
    ensures ok { IfOk result (λ next. next ≡ next_level steps.now classes.now step class level.now) }
    ensures few { IfOk result (λ next. length next ≤ 65536) }
    ensures over { IsErrOf result CasesFault.Cases → 65536 < length (next_level steps.now classes.now step class level.now) }
{
    let mut next = Items::new(alloc);
    'each: for blocks in level {
        let found = fitting_blocks(alloc, steps, classes, step, class, blocks.as_slice())?;
        extend(alloc, &mut next, blocks.as_slice(), &found)?;
    }
    Ok(next)
}

/// Adds the configuration with each of these blocks behind it. Cases where they become more than 65,536, or Memory.
fn extend(
    alloc: Global,
    next: &mut Items<Items<u32>>,
    blocks: &[u32],
    found: &[u32],
) -> Result<(), CasesFault>
    requires { length next.old ≤ 65536 }
    ensures ok { OnOk result (next.new ≡ next.old ++ extended blocks.now found.now) }
    ensures few { OnOk result (length next.new ≤ 65536) }
    ensures over { IsErrOf result CasesFault.Cases → 65536 < length (next.old ++ extended blocks.now found.now) }
{
    'each: for block in found {
        if next.len() == 65_536 {
            return Err(CasesFault::Cases);
        }
        next.push(longer(alloc, blocks, *block)?)?;
    }
    Ok(())
}

/// The blocks with one more behind them.
fn longer(alloc: Global, blocks: &[u32], block: u32) -> Result<Items<u32>, AllocError>
    ensures { IfOk result (λ more. more ≡ blocks.now ++ block ∷ []) }
{
    let mut more = Items::from_slice(alloc, blocks)?;
    more.push(block)?;
    Ok(more)
}
