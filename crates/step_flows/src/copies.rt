//! The names of a fact before and after a copy.
ghost use Rattle.std.specs.Prelude.{◌≡◌, ◌⊎◌, ℕ, List, [], ◌∷◌, Contains, IfOk};
ghost use Rattle.std.specs.Bool.{OnFalse, OnTrue};
ghost use Rattle.client_facts.specs.Flows.{copied};

use crate::fronts::{lengthened, no_names};
use client_facts::Args;
use std::alloc::{AllocError, Global};

/// The name before the copy that stands after it as the name with this code.
fn copied_name(target: Option<u32>, source: Option<u32>, code: u32) -> u32
    ensures { copied target source (code ∷ []) ≡ result ∷ [] }
{
    match target {
        None => code,
        Some(target) => match source {
            None => code,
            Some(source) => if code == target { source } else { code },
        },
    }
}

/// Whether these names before the copy are those of the others after it.
pub(crate) fn are_copied(
    target: Option<u32>,
    source: Option<u32>,
    args: &[u32],
    before: &[u32],
) -> bool
    ensures so { OnTrue result (copied target source args.now ≡ before.now) }
    ensures not_so { OnFalse result (copied target source args.now ≡ before.now → ⊥) }
{
    if args.len() != before.len() {
        return false;
    }
    'each: for (number, code) in args.iter().enumerate() {
        if copied_name(target, source, *code) != before[number] {
            return false;
        }
    }
    true
}

/// The names after the copy that this name before it may stand for: itself, and what it is copied to.
fn copies(
    alloc: Global,
    target: Option<u32>,
    source: Option<u32>,
    code: u32,
) -> Result<Vec<u32>, AllocError>
    ensures { IfOk result (λ v. (a : ℕ) → copied target source (a ∷ []) ≡ code ∷ [] → Contains v.items a) }
{
    let mut names = Vec::new(alloc);
    names.push(code)?;
    if let Some(name) = copied_to(target, source, code) {
        names.push(name)?;
    }
    Ok(names)
}

/// What the name is copied to, None where it is not copied.
fn copied_to(target: Option<u32>, source: Option<u32>, code: u32) -> Option<u32>
    ensures { (a : ℕ) → copied target source (a ∷ []) ≡ code ∷ [] → (a ≡ code) ⊎ (result ≡ Some a) }
{
    if source == Some(code) {
        return target;
    }
    None
}

/// Lists among which are all whose names before the copy are these.
pub(crate) fn copied_lists(
    alloc: Global,
    target: Option<u32>,
    source: Option<u32>,
    before: &[u32],
) -> Result<Vec<Args>, AllocError>
    ensures { IfOk result (λ v. (args : List ℕ) → copied target source args ≡ before.now → Contains v.items args) }
{
    let mut lists = no_names(alloc)?;
    'each: for code in before {
        let names = copies(alloc, target, source, *code)?;
        lists = lengthened(alloc, lists.as_slice(), names.as_slice())?;
    }
    Ok(lists)
}
