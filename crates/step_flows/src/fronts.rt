//! Name lists that grow by one name at a time, each name among those that may stand there.
ghost use Rattle.std.specs.Prelude.{◌≡◌, ℕ, List, [], ◌∷◌, ◌++◌, All, Contains, IfOk, OnOk};

use client_facts::Args;
use smallvec::SmallVec;
use std::alloc::{AllocError, Global};

/// The list of no names alone.
pub(crate) fn no_names(alloc: Global) -> Result<Vec<Args>, AllocError>
    ensures { IfOk result (λ v. Contains v.items []) }
{
    let mut fronts = Vec::new(alloc);
    fronts.push(Args(SmallVec::new(alloc)))?;
    Ok(fronts)
}

/// Each of the lists with each of the names behind it.
pub(crate) fn lengthened(
    alloc: Global,
    fronts: &[Args],
    codes: &[u32],
) -> Result<Vec<Args>, AllocError>
    ensures { IfOk result (λ v. All (λ args. All (λ code. Contains v.items (args ++ code ∷ [])) codes.now) fronts.now) }
{
    let mut longer = Vec::new(alloc);
    'each: for front in fronts {
        add_longer(alloc, &mut longer, front, codes)?;
    }
    Ok(longer)
}

/// Adds the list with each of the names behind it.
fn add_longer(
    alloc: Global,
    longer: &mut Vec<Args>,
    front: &Args,
    codes: &[u32],
) -> Result<(), AllocError>
    ensures kept { OnOk result ((args : List ℕ) → Contains longer.old.items args → Contains longer.new.items args) }
    ensures added { OnOk result (All (λ code. Contains longer.new.items (front.now ++ code ∷ [])) codes.now) }
{
    'each: for code in codes {
        longer.push(with(alloc, front, *code)?)?;
    }
    Ok(())
}

/// The list with the name behind it.
fn with(alloc: Global, front: &Args, code: u32) -> Result<Args, AllocError>
    ensures { IfOk result (λ args. args ≡ front.now ++ code ∷ []) }
{
    let mut codes = SmallVec::from_slice(alloc, front.as_slice())?;
    codes.push(code)?;
    Ok(Args(codes))
}
