//! Lists of codes with one of some options at each place.
ghost use Rattle.std.specs.Prelude.{◌≡◌, ◌++◌, ◌∷◌, [], IfOk, OnOk};
ghost use Rattle.call_flows.specs.Lists.{longer, product_from, with_each};

use client_facts::Args;
use smallvec::SmallVec;
use std::alloc::{AllocError, Global};

/// No codes. It takes no memory.
pub(crate) fn no_codes(alloc: Global) -> Args
    ensures { result ≡ [] }
{
    Args(SmallVec::new(alloc))
}

/// Puts the code behind the others.
pub(crate) fn push_code(codes: &mut Args, code: u32) -> Result<(), AllocError>
    ensures { OnOk result (codes.new ≡ codes.old ++ code ∷ []) }
{
    codes.0.push(code)?;
    Ok(())
}

/// Puts these codes behind the others.
pub(crate) fn push_codes(codes: &mut Args, more: &[u32]) -> Result<(), AllocError>
    ensures { OnOk result (codes.new ≡ codes.old ++ more.now) }
{
    codes.0.extend_from_slice(more)?;
    Ok(())
}

/// The codes with this one behind them.
fn with_code(alloc: Global, codes: &Args, code: u32) -> Result<Args, AllocError>
    ensures { IfOk result (λ more. more ≡ codes.now ++ code ∷ []) }
{
    let mut more = codes.twin(alloc)?;
    push_code(&mut more, code)?;
    Ok(more)
}

/// Adds the codes with each of these options behind them.
fn add_with_each(
    alloc: Global,
    options: &[u32],
    codes: &Args,
    lists: &mut Vec<Args>,
) -> Result<(), AllocError>
    ensures { OnOk result (lists.new.items ≡ lists.old.items ++ with_each options.now codes.now) }
{
    'each: for option in options {
        let more = with_code(alloc, codes, *option)?;
        lists.push(more)?;
    }
    Ok(())
}

/// Each of the lists with each of these options behind it.
fn lists_with(alloc: Global, options: &[u32], lists: &[Args]) -> Result<Vec<Args>, AllocError>
    ensures { IfOk result (λ more. more.items ≡ longer options.now lists.now) }
{
    let mut more = Vec::new(alloc);
    'each: for codes in lists {
        add_with_each(alloc, options, codes, &mut more)?;
    }
    Ok(more)
}

/// All lists with one of the options of each place.
pub(crate) fn all_lists(alloc: Global, places: &[Args]) -> Result<Vec<Args>, AllocError>
    ensures { IfOk result (λ lists. lists.items ≡ product_from ([] ∷ []) places.now) }
{
    let mut lists = Vec::new(alloc);
    lists.push(no_codes(alloc))?;
    'each: for options in places {
        lists = lists_with(alloc, options.as_slice(), lists.as_slice())?;
    }
    Ok(lists)
}
