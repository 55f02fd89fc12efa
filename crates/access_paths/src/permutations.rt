//! The orders in which variables can be listed.
ghost use Rattle.std.specs.Prelude.{◌≡◌, ◌++◌, ◌≤◌, insert, length, IfOk, OnOk};
ghost use Rattle.std.specs.List.{flat_map};
ghost use Rattle.access_paths.specs.{insertions};
ghost use Rattle.access_paths.specs.Arguments as told;

use crate::term::Var;
use cv_base::{List, Memory};
use std::alloc::Global;

/// The variables in each order.
pub fn orders(alloc: Global, variables: &[Var]) -> Result<Vec<List<Var>>, Memory>
    ensures { IfOk result (λ made. made.items ≡ told.orders variables.now) }
{
    let Some((first, rest)) = variables.split_first() else {
        let mut made = Vec::new(alloc);
        made.push(List::from_vec(Vec::new(alloc)))
            .map_err(|_| Memory)?;
        return Ok(made);
    };
    let shorter = orders(alloc, rest)?;
    with_each(alloc, *first, shorter.as_slice())
}

/// Each of the lists with the variable at each place.
fn with_each(alloc: Global, variable: Var, lists: &[List<Var>]) -> Result<Vec<List<Var>>, Memory>
    ensures { IfOk result (λ made. made.items ≡ flat_map (insertions variable) lists.now) }
{
    let mut made = Vec::new(alloc);
    'each: for list in lists {
        insert_everywhere(alloc, variable, list.as_slice(), &mut made)?;
    }
    Ok(made)
}

/// Appends the list with the variable at each place.
fn insert_everywhere(
    alloc: Global,
    variable: Var,
    list: &[Var],
    made: &mut Vec<List<Var>>,
) -> Result<(), Memory>
    ensures { OnOk result (made.new.items ≡ made.old.items ++ insertions variable list.now) }
{
    'each: for place in 0..list.len() + 1 {
        let longer = inserted(alloc, variable, list, place)?;
        made.push(longer).map_err(|_| Memory)?;
    }
    Ok(())
}

/// The list with the variable at this place.
fn inserted(alloc: Global, variable: Var, list: &[Var], place: usize) -> Result<List<Var>, Memory>
    requires { place ≤ length list.now }
    ensures { IfOk result (λ longer. longer ≡ insert list.now place variable) }
{
    let mut longer = Vec::from_slice(alloc, list).map_err(|_| Memory)?;
    longer.insert(place, variable).map_err(|_| Memory)?;
    Ok(List::from_vec(longer))
}
