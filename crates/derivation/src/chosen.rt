//! Chosen cubes as predicates.
ghost use Rattle.std.specs.Prelude.{◌≡◌, ◌++◌, All, IfOk, OnOk, map, unwrap_or, slice_get, if◌then◌else◌};
ghost use Rattle.std.specs.List.{AllZip};
ghost use Rattle.std.specs.Option.{option_copied, option_map_or};
ghost use Rattle.access_paths.specs.{HasKnownVariables, IsCube};
ghost use Rattle.derivation.specs.Replies.{IsPredicateOf};
ghost use Rattle.derivation.specs.Replies as told;

use crate::put::put_last;
use crate::reply::Predicate;
use access_paths::{Cube, Family, family_of};
use cv_base::{List, Memory};
use easl_model::Method;
use std::alloc::Global;

/// These cubes as predicates over variables of these classes, by number.
pub(crate) fn predicates(
    alloc: Global,
    cubes: &[Cube],
    classes: &[u32],
) -> Result<List<Predicate>, Memory>
    requires cubes { All IsCube cubes.now }
    requires known { All HasKnownVariables cubes.now }
    ensures { IfOk result (λ made. AllZip (IsPredicateOf classes.now) cubes.now made) }
{
    let mut made = Vec::new(alloc);
    'each: for cube in cubes {
        let predicate = predicate(alloc, cube, classes)?;
        put_last(&mut made, predicate)?;
    }
    Ok(List::from_vec(made))
}

fn predicate(alloc: Global, cube: &Cube, classes: &[u32]) -> Result<Predicate, Memory>
    requires cube { IsCube cube.now }
    requires known { HasKnownVariables cube.now }
    ensures { IfOk result (IsPredicateOf classes.now cube.now) }
{
    if cube.literals.as_slice().is_empty() {
        return Ok(Predicate::Always);
    }
    Ok(Predicate::Of(family_of(alloc, cube, classes)?))
}

/// The class of the family's variable of this number, 0 where there is none.
fn family_class(family: Option<&Family>, number: usize) -> u32
    ensures { result ≡ option_map_or (λ f. unwrap_or (slice_get f.classes number) 0) (option_copied family.entry) 0 }
{
    let Some(family) = family else {
        return 0;
    };
    match family.classes.as_slice().get(number) {
        Some(class) => *class,
        None => 0,
    }
}

/// The class of the receiver, 0 where there is none.
fn receiver_class(method: &Method) -> u32
    ensures { result ≡ (if method.now.constructor then 0 else method.now.class) }
{
    if method.constructor { 0 } else { method.class }
}

/// The classes of a question's variables by number, 0 where one has none.
pub(crate) fn classes_of(
    alloc: Global,
    method: &Method,
    family: Option<&Family>,
) -> Result<Vec<u32>, Memory>
    ensures { IfOk result (λ classes. classes.items ≡ told.classes_by_number method.now (option_copied family.entry)) }
{
    let mut classes = Vec::new(alloc);
    put_last(&mut classes, family_class(family, 0))?;
    put_last(&mut classes, family_class(family, 1))?;
    put_last(&mut classes, family_class(family, 2))?;
    put_last(&mut classes, receiver_class(method))?;
    add_parameters(&mut classes, method.params.as_slice())?;
    Ok(classes)
}

/// Adds the classes of parameters, 0 where one has none.
fn add_parameters(classes: &mut Vec<u32>, params: &[Option<u32>]) -> Result<(), Memory>
    ensures { OnOk result (classes.new.items ≡ classes.old.items ++ map (λ c. unwrap_or c 0) params.now) }
{
    'each: for class in params {
        put_last(classes, class.unwrap_or(0))?;
    }
    Ok(())
}
