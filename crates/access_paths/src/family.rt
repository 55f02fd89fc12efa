//! The family of a cube: the least of its renamings.
ghost use Rattle.std.specs.Prelude.{◌≡◌, ◌≤◌, All, length, map, slice_index, IfOk, if◌then◌else◌};
ghost use Rattle.std.specs.List.{list_any};
ghost use Rattle.std.specs.Ordering.{is_lt};
ghost use Rattle.access_paths.specs.{AreArguments, HasKnownVariables, IsCube, IsFamilyOf, IsInstance, IsLeastAmong, below, place_of, var, variables};
ghost use Rattle.access_paths.specs.Arguments as told;
ghost use Rattle.access_paths.specs.Families as families;

use crate::cube::cmp_cube;
use crate::permutations::orders;
use crate::rename::substitute;
use crate::term::{Cube, Family, Instance, Literal, Var};
use cv_base::{List, Memory};
use std::alloc::Global;
use std::cmp::Ordering;

/// How many variables a question has.
const VARIABLES: u8 = 8;

/// The family of the cube, with its arguments: of all renamings of its variables to x1, x2 and so on the one with the
/// least cube, then the least list of classes, then the least list of arguments. `classes` has the class of each
/// variable by number; one that has no entry counts as of class 0. It tries each order of the variables.
/// `Memory` where there is none left.
pub fn family_of(alloc: Global, cube: &Cube, classes: &[u32]) -> Result<Instance, Memory>
    requires cube { IsCube cube.now }
    requires known { HasKnownVariables cube.now }
    ensures family { IfOk result (IsFamilyOf cube.now classes.now) }
    ensures arguments { IfOk result (λ i. length i.args ≡ length (variables cube.now)) }
{
    let variables = variables_of(alloc, cube)?;
    let orders = orders(alloc, variables.as_slice())?;
    let first = instance(alloc, cube, classes, variables.as_slice())?;
    least(alloc, cube, classes, first, orders.as_slice())
}

/// The cube's variables, by number.
fn variables_of(alloc: Global, cube: &Cube) -> Result<Vec<Var>, Memory>
    ensures { IfOk result (λ found. found.items ≡ map var (variables cube.now)) }
{
    let mut found = Vec::new(alloc);
    'each: for number in 0..VARIABLES {
        if has_variable(cube, number) {
            found.push(Var(number)).map_err(|_| Memory)?;
        }
    }
    Ok(found)
}

/// Whether a literal of the cube has the variable.
fn has_variable(cube: &Cube, number: u8) -> bool
    ensures { result ≡ list_any (told.has number) cube.now.literals }
{
    let literals = cube.literals.as_slice();
    literals.iter().any(|literal| has(literal, number))
}

/// Whether the literal has the variable.
fn has(literal: &Literal, number: u8) -> bool
    ensures { result ≡ told.has number literal.now }
{
    literal.less.var.0 == number || literal.more.var.0 == number
}

/// The least of this instance and those that have one of these lists as arguments.
fn least(
    alloc: Global,
    cube: &Cube,
    classes: &[u32],
    first: Instance,
    lists: &[List<Var>],
) -> Result<Instance, Memory>
    requires cube { IsCube cube.now }
    requires known { HasKnownVariables cube.now }
    requires first { IsInstance cube.now classes.now first }
    requires lists { All (λ args. AreArguments cube.now args × (length args ≤ 8)) lists.now }
    ensures { IfOk result (IsLeastAmong cube.now classes.now lists.now) }
{
    let mut least = first;
    'each: for args in lists {
        let other = instance(alloc, cube, classes, args.as_slice())?;
        least = lesser(least, other);
    }
    Ok(least)
}

/// The second one where it is less, and else the first.
fn lesser(first: Instance, second: Instance) -> Instance
    ensures { result ≡ (if is_lt (families.compare_instances second first) then second else first) }
{
    if compare_instances(&second, &first).is_lt() {
        second
    } else {
        first
    }
}

/// The order of instances: by cube, then classes, then arguments.
fn compare_instances(left: &Instance, right: &Instance) -> Ordering
    ensures { result ≡ families.compare_instances left.now right.now }
{
    let classes = left
        .family
        .classes
        .as_slice()
        .cmp(right.family.classes.as_slice());
    let args = left.args.as_slice().cmp(right.args.as_slice());
    cmp_cube(&left.family.cube, &right.family.cube).then(classes.then(args))
}

/// The cube with x1, x2 and so on in the places of the arguments, with the arguments and their classes.
fn instance(alloc: Global, cube: &Cube, classes: &[u32], args: &[Var]) -> Result<Instance, Memory>
    requires cube { IsCube cube.now }
    requires known { HasKnownVariables cube.now }
    requires arguments { AreArguments cube.now args.now }
    requires few { length args.now ≤ 8 }
    ensures instance { IfOk result (IsInstance cube.now classes.now) }
    ensures arguments { IfOk result (λ i. i.args ≡ args.now) }
{
    let places = places(alloc, args)?;
    let cube = substitute(alloc, cube, places.as_slice())?;
    let classes = classes_of(alloc, args, classes)?;
    let args = Vec::from_slice(alloc, args).map_err(|_| Memory)?;
    Ok(Instance {
        family: Family {
            classes: List::from_vec(classes),
            cube,
        },
        args: List::from_vec(args),
    })
}

/// For each variable by number its place among the arguments, or else their number.
fn places(alloc: Global, args: &[Var]) -> Result<Vec<Var>, Memory>
    requires { length args.now ≤ 8 }
    ensures { IfOk result (λ places. places.items ≡ map (λ v. var (place_of args.now v)) (below 8)) }
{
    let mut places = Vec::new(alloc);
    'each: for number in 0..VARIABLES {
        places.push(Var(place(args, number))).map_err(|_| Memory)?;
    }
    Ok(places)
}

/// The place of the variable among the arguments, or else their number.
fn place(args: &[Var], number: u8) -> u8
    requires { length args.now ≤ 8 }
    ensures { result ≡ place_of args.now number }
{
    'each: for (before, arg) in args.iter().enumerate() {
        if arg.0 == number {
            return before as u8;
        }
    }
    args.len() as u8
}

/// The class of each argument; 0 where there is no entry.
fn classes_of(alloc: Global, args: &[Var], classes: &[u32]) -> Result<Vec<u32>, Memory>
    ensures { IfOk result (λ found. found.items ≡ map (λ a. slice_index classes.now a.0) args.now) }
{
    let mut found = Vec::new(alloc);
    'each: for arg in args {
        found.push(class_of(classes, *arg)).map_err(|_| Memory)?;
    }
    Ok(found)
}

/// The variable's class; 0 where there is no entry.
fn class_of(classes: &[u32], var: Var) -> u32
    ensures { result ≡ slice_index classes.now var.0 }
{
    match classes.get(usize::from(var.0)) {
        Some(class) => *class,
        None => 0,
    }
}
