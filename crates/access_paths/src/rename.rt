//! Other variables in the place of a cube's own.
ghost use Rattle.std.specs.Prelude.{◌≡◌, ℕ, ◌<◌, Some, Contains, length, slice_get, IfSome, IfNone, IfOk, OnOk};
ghost use Rattle.access_paths.specs.{Ascend, HasVariable, IsAdded, IsPlace, IsRenamed, KeepsApart, renamed_term, variable_in};
ghost use Rattle.access_paths.specs.Renaming as told;

use crate::term::{Cube, Literal, Term, Var};
use cv_base::{List, Memory};
use std::alloc::Global;

/// The cube with `vars[k]` in the place of the variable with number k, in order, each literal once.
/// `Memory` where there is none left.
pub fn substitute(alloc: Global, cube: &Cube, vars: &[Var]) -> Result<Cube, Memory>
    requires entries { (v : ℕ) → HasVariable cube.now v → v < length vars.now }
    requires apart { KeepsApart (variable_in vars.now) cube.now }
    ensures { IfOk result (IsRenamed (variable_in vars.now) cube.now) }
{
    let mut literals = Vec::new(alloc);
    'each: for literal in cube.literals.as_slice() {
        let renamed = renamed(alloc, literal, vars)?;
        add(&mut literals, renamed)?;
    }
    Ok(Cube {
        literals: List::from_vec(literals),
    })
}

/// The literal with other variables, the lesser term first.
fn renamed(alloc: Global, literal: &Literal, vars: &[Var]) -> Result<Literal, Memory>
    requires less { literal.now.less.var.0 < length vars.now }
    requires more { literal.now.more.var.0 < length vars.now }
    ensures { IfOk result (λ l. l ≡ told.renamed (variable_in vars.now) literal.now) }
{
    let less = renamed_term(alloc, &literal.less, vars)?;
    let more = renamed_term(alloc, &literal.more, vars)?;
    let same = literal.same;
    if less.compare(&more).is_gt() {
        return Ok(Literal {
            same,
            less: more,
            more: less,
        });
    }
    Ok(Literal { same, less, more })
}

/// The term with another variable.
fn renamed_term(alloc: Global, term: &Term, vars: &[Var]) -> Result<Term, Memory>
    requires { term.now.var.0 < length vars.now }
    ensures { IfOk result (λ t. t ≡ told.renamed_term (variable_in vars.now) term.now) }
{
    Ok(Term {
        var: variable(vars, term.var),
        fields: term.fields.twin(alloc).map_err(|_| Memory)?,
    })
}

/// The variable that stands in the place of this one.
fn variable(vars: &[Var], var: Var) -> Var
    requires { var.0 < length vars.now }
    ensures { slice_get vars.now var.0 ≡ Some result }
{
    vars[usize::from(var.0)]
}

/// Puts the literal in its place, unless it is there.
#[tactic(auto, using(crate::proofs::Ascending::put_added))]
fn add(literals: &mut Vec<Literal>, literal: Literal) -> Result<(), Memory>
    requires { Ascend literals.old.items }
    ensures { OnOk result (IsAdded literal literals.old.items literals.new.items) }
{
    match place_of(literals.as_slice(), &literal) {
        Some(place) => match literals.insert(place, literal) {
            Ok(()) => Ok(()),
            Err(_) => Err(Memory),
        },
        None => Ok(()),
    }
}

/// The place of the literal among these; None where it is one of them.
fn place_of(literals: &[Literal], literal: &Literal) -> Option<usize>
    ensures place { IfSome result (IsPlace literal.now literals.now) }
    ensures there { IfNone result (Contains literals.now literal.now) }
{
    'each: for (before, other) in literals.iter().enumerate() {
        let order = literal.compare(other);
        if order.is_lt() {
            return Some(before);
        }
        if order.is_eq() {
            return None;
        }
    }
    Some(literals.len())
}
