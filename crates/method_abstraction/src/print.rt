//! The text of an abstraction.
ghost use Rattle.std.specs.Prelude.{◌≡◌, ◌++◌, ◌∷◌, [], IfOk, OnOk, codes, if◌then◌else◌, map};
ghost use Rattle.std.specs.List.{flat_map, list_any};
ghost use Rattle.method_abstraction.specs.{abstraction_text, asked_text, clause_line, disjunct_text, facts_text, instance_text, joined, method_text};
ghost use Rattle.method_abstraction.specs.{names_text, results_text, update_line, written_line};
ghost use Rattle.method_abstraction.specs.Texts as told;

use crate::entry::{Abstraction, ClauseFacts, Disjunct, Update};
use crate::terms::{push_class, push_families, push_family_name, push_name, push_variable};
use access_paths::{Family, Var};
use cv_base::{Memory, push_bytes, push_number};
use easl_model::CheckedSpec;
use std::alloc::Global;

/// The families, the facts of each clause and the updates, each on a line of its own. An update is left out where it
/// has no result position and its only disjunct is its family itself. What a number does not find is printed as
/// nothing. Memory is the only error.
pub fn print_abstraction(
    alloc: Global,
    spec: &CheckedSpec,
    abstraction: &Abstraction,
) -> Result<Vec<u8>, Memory>
    ensures { IfOk result (λ v. v.items ≡ abstraction_text spec.now abstraction.now) }
{
    let families = abstraction.families.as_slice();
    let mut out = Vec::new(alloc);
    push_bytes(&mut out, b"families ")?;
    push_number(&mut out, families.len() as u64)?;
    push_bytes(&mut out, b"\n")?;
    push_families(&mut out, spec, families)?;
    push_bytes(&mut out, b"clauses\n")?;
    push_clauses(&mut out, spec, abstraction.clauses.as_slice())?;
    push_bytes(&mut out, b"updates\n")?;
    push_updates(&mut out, spec, families, abstraction.updates.as_slice())?;
    Ok(out)
}

/// Appends the names of variables.
fn push_vars(out: &mut Vec<u8>, vars: &[Var]) -> Result<(), Memory>
    ensures { OnOk result (out.new.items ≡ out.old.items ++ names_text vars.now) }
{
    let mut before: &[u8] = b"";
    'each: for var in vars {
        push_bytes(out, before)?;
        push_variable(out, u64::from(var.0))?;
        before = b", ";
    }
    Ok(())
}

fn push_disjunct(out: &mut Vec<u8>, disjunct: &Disjunct) -> Result<(), Memory>
    ensures { OnOk result (out.new.items ≡ out.old.items ++ disjunct_text disjunct.now) }
{
    match disjunct {
        Disjunct::Always => push_bytes(out, b"always"),
        Disjunct::Of(number, vars) => push_instance(out, *number, vars.as_slice()),
    }
}

/// Appends the name of the family of this number, and the variables that stand for its own.
fn push_instance(out: &mut Vec<u8>, number: u32, vars: &[Var]) -> Result<(), Memory>
    ensures { OnOk result (out.new.items ≡ out.old.items ++ instance_text number vars.now) }
{
    push_family_name(out, u64::from(number))?;
    push_bytes(out, b"(")?;
    push_vars(out, vars)?;
    push_bytes(out, b")")
}

fn is_always(disjunct: &Disjunct) -> bool
    ensures { result ≡ told.is_always disjunct.now }
{
    match disjunct {
        Disjunct::Always => true,
        Disjunct::Of(..) => false,
    }
}

/// Whether anything is true there.
fn has_always(disjuncts: &[Disjunct]) -> bool
    ensures { result ≡ list_any told.is_always disjuncts.now }
{
    disjuncts.iter().any(|disjunct| is_always(disjunct))
}

/// Appends the disjuncts.
fn push_disjuncts(out: &mut Vec<u8>, disjuncts: &[Disjunct]) -> Result<(), Memory>
    ensures { OnOk result (out.new.items ≡ out.old.items ++ joined (codes " or ") (map disjunct_text disjuncts.now)) }
{
    let mut before: &[u8] = b"";
    'each: for disjunct in disjuncts {
        push_bytes(out, before)?;
        push_disjunct(out, disjunct)?;
        before = b" or ";
    }
    Ok(())
}

/// Appends the facts that these disjuncts say.
fn push_facts(out: &mut Vec<u8>, disjuncts: &[Disjunct]) -> Result<(), Memory>
    ensures { OnOk result (out.new.items ≡ out.old.items ++ facts_text disjuncts.now) }
{
    if disjuncts.is_empty() {
        return push_bytes(out, b"never");
    }
    if has_always(disjuncts) {
        return push_bytes(out, b"always");
    }
    push_disjuncts(out, disjuncts)
}

/// Appends the name of the method of this number, where there is one.
fn push_method(out: &mut Vec<u8>, spec: &CheckedSpec, number: u32) -> Result<(), Memory>
    ensures { OnOk result (out.new.items ≡ out.old.items ++ method_text spec.now number) }
{
    if number >= spec.method_count() {
        return Ok(());
    }
    let method = spec.method(number);
    push_class(out, spec, method.class)?;
    push_bytes(out, b".")?;
    if method.constructor {
        return push_bytes(out, b"new");
    }
    push_name(out, &method.name)
}

/// Adds the variable of this number, where it is chosen.
fn push_where(chosen: &mut Vec<Var>, is_chosen: bool, number: u8) -> Result<(), Memory>
    ensures { OnOk result (chosen.new.items ≡ chosen.old.items ++ (if is_chosen then told.var number ∷ [] else [])) }
{
    if !is_chosen {
        return Ok(());
    }
    match chosen.push(Var(number)) {
        Ok(()) => Ok(()),
        Err(_) => Err(Memory),
    }
}

/// The variables of a family at whose positions a bit is set.
fn chosen_variables(alloc: Global, results: u32) -> Result<Vec<Var>, Memory>
    ensures { IfOk result (λ v. v.items ≡ told.chosen_variables results) }
{
    let mut chosen = Vec::new(alloc);
    push_where(&mut chosen, results % 2 == 1, 0)?;
    push_where(&mut chosen, results / 2 % 2 == 1, 1)?;
    push_where(&mut chosen, results / 2 / 2 % 2 == 1, 2)?;
    Ok(chosen)
}

/// Appends a set of result positions.
fn push_results(out: &mut Vec<u8>, results: u32) -> Result<(), Memory>
    ensures { OnOk result (out.new.items ≡ out.old.items ++ results_text results) }
{
    let chosen = chosen_variables(*out.allocator(), results)?;
    push_bytes(out, b"{")?;
    push_vars(out, chosen.as_slice())?;
    push_bytes(out, b"}")
}

/// Appends the line of a clause.
fn push_clause(out: &mut Vec<u8>, spec: &CheckedSpec, entry: &ClauseFacts) -> Result<(), Memory>
    ensures { OnOk result (out.new.items ≡ out.old.items ++ clause_line spec.now entry.now) }
{
    push_method(out, spec, entry.method)?;
    push_bytes(out, b" ")?;
    push_number(out, u64::from(entry.clause))?;
    push_bytes(out, b": ")?;
    push_facts(out, entry.disjuncts.as_slice())?;
    push_bytes(out, b"\n")
}

fn push_clauses(
    out: &mut Vec<u8>,
    spec: &CheckedSpec,
    clauses: &[ClauseFacts],
) -> Result<(), Memory>
    ensures { OnOk result (out.new.items ≡ out.old.items ++ flat_map (clause_line spec.now) clauses.now) }
{
    'each: for entry in clauses {
        push_clause(out, spec, entry)?;
    }
    Ok(())
}

/// Whether the variables are x1 and on, in order.
fn are_in_order(vars: &[Var]) -> bool
    ensures { result ≡ told.are_in_order 0 vars.now }
{
    let mut number: u64 = 0;
    'each: for var in vars {
        if u64::from(var.0) != number {
            return false;
        }
        number += 1;
    }
    true
}

/// Whether the disjunct is the family of this number itself, of so many variables.
fn is_itself(number: u32, count: usize, disjunct: &Disjunct) -> bool
    ensures { result ≡ told.is_itself number count disjunct.now }
{
    match disjunct {
        Disjunct::Always => false,
        Disjunct::Of(other, vars) => {
            let vars = vars.as_slice();
            *other == number && vars.len() == count && are_in_order(vars)
        }
    }
}

fn is_only_itself(number: u32, count: usize, disjuncts: &[Disjunct]) -> bool
    ensures { result ≡ told.is_only_itself number count disjuncts.now }
{
    disjuncts.len() == 1 && is_itself(number, count, &disjuncts[0])
}

/// Whether the update leaves its family as it is.
fn is_left_out(families: &[Family], entry: &Update) -> bool
    ensures { result ≡ told.is_left_out families.now entry.now }
{
    let count = match families.get(entry.family as usize) {
        Some(family) => family.classes.as_slice().len(),
        None => 0,
    };
    entry.results == 0 && is_only_itself(entry.family, count, entry.disjuncts.as_slice())
}

/// Appends the question that the update answers.
fn push_asked(out: &mut Vec<u8>, spec: &CheckedSpec, entry: &Update) -> Result<(), Memory>
    ensures { OnOk result (out.new.items ≡ out.old.items ++ asked_text spec.now entry.now) }
{
    push_method(out, spec, entry.method)?;
    push_bytes(out, b" ")?;
    push_results(out, entry.results)?;
    push_bytes(out, b" ")?;
    push_family_name(out, u64::from(entry.family))
}

/// Appends the line of an update that is not left out.
fn push_written(out: &mut Vec<u8>, spec: &CheckedSpec, entry: &Update) -> Result<(), Memory>
    ensures { OnOk result (out.new.items ≡ out.old.items ++ written_line spec.now entry.now) }
{
    push_asked(out, spec, entry)?;
    push_bytes(out, b": ")?;
    push_facts(out, entry.disjuncts.as_slice())?;
    push_bytes(out, b"\n")
}

/// Appends the line of an update, where it has one.
fn push_update(
    out: &mut Vec<u8>,
    spec: &CheckedSpec,
    families: &[Family],
    entry: &Update,
) -> Result<(), Memory>
    ensures { OnOk result (out.new.items ≡ out.old.items ++ update_line spec.now families.now entry.now) }
{
    if is_left_out(families, entry) {
        return Ok(());
    }
    push_written(out, spec, entry)
}

fn push_updates(
    out: &mut Vec<u8>,
    spec: &CheckedSpec,
    families: &[Family],
    updates: &[Update],
) -> Result<(), Memory>
    ensures { OnOk result (out.new.items ≡ out.old.items ++ flat_map (update_line spec.now families.now) updates.now) }
{
    'each: for entry in updates {
        push_update(out, spec, families, entry)?;
    }
    Ok(())
}
