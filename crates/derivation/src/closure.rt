//! The derivation: all questions in the order of asking.
ghost use Rattle.std.specs.Prelude.{◌≡◌, ◌≢◌, ◌⊎◌, ℕ, ◌+◌, ◌<◌, ◌≤◌, ◌++◌, All, IfErr, IfOk, IsErrAnd, List as Seq, MatchResult, OnOk, Some, length, slice_get};
ghost use Rattle.access_paths.specs.{Fits};
ghost use Rattle.method_abstraction.specs.Asking as told;
ghost use Rattle.method_abstraction.specs.{HasExactEntries};
ghost use Rattle.derivation.specs.Closing.{Closes, Stops};
ghost use Rattle.derivation.specs.Rounds.{AreNext, IsQuestion, IsSoFar, asked_to, clause_entry, update_entry};
ghost use Rattle.access_paths.specs.declared.term.Family as family;
ghost use Rattle.method_abstraction.specs.declared.entry.Abstraction as entries;
ghost use Rattle.derivation.specs.declared.derive_fault.DeriveFault as faults;

use crate::derive_fault::DeriveFault;
use crate::entry::entry;
use crate::put::put_last;
use access_paths::Family;
use cv_base::{List, Memory};
use easl_model::CheckedSpec;
use method_abstraction::{
    Abstraction, ClauseFacts, Disjunct, Question, Update, clause_questions, update_questions,
};
use std::alloc::Global;

/// The families that are met so far, and the entries of the questions that are asked.
#[derive(Debug, Drop)]
struct Found {
    families: Vec<Family>,
    clauses: Vec<ClauseFacts>,
    updates: Vec<Update>,
}

/// The families, clause facts and updates with which the specification closes; it closes in one way alone. `Open` and
/// `Cases` exactly by the first question in the order of asking that stops it, or `Memory`.
pub fn derive(alloc: Global, spec: &CheckedSpec) -> Result<Abstraction, DeriveFault>
    ensures closes { IfOk result (Closes spec.now) }
    ensures exact { IfOk result (HasExactEntries spec.now) }
    ensures stops { IfErr result (Stops spec.now) }
    ensures whole { (a : entries.Abstraction) → Closes spec.now a → MatchResult result (λ b. b ≡ a) (λ fault. fault ≡ DeriveFault.Memory) }
    ensures first { (fault : faults.DeriveFault) → fault ≢ DeriveFault.Memory → Stops spec.now fault
        → IsErrAnd result (λ e. (e ≡ fault) ⊎ (e ≡ DeriveFault.Memory)) }
{
    closed(alloc, spec)
}

/// The same, with what it is where the specification closes, and else why it does not.
fn closed(alloc: Global, spec: &CheckedSpec) -> Result<Abstraction, DeriveFault>
    ensures closes { IfOk result (Closes spec.now) }
    ensures exact { IfOk result (HasExactEntries spec.now) }
    ensures stops { IfErr result (Stops spec.now) }
{
    spec.is_kept();
    let mut found = asked_clauses(alloc, spec)?;
    match ask_families(alloc, spec, &mut found) {
        Ok(()) => Ok(Abstraction {
            families: List::from_vec(found.families),
            clauses: List::from_vec(found.clauses),
            updates: List::from_vec(found.updates),
        }),
        Err(fault) => Err(fault),
    }
}

/// Asks all clause questions.
fn asked_clauses(alloc: Global, spec: &CheckedSpec) -> Result<Found, DeriveFault>
    ensures asked { MatchResult result
        (λ found. IsSoFar spec.now (asked_to spec.now found.families.items 0) found.families.items found.clauses.items found.updates.items)
        (Stops spec.now) }
    ensures few { IfOk result (λ found. length found.families.items ≤ 64) }
{
    let mut found = Found {
        families: Vec::new(alloc),
        clauses: Vec::new(alloc),
        updates: Vec::new(alloc),
    };
    let questions = clause_questions(alloc, spec)?;
    match ask_all(alloc, spec, &mut found, questions.as_slice()) {
        Ok(()) => Ok(found),
        Err(fault) => Err(fault),
    }
}

/// Asks all questions on the families that are met, those that are met by these too.
fn ask_families(alloc: Global, spec: &CheckedSpec, found: &mut Found) -> Result<(), DeriveFault>
    requires asked { IsSoFar spec.now (asked_to spec.now found.old.families.items 0) found.old.families.items found.old.clauses.items found.old.updates.items }
    requires few { length found.old.families.items ≤ 64 }
    ensures { MatchResult result
        (λ _. IsSoFar spec.now (length (told.questions spec.now found.new.families.items)) found.new.families.items
        found.new.clauses.items found.new.updates.items)
        (Stops spec.now) }
{
    spec.is_kept();
    let mut number = 0;
    'each: while number < found.families.len() {
        match ask_on(alloc, spec, found, number) {
            Ok(()) => number += 1,
            Err(fault) => return Err(fault),
        }
    }
    Ok(())
}

/// Asks all questions on the family of this number.
fn ask_on(
    alloc: Global,
    spec: &CheckedSpec,
    found: &mut Found,
    number: usize,
) -> Result<(), DeriveFault>
    requires number { number < length found.old.families.items }
    requires few { length found.old.families.items ≤ 64 }
    requires fit { All (Fits spec.now) found.old.families.items }
    ensures asked { (n : ℕ) (f : family.Family) → IsSoFar spec.now n found.old.families.items found.old.clauses.items found.old.updates.items
        → slice_get found.old.families.items number ≡ Some f
        → AreNext spec.now found.old.families.items n (told.updates_by number f 0 spec.now.methods) → MatchResult result
        (λ _. IsSoFar spec.now (n + length (told.updates_by number f 0 spec.now.methods)) found.new.families.items
        found.new.clauses.items found.new.updates.items)
        (Stops spec.now) }
    ensures longer { OnOk result ((more : Seq family.Family) × (found.new.families.items ≡ found.old.families.items ++ more)) }
    ensures few { OnOk result (length found.new.families.items ≤ 64) }
{
    let questions = update_questions(alloc, spec, number as u32, &found.families[number])?;
    ask_all(alloc, spec, found, questions.as_slice())
}

/// Asks these questions.
fn ask_all(
    alloc: Global,
    spec: &CheckedSpec,
    found: &mut Found,
    questions: &[Question],
) -> Result<(), DeriveFault>
    requires questions { All (IsQuestion spec.now found.old.families.items) questions.now }
    requires few { length found.old.families.items ≤ 64 }
    ensures asked { (n : ℕ) → IsSoFar spec.now n found.old.families.items found.old.clauses.items found.old.updates.items
        → AreNext spec.now found.old.families.items n questions.now → MatchResult result
        (λ _. IsSoFar spec.now (n + length questions.now) found.new.families.items found.new.clauses.items found.new.updates.items)
        (Stops spec.now) }
    ensures longer { OnOk result ((more : Seq family.Family) × (found.new.families.items ≡ found.old.families.items ++ more)) }
    ensures few { OnOk result (length found.new.families.items ≤ 64) }
{
    'each: for question in questions {
        match ask_next(alloc, spec, found, *question) {
            Ok(()) => {}
            Err(fault) => return Err(fault),
        }
    }
    Ok(())
}

/// Asks the question, and puts its entry last.
fn ask_next(
    alloc: Global,
    spec: &CheckedSpec,
    found: &mut Found,
    question: Question,
) -> Result<(), DeriveFault>
    requires question { IsQuestion spec.now found.old.families.items question }
    requires few { length found.old.families.items ≤ 64 }
    ensures asked { (n : ℕ) → IsSoFar spec.now n found.old.families.items found.old.clauses.items found.old.updates.items
        → slice_get (told.questions spec.now found.old.families.items) n ≡ Some question → MatchResult result
        (λ _. IsSoFar spec.now (n + 1) found.new.families.items found.new.clauses.items found.new.updates.items)
        (Stops spec.now) }
    ensures longer { OnOk result ((more : Seq family.Family) × (found.new.families.items ≡ found.old.families.items ++ more)) }
    ensures few { OnOk result (length found.new.families.items ≤ 64) }
{
    match entry(alloc, spec, &mut found.families, question) {
        Ok(disjuncts) => Ok(put(&mut found.clauses, &mut found.updates, question, disjuncts)?),
        Err(fault) => Err(fault),
    }
}

/// Puts the entry last.
fn put(
    clauses: &mut Vec<ClauseFacts>,
    updates: &mut Vec<Update>,
    question: Question,
    disjuncts: List<Disjunct>,
) -> Result<(), Memory>
    ensures clauses { OnOk result (clauses.new.items ≡ clauses.old.items ++ clause_entry question disjuncts) }
    ensures updates { OnOk result (updates.new.items ≡ updates.old.items ++ update_entry question disjuncts) }
{
    match question {
        Question::Clause { method, clause } => put_last(
            clauses,
            ClauseFacts {
                method,
                clause,
                disjuncts,
            },
        ),
        Question::Update {
            method,
            results,
            family,
        } => put_last(
            updates,
            Update {
                method,
                results,
                family,
                disjuncts,
            },
        ),
    }
}
