//! Reads and checks the text of a specification.
ghost use Rattle.std.specs.Prelude.{◌≡◌, ◌≤◌, Ok, MatchResult, None, length};
ghost use Rattle.canvas_cli.specs.Readings.{Breaks, Refuses};
ghost use Rattle.canvas_cli.specs.Verdicts.{IsSpecification};
ghost use Rattle.easl_model.specs.Checked.{IsReadable};
ghost use Rattle.easl_model.specs.CheckedForm.{form_of};
ghost use Rattle.easl_model.specs.Rules.{first_fault};
ghost use Rattle.easl_parser.specs.Answers.{SpecAnswers};

use crate::refusal::{NotTaken, Refusal, Rule, unread};
use easl_model::{CheckedSpec, Place, Rule as SpecRule, Spec};
use easl_parser::read_spec;
use easl_types::{SpecFault, check_spec};
use std::alloc::Global;

/// The checked specification that the text is.
#[tactic(auto, using(crate::proofs::Trees::readable, crate::proofs::Decided::checked, crate::proofs::Decided::breaks))]
pub(crate) fn read_checked(alloc: Global, text: &[u8]) -> Result<CheckedSpec, NotTaken>
    requires { length text.now ≤ 65536 }
    ensures { MatchResult result (IsSpecification text.now) (Refuses text.now) }
{
    match read_tree(alloc, text) {
        Ok(tree) => check_tree(alloc, tree),
        Err(fault) => Err(fault),
    }
}

/// The tree that the text spells within the limits.
#[tactic(auto, using(crate::proofs::Decided::reads))]
pub(crate) fn read_tree(alloc: Global, text: &[u8]) -> Result<Spec, NotTaken>
    requires { length text.now ≤ 65536 }
    ensures { MatchResult result (λ tree. SpecAnswers text.now (Ok tree)) (Refuses text.now) }
{
    match read_spec(alloc, text) {
        Ok(tree) => Ok(tree),
        Err(fault) => Err(unread(fault)),
    }
}

/// Checks a tree that was read.
pub(crate) fn check_tree(alloc: Global, tree: Spec) -> Result<CheckedSpec, NotTaken>
    requires { IsReadable tree }
    ensures { MatchResult result (λ checked. (first_fault tree ≡ None) × (checked ≡ form_of tree)) (Breaks tree) }
{
    match check_spec(alloc, tree) {
        Ok(checked) => Ok(checked),
        Err(SpecFault::Duplicate(place)) => Err(broken(SpecRule::Duplicate, place)),
        Err(SpecFault::Unknown(place)) => Err(broken(SpecRule::Unknown, place)),
        Err(SpecFault::Mismatch(place)) => Err(broken(SpecRule::Mismatch, place)),
        Err(SpecFault::Unready(place)) => Err(broken(SpecRule::Unready, place)),
        Err(SpecFault::ConstructorCycle(place)) => Err(broken(SpecRule::ConstructorCycle, place)),
        Err(SpecFault::TooLong(place)) => Err(broken(SpecRule::TooLong, place)),
        Err(SpecFault::Memory) => Err(NotTaken::Memory),
    }
}

fn broken(rule: SpecRule, place: Place) -> NotTaken
    ensures { result ≡ NotTaken.Refused (Refusal.Broken (Rule.Specification rule) place) }
{
    NotTaken::Refused(Refusal::Broken(Rule::Specification(rule), place))
}
