//! Shows specifications in their canonical layout.
ghost use Rattle.std.specs.Prelude.{◌≡◌, ◌≤◌, MatchResult, None, length};
ghost use Rattle.canvas_cli.specs.Readings.{Breaks, Refuses};
ghost use Rattle.canvas_cli.specs.Refusals.{IsTree};
ghost use Rattle.canvas_cli.specs.Verdicts.{DecidesOne};
ghost use Rattle.easl_model.specs.Checked.{IsReadable};
ghost use Rattle.easl_model.specs.Rules.{first_fault};
ghost use Rattle.easl_model.specs.declared.tree.Spec as trees;
ghost use Rattle.easl_print.specs.Lines.{spec_text};

use crate::answer::{Answer, Role};
use crate::command::Single;
use crate::refusal::{NotTaken, refuse};
use crate::specification::{check_tree, read_tree};
use easl_model::Spec;
use easl_print::print_spec;
use std::alloc::Global;

/// The layout of the specification that the text is.
#[tactic(auto, using(crate::proofs::Decided::not_answered))]
pub(crate) fn show(alloc: Global, text: &[u8]) -> Answer
    requires { length text.now ≤ 65536 }
    ensures { DecidesOne Single.Show text.now result }
{
    match layout_of(alloc, text) {
        Ok(layout) => Answer::Shown(layout),
        Err(fault) => refuse(alloc, Role::Specification, fault),
    }
}

/// The same, if something is wrong or memory is wanted.
#[tactic(auto, using(crate::proofs::Trees::readable, crate::proofs::Decided::is_tree, crate::proofs::Decided::breaks))]
fn layout_of(alloc: Global, text: &[u8]) -> Result<Vec<u8>, NotTaken>
    requires { length text.now ≤ 65536 }
    ensures { MatchResult result (λ v. (tree : trees.Spec) × IsTree text.now tree × (v.items ≡ spec_text tree)) (Refuses text.now) }
{
    match read_tree(alloc, text) {
        Ok(tree) => layout_of_tree(alloc, tree),
        Err(fault) => Err(fault),
    }
}

/// The layout of a tree that was read, if it breaks no rule.
fn layout_of_tree(alloc: Global, tree: Spec) -> Result<Vec<u8>, NotTaken>
    requires { IsReadable tree }
    ensures { MatchResult result (λ v. (first_fault tree ≡ None) × (v.items ≡ spec_text tree)) (Breaks tree) }
{
    let Ok(layout) = print_spec(alloc, &tree) else {
        return Err(NotTaken::Memory);
    };
    match check_tree(alloc, tree) {
        Ok(_) => Ok(layout),
        Err(fault) => Err(fault),
    }
}
