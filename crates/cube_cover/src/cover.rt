//! The choice of the disjuncts.
ghost use Rattle.std.specs.Prelude.{◌≡◌, ◌<◌, All, length, map, IfOk, IsErrOf};
ghost use Rattle.access_paths.specs.{tree_of};
ghost use Rattle.case_model.specs.{AreDisjuncts, FallsShort, HasTerms, terms_of_tree};
ghost use Rattle.cube_cover.specs.{AreCases, AreTogether, DisjunctsFallShort, configurations_at};
ghost use Rattle.cube_cover.specs.Literals as told;

use crate::fault::CoverFault;
use crate::pairs::literals_over;
use crate::put::put_last;
use crate::table::{all_row, task_of};
use access_paths::{Cube, Literal, Tree};
use alias_cases::Cases;
use cube_search::Candidate;
use cv_base::{List, Memory};
use cv_fix::Twin;
use std::alloc::Global;

/// The disjuncts of a tree: the cubes that are chosen among the widest implicants, in the configurations that `care`
/// names, in order. Cover exactly where the tree is true in one of these in which no chosen cube is, or Memory.
pub fn disjuncts(
    alloc: Global,
    tree: &Tree,
    cases: &Cases,
    care: &[u32],
) -> Result<Vec<Cube>, CoverFault>
    requires cases { AreCases cases.now }
    requires terms { HasTerms cases.now.terms.list (terms_of_tree (tree_of tree.now)) }
    requires care { All (λ k. k < length cases.now.list) care.now }
    ensures chosen { IfOk result (λ cubes. AreDisjuncts cases.now.terms.list (configurations_at cases.now.list care.now) (tree_of tree.now) cubes.items) }
    ensures whole { IfOk result (λ cubes.
        ¬ FallsShort cases.now.terms.list (configurations_at cases.now.list care.now) (tree_of tree.now) cubes.items) }
    ensures together { IfOk result (λ cubes. AreTogether cases.now.terms.list (configurations_at cases.now.list care.now) (tree_of tree.now) cubes.items) }
    ensures cover { IsErrOf result CoverFault.Cover
        → DisjunctsFallShort cases.now.terms.list (configurations_at cases.now.list care.now) (tree_of tree.now) }
{
    let terms = cases.terms.list.as_slice();
    let list = cases.list.as_slice();
    let literals = literals_over(alloc, terms, cases.terms.classes.as_slice())?;
    let task = task_of(alloc, terms, list, care, tree, &literals)?;
    let none = all_row(alloc, list, care, false)?;
    let choice = cube_search::disjuncts(alloc, &task, none)?;
    if !choice.is_enough {
        return Err(CoverFault::Cover);
    }
    Ok(cubes_of(alloc, &literals, &choice.cubes)?)
}

/// The cubes of the chosen numbers of literals.
fn cubes_of(alloc: Global, literals: &[Literal], chosen: &[Candidate]) -> Result<Vec<Cube>, Memory>
    requires { All (λ c. All (λ n. n < length literals.now) c.cube) chosen.now }
    ensures { IfOk result (λ cubes. cubes.items ≡ told.cubes_of literals.now chosen.now) }
{
    let mut cubes = Vec::new(alloc);
    'each: for candidate in chosen {
        let cube = cube_of(alloc, literals, &candidate.cube.0)?;
        put_last(&mut cubes, cube)?;
    }
    Ok(cubes)
}

/// The cube of the literals of these numbers.
fn cube_of(alloc: Global, literals: &[Literal], numbers: &[usize]) -> Result<Cube, Memory>
    requires { All (λ n. n < length literals.now) numbers.now }
    ensures { IfOk result (λ cube. cube ≡ told.cube_of literals.now numbers.now) }
{
    let mut chosen = Vec::new(alloc);
    'each: for number in numbers {
        let literal = literals[*number].twin(alloc)?;
        put_last(&mut chosen, literal)?;
    }
    Ok(Cube {
        literals: List::from_vec(chosen),
    })
}
