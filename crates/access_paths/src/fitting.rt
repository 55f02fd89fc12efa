//! Whether a family fits a specification.
ghost use Rattle.std.specs.Prelude.{◌≡◌, ◌<◌, ℕ, List, Some, All, IsTrue, MatchOption, length, map};
ghost use Rattle.easl_heap.specs.{FieldsLead};
ghost use Rattle.access_paths.specs.{Fits, IsLiteralOf, IsTermOf};

use crate::term::{Family, Literal, Term};
use easl_model::CheckedSpec;

/// Whether the family has one to three variables of classes that are there, and each of its literals compares two terms
/// of one class that fields lead to from these variables.
pub fn fits(spec: &CheckedSpec, family: &Family) -> bool
    ensures { IsTrue result → Fits spec.now family.now }
{
    let classes = family.classes.as_slice();
    let literals = family.cube.literals.as_slice();
    !classes.is_empty()
        && classes.len() <= 3
        && are_there(spec, classes)
        && literals
            .iter()
            .all(|literal| is_over(spec, classes, literal))
}

/// Whether the classes are there.
fn are_there(spec: &CheckedSpec, classes: &[u32]) -> bool
    ensures { IsTrue result → All (λ c. c < length spec.now.classes) classes.now }
{
    let count = spec.class_count();
    classes.iter().all(|class| *class < count)
}

/// Whether both sides of the literal are of one class, where variables are of these classes.
fn is_over(spec: &CheckedSpec, classes: &[u32], literal: &Literal) -> bool
    ensures { IsTrue result → IsLiteralOf spec.now (map (λ c. Some c) classes.now) literal.now }
{
    match (
        class_of(spec, classes, &literal.less),
        class_of(spec, classes, &literal.more),
    ) {
        (Some(less), Some(more)) => less == more,
        _ => false,
    }
}

/// The class of the term, where variables are of these classes.
fn class_of(spec: &CheckedSpec, classes: &[u32], term: &Term) -> Option<u32>
    ensures { (class : ℕ) → result ≡ Some class → IsTermOf spec.now (map (λ c. Some c) classes.now) term.now class }
{
    let start = *classes.get(usize::from(term.var.0))?;
    class_behind(spec, start, term.fields.as_slice())
}

/// The class that the fields lead to from a class.
fn class_behind(spec: &CheckedSpec, class: u32, fields: &[u32]) -> Option<u32>
    ensures { (end : ℕ) → result ≡ Some end → FieldsLead spec.now class fields.now end }
{
    match fields.split_first() {
        None => Some(class),
        Some((field, rest)) => {
            if class < spec.class_count() && *field < spec.field_count(class) {
                class_behind(spec, spec.field_class(class, *field), rest)
            } else {
                None
            }
        }
    }
}
