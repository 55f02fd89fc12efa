//! The literals of a term list.
ghost use Rattle.std.specs.Prelude.{◌≡◌, ◌++◌, [], ◌∷◌, length, if◌then◌else◌, IfOk, OnOk};
ghost use Rattle.cube_cover.specs.Literals as told;

use crate::blocks::block_at;
use access_paths::{Literal, Term};
use cv_base::Memory;
use std::alloc::Global;

/// The literals between two of these terms of one class, in order. The terms are of these classes.
pub(crate) fn literals_over(
    alloc: Global,
    terms: &[Term],
    classes: &[u32],
) -> Result<Vec<Literal>, Memory>
    requires { length classes.now ≡ length terms.now }
    ensures { IfOk result (λ literals. literals.items ≡ told.literals_over terms.now classes.now) }
{
    let mut literals = Vec::new(alloc);
    'each: for (place, term) in terms.iter().enumerate() {
        let class = block_at(classes, place);
        push_with(
            alloc,
            &mut literals,
            term,
            class,
            &terms[place + 1..],
            &classes[place + 1..],
        )?;
    }
    Ok(literals)
}

/// Appends `==` and `!=` of a term of this class and each of these that is of its class.
fn push_with(
    alloc: Global,
    literals: &mut Vec<Literal>,
    term: &Term,
    class: u32,
    others: &[Term],
    classes: &[u32],
) -> Result<(), Memory>
    requires { length classes.now ≡ length others.now }
    ensures { OnOk result (literals.new.items ≡ literals.old.items ++ told.literals_with term.now class others.now classes.now) }
{
    'each: for (place, other) in others.iter().enumerate() {
        let so = block_at(classes, place) == class;
        push_if(alloc, so, literals, term, other)?;
    }
    Ok(())
}

/// Appends `==` and `!=` of two terms, if it is so.
fn push_if(
    alloc: Global,
    so: bool,
    literals: &mut Vec<Literal>,
    less: &Term,
    more: &Term,
) -> Result<(), Memory>
    ensures { OnOk result (literals.new.items ≡ literals.old.items ++ told.both_if so less.now more.now) }
{
    if so {
        push_literal(alloc, literals, true, less, more)?;
        push_literal(alloc, literals, false, less, more)?;
    }
    Ok(())
}

fn push_literal(
    alloc: Global,
    literals: &mut Vec<Literal>,
    same: bool,
    less: &Term,
    more: &Term,
) -> Result<(), Memory>
    ensures { OnOk result (literals.new.items ≡ literals.old.items ++ told.literal same less.now more.now ∷ []) }
{
    let literal = Literal {
        same,
        less: less.twin(alloc).map_err(|_| Memory)?,
        more: more.twin(alloc).map_err(|_| Memory)?,
    };
    literals.push(literal).map_err(|_| Memory)
}
