//! The table of a question's literals: in which configurations each is true, and in which the tree is.
ghost use Rattle.std.specs.Prelude.{◌≡◌, map, IfOk};
ghost use Rattle.std.specs.List.{AllZip};
ghost use Rattle.access_paths.specs.{tree_of};
ghost use Rattle.cube_cover.specs.{IsTaskOf, configurations_at, everywhere, truths_of};
ghost use Rattle.cube_search.specs.Truths.{IsRowOf};

use crate::put::put_last;
use crate::truths::{answers_of, everywhere, opposite, truths_of};
use access_paths::{Literal, Term, Tree};
use cube_search::{Row, Task, row_of};
use cv_base::Memory;
use sqlite_items::Items;
use std::alloc::Global;

/// What is searched: the rows of these literals, and where the tree is true and false, in the named configurations.
pub(crate) fn task_of(
    alloc: Global,
    terms: &[Term],
    cases: &[Items<u32>],
    care: &[u32],
    tree: &Tree,
    literals: &[Literal],
) -> Result<Task, Memory>
    ensures { IfOk result (IsTaskOf terms.now (configurations_at cases.now care.now) (tree_of tree.now) literals.now) }
{
    let rows = rows_of(alloc, terms, cases, care, literals)?;
    let variables = variables_of(alloc, literals)?;
    let all = all_row(alloc, cases, care, true)?;
    let answers = answers_of(alloc, terms, cases, care, tree)?;
    let others = opposite(alloc, &answers)?;
    let never = row_of(alloc, &others)?;
    let wanted = row_of(alloc, &answers)?;
    Ok(Task {
        rows,
        variables,
        all,
        never,
        wanted,
    })
}

/// The row of all named configurations, or of none.
pub(crate) fn all_row(
    alloc: Global,
    cases: &[Items<u32>],
    care: &[u32],
    truth: bool,
) -> Result<Row, Memory>
    ensures { IfOk result (IsRowOf (everywhere truth (configurations_at cases.now care.now))) }
{
    let truths = everywhere(alloc, care, truth)?;
    row_of(alloc, &truths)
}

/// For each literal where it is true.
fn rows_of(
    alloc: Global,
    terms: &[Term],
    cases: &[Items<u32>],
    care: &[u32],
    literals: &[Literal],
) -> Result<Vec<Row>, Memory>
    ensures { IfOk result (λ rows. AllZip
        (λ l row. IsRowOf (truths_of terms.now (configurations_at cases.now care.now) l) row) literals.now rows.items) }
{
    let mut rows = Vec::new(alloc);
    'each: for literal in literals {
        let truths = truths_of(alloc, terms, cases, care, literal)?;
        let row = row_of(alloc, &truths)?;
        put_last(&mut rows, row)?;
    }
    Ok(rows)
}

/// The variables of the two terms of each literal.
fn variables_of(alloc: Global, literals: &[Literal]) -> Result<Vec<(u8, u8)>, Memory>
    ensures { IfOk result (λ variables. variables.items ≡ map (λ l. (l.less.var.0, l.more.var.0)) literals.now) }
{
    match literals
        .iter()
        .map(|literal| (literal.less.var.0, literal.more.var.0))
        .collect(alloc)
    {
        Ok(variables) => Ok(variables),
        Err(_) => Err(Memory),
    }
}
