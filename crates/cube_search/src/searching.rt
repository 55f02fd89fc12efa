//! The search for the widest cubes.
ghost use Rattle.std.specs.Prelude.{◌≡◌, ℕ, ◌+◌, ◌<◌, ◌≤◌, cond, [], ◌∷◌, ◌++◌, drop, IfOk, OnOk};
ghost use Rattle.cube_search.specs.Rows.{both};
ghost use Rattle.cube_search.specs.Search.{is_few, how_many, has_variable, is_mentioned, takes, is_covered, left_by, offered, candidate, considered, kept_of, longer, visited, all_visited};

use crate::row::{Row, both, is_some, is_within, meets, twin};
use cv_base::Memory;
use std::alloc::Global;
use std::marker::Model;

/// Numbers of literals, rising.
#[derive(Debug, Drop)]
pub struct Cube(pub Vec<usize>);

impl Model for Cube {
    ghost use Rattle.std.specs.Prelude.{List, ℕ};

    ghost Value = { List ℕ };

    ghost view = { λ c. c.0.items };
}

/// A cube with the row of the configurations in which it is true.
#[derive(Debug, Drop)]
pub struct Candidate {
    /// Where it is true.
    pub row: Row,
    /// Its literals.
    pub cube: Cube,
}

/// What is searched.
#[derive(Debug, Drop)]
pub struct Task {
    /// For each literal where it is true.
    pub rows: Vec<Row>,
    /// For each literal the variables of its two terms.
    pub variables: Vec<(u8, u8)>,
    /// All configurations.
    pub all: Row,
    /// Those in which the tree is false.
    pub never: Row,
    /// Those in which the tree is true.
    pub wanted: Row,
}

/// The same cube again.
fn cube_twin(alloc: Global, cube: &Cube) -> Result<Cube, Memory>
    ensures { IfOk result (λ c. c ≡ cube.now) }
{
    match cube.0.iter().copied().collect(alloc) {
        Ok(numbers) => Ok(Cube(numbers)),
        Err(_) => Err(Memory),
    }
}

/// The cube with one literal more.
fn longer(alloc: Global, cube: &Cube, literal: usize) -> Result<Cube, Memory>
    ensures { IfOk result (λ c. c ≡ cube.now ++ literal ∷ []) }
{
    let mut more = cube_twin(alloc, cube)?;
    match more.0.push(literal) {
        Ok(()) => Ok(more),
        Err(_) => Err(Memory),
    }
}

/// Whether a literal has a term of this variable.
fn is_mentioned(variables: &[(u8, u8)], variable: u8, literal: usize) -> bool
    ensures { result ≡ is_mentioned variables.now variable literal }
{
    match variables.get(literal) {
        Some(pair) => pair.0 == variable || pair.1 == variable,
        None => false,
    }
}

/// Whether a cube has at most three variables.
#[tactic(auto, using(crate::proofs::Steps::how_many_next), unfolding(crate::specs::Search::is_few))]
fn is_few(variables: &[(u8, u8)], cube: &Cube) -> bool
    ensures { result ≡ is_few variables.now cube.now }
{
    let mut count = 0u8;
    for variable in 0..8u8 {
        count += one(has_variable(variables, cube, variable));
    }
    count <= 3
}

/// Whether a cube with one literal more has at most three variables.
#[tactic(auto, using(crate::proofs::Steps::how_many_next), unfolding(crate::specs::Search::is_few))]
fn is_few_with(variables: &[(u8, u8)], cube: &Cube, literal: usize) -> bool
    ensures { result ≡ is_few variables.now (cube.now ++ literal ∷ []) }
{
    let mut count = 0u8;
    for variable in 0..8u8 {
        count += one(has_variable_with(variables, cube, literal, variable));
    }
    count <= 3
}

/// Whether a literal of the cube or this one has a term of this variable.
#[tactic(auto, using(crate::proofs::Steps::has_one_more))]
fn has_variable_with(variables: &[(u8, u8)], cube: &Cube, literal: usize, variable: u8) -> bool
    ensures { result ≡ has_variable variables.now (cube.now ++ literal ∷ []) variable }
{
    has_variable(variables, cube, variable) || is_mentioned(variables, variable, literal)
}

/// Whether a literal of the cube has a term of this variable.
fn has_variable(variables: &[(u8, u8)], cube: &Cube, variable: u8) -> bool
    ensures { result ≡ has_variable variables.now cube.now variable }
{
    cube.0
        .iter()
        .any(|literal| is_mentioned(variables, variable, *literal))
}

/// One where it is so.
fn one(so: bool) -> u8
    ensures is { result ≡ cond so 1 0 }
    ensures most { result ≤ 1 }
{
    if so { 1 } else { 0 }
}

/// Keeps a cube, unless one that is kept is as wide, and gives up those that are not wider than it.
fn offer(kept: &mut Vec<Candidate>, candidate: Candidate) -> Result<(), Memory>
    ensures { OnOk result (kept.new.items ≡ offered candidate kept.old.items) }
{
    if is_covered(kept, &candidate.row) {
        return Ok(());
    }
    give_up(kept, &candidate.row);
    put(kept, candidate)
}

/// Whether one that is kept is true wherever this row is set.
fn is_covered(kept: &[Candidate], row: &Row) -> bool
    ensures { result ≡ is_covered kept.now row.now }
{
    kept.iter().any(|other| is_within(row, &other.row))
}

/// Gives up those that are true only where this row is set.
fn give_up(kept: &mut Vec<Candidate>, row: &Row)
    ensures { kept.new.items ≡ left_by kept.old.items row.now }
{
    kept.retain(|other| !is_within(&other.row, row));
}

/// Puts a cube at the end.
pub(crate) fn put(kept: &mut Vec<Candidate>, candidate: Candidate) -> Result<(), Memory>
    ensures { OnOk result (kept.new.items ≡ kept.old.items ++ candidate ∷ []) }
{
    match kept.push(candidate) {
        Ok(()) => Ok(()),
        Err(_) => Err(Memory),
    }
}

/// Offers a cube, if it is an implicant.
fn consider(
    alloc: Global,
    task: &Task,
    row: &Row,
    cube: &Cube,
    kept: &mut Vec<Candidate>,
) -> Result<(), Memory>
    ensures { OnOk result (kept.new.items
        ≡ considered task.now (record { row = row.now; cube = cube.now }) kept.old.items) }
{
    if !is_some(row) || meets(row, &task.never) || !is_few(&task.variables, cube) {
        return Ok(());
    }
    let row = twin(alloc, row)?;
    let cube = cube_twin(alloc, cube)?;
    offer(kept, Candidate { row, cube })
}

/// Offers the cube with two literals more, if it is an implicant: `row` is where it is true with the first, `bad` where the
/// tree is false besides, `other` where the second is true.
#[tactic(auto, using(crate::proofs::Steps::unfit, crate::proofs::Steps::idle))]
fn finish(
    alloc: Global,
    task: &Task,
    literals: (usize, usize),
    other: &Row,
    bad: &Row,
    row: &Row,
    cube: &Cube,
    kept: &mut Vec<Candidate>,
) -> Result<(), Memory>
    requires bad { bad.now ≡ both row.now task.now.never }
    ensures { OnOk result (kept.new.items
        ≡ considered task.now (candidate (both row.now other.now) ((cube.now ++ literals.0 ∷ []) ++ literals.1 ∷ [])) kept.old.items) }
{
    if meets(bad, other) || !meets(row, other) {
        return Ok(());
    }
    let narrower = both(alloc, row, other)?;
    let more = longer(alloc, cube, literals.0)?;
    let most = longer(alloc, &more, literals.1)?;
    consider(alloc, task, &narrower, &most, kept)
}

/// Goes through the cubes with this literal and one more from `from` on; `row` is where the cube is true with the literal.
fn search_last(
    alloc: Global,
    task: &Task,
    from: usize,
    row: &Row,
    cube: &Cube,
    literal: usize,
    kept: &mut Vec<Candidate>,
) -> Result<(), Memory>
    ensures { OnOk result (kept.new.items ≡ kept_of task.now
        (longer (visited task.now.never 0) from (drop from task.now.rows.items) row.now (cube.now ++ literal ∷ []))
        kept.old.items) }
{
    let bad = both(alloc, row, &task.never)?;
    'each: for last in from..task.rows.len() {
        finish(
            alloc,
            task,
            (literal, last),
            &task.rows[last],
            &bad,
            row,
            cube,
            kept,
        )?;
    }
    Ok(())
}

/// Goes through the cubes with this literal, true where `other` is set, and one more from `from` on.
#[tactic(auto, using(crate::proofs::Steps::visited_stop, crate::proofs::Steps::visited_last))]
fn search_with(
    alloc: Global,
    task: &Task,
    from: usize,
    literal: usize,
    other: &Row,
    row: &Row,
    cube: &Cube,
    kept: &mut Vec<Candidate>,
) -> Result<(), Memory>
    ensures { OnOk result (kept.new.items ≡ kept_of task.now
        (visited task.now.never 1 from (drop from task.now.rows.items) (both row.now other.now) (cube.now ++ literal ∷ []))
        kept.old.items) }
{
    if !is_few_with(&task.variables, cube, literal) {
        return Ok(());
    }
    let narrower = both(alloc, row, other)?;
    if !meets(&narrower, &task.never) {
        return Ok(());
    }
    search_last(alloc, task, from, &narrower, cube, literal, kept)
}

/// Goes through the cubes with two literals more, from this literal on.
fn search_pairs(
    alloc: Global,
    task: &Task,
    from: usize,
    row: &Row,
    cube: &Cube,
    kept: &mut Vec<Candidate>,
) -> Result<(), Memory>
    ensures { OnOk result (kept.new.items ≡ kept_of task.now
        (longer (visited task.now.never 1) from (drop from task.now.rows.items) row.now cube.now)
        kept.old.items) }
{
    'each: for literal in from..task.rows.len() {
        search_with(
            alloc,
            task,
            literal + 1,
            literal,
            &task.rows[literal],
            row,
            cube,
            kept,
        )?;
    }
    Ok(())
}

/// Goes through the cubes with so many literals more, from this literal on.
#[tactic(auto, using(crate::proofs::Steps::visited_none, crate::proofs::Steps::visited_stop, crate::proofs::Searched::many, crate::proofs::Steps::visited_pair, crate::proofs::Steps::visited_more))]
fn search(
    alloc: Global,
    task: &Task,
    left: u32,
    from: usize,
    row: &Row,
    cube: &Cube,
    kept: &mut Vec<Candidate>,
) -> Result<(), Memory>
    ensures { OnOk result (kept.new.items ≡ kept_of task.now
        (visited task.now.never left from (drop from task.now.rows.items) row.now cube.now)
        kept.old.items) }
{
    if left == 0 {
        return consider(alloc, task, row, cube, kept);
    }
    if !meets(row, &task.never) {
        return Ok(());
    }
    if !is_few(&task.variables, cube) {
        return Ok(());
    }
    if left == 2 {
        return search_pairs(alloc, task, from, row, cube, kept);
    }
    'each: for literal in from..task.rows.len() {
        let narrower = both(alloc, row, &task.rows[literal])?;
        let more = longer(alloc, cube, literal)?;
        search(alloc, task, left - 1, literal + 1, &narrower, &more, kept)?;
    }
    Ok(())
}

/// The widest implicants, the least cube of each row, in the order of cubes.
pub(crate) fn widest(alloc: Global, task: &Task) -> Result<Vec<Candidate>, Memory>
    ensures { IfOk result (λ kept. kept.items
        ≡ kept_of task.now (all_visited task.now 5) []) }
{
    let mut kept = Vec::new(alloc);
    let none = Cube(Vec::new(alloc));
    'sizes: for size in 0..5u32 {
        search(alloc, task, size, 0, &task.all, &none, &mut kept)?;
    }
    Ok(kept)
}
