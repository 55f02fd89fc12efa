//! Rows of bits: one for each configuration.
ghost use Rattle.std.specs.Prelude.{◌≡◌, IfOk};
ghost use Rattle.cube_search.specs.Rows.{are_within, both, either, is_some, is_within, meets};

use cv_base::Memory;
use std::alloc::Global;
use std::marker::Model;

/// A row of bits in words.
#[derive(Debug, Drop)]
pub struct Row(pub Vec<u64>);

impl Model for Row {
    ghost use Rattle.std.specs.Prelude.{List, ℕ};

    ghost Value = { List ℕ };

    ghost view = { λ r. r.0.items };
}

/// The bits that are set in both rows.
pub(crate) fn both(alloc: Global, left: &Row, right: &Row) -> Result<Row, Memory>
    ensures { IfOk result (λ r. r ≡ both left.now right.now) }
{
    match left
        .0
        .iter()
        .zip(right.0.iter())
        .map(|(x, y)| *x & *y)
        .collect(alloc)
    {
        Ok(words) => Ok(Row(words)),
        Err(_) => Err(Memory),
    }
}

/// The bits that are set in one of the rows.
pub(crate) fn either(alloc: Global, left: &Row, right: &Row) -> Result<Row, Memory>
    ensures { IfOk result (λ r. r ≡ either left.now right.now) }
{
    match left
        .0
        .iter()
        .zip(right.0.iter())
        .map(|(x, y)| *x | *y)
        .collect(alloc)
    {
        Ok(words) => Ok(Row(words)),
        Err(_) => Err(Memory),
    }
}

/// Whether some bit is set.
pub(crate) fn is_some(row: &Row) -> bool
    ensures { result ≡ is_some row.now }
{
    row.0.iter().any(|x| *x != 0)
}

/// Whether some bit is set in both rows.
pub(crate) fn meets(left: &Row, right: &Row) -> bool
    ensures { result ≡ meets left.now right.now }
{
    left.0.iter().zip(right.0.iter()).any(|(x, y)| *x & *y != 0)
}

/// Whether each bit that is set in the first row is set in the second.
pub(crate) fn is_within(left: &Row, right: &Row) -> bool
    ensures { result ≡ is_within left.now right.now }
{
    left.0.len() <= right.0.len() && are_within(left, right)
}

/// Whether each bit that is set in a word of the first row is set in the second row's word.
fn are_within(left: &Row, right: &Row) -> bool
    ensures { result ≡ are_within left.now right.now }
{
    left.0
        .iter()
        .zip(right.0.iter())
        .all(|(x, y)| *x & *y == *x)
}

/// The same row again.
pub(crate) fn twin(alloc: Global, row: &Row) -> Result<Row, Memory>
    ensures { IfOk result (λ r. r ≡ row.now) }
{
    match row.0.iter().copied().collect(alloc) {
        Ok(words) => Ok(Row(words)),
        Err(_) => Err(Memory),
    }
}
