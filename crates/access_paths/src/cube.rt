//! The order of cubes.
ghost use Rattle.std.specs.Prelude.{◌≡◌};
ghost use Rattle.std.specs.Cmp.Lexicographic.{slice_cmp};
ghost use Rattle.access_paths.specs.{compare_cubes, compare_literals};

use crate::term::{Cube, Literal};
use sqlite_items::at;
use std::cmp::Ordering;

/// The order of cubes: by size, then literals.
pub fn cmp_cube(left: &Cube, right: &Cube) -> Ordering
    ensures { result ≡ compare_cubes left.now right.now }
{
    let left = left.literals.as_slice();
    let right = right.literals.as_slice();
    left.len().cmp(&right.len()).then(in_turn(left, right))
}

/// The order of the first two literals that differ, or else of the sizes.
fn in_turn(left: &[Literal], right: &[Literal]) -> Ordering
    ensures { result ≡ slice_cmp compare_literals left.now right.now }
{
    'each: for (before, literal) in left.iter().enumerate() {
        let Some(other) = at(right, before) else {
            return Ordering::Greater;
        };
        let order = literal.compare(other);
        if order.is_ne() {
            return order;
        }
    }
    left.len().cmp(&right.len())
}
