//! What terms lead to in a heap, and whether literals and cubes are true there.
ghost use Rattle.std.specs.Prelude.{◌≡◌, slice_index};
ghost use Rattle.access_paths.specs.{by_objects, object_of};
ghost use Rattle.access_paths.specs.Truth as told;

use crate::term::{Cube, Literal, Term};
use easl_heap::Heap;

/// The object that the term leads to, given the object of each variable by number; 0 where there is none.
fn reached(heap: &Heap, objects: &[u32], term: &Term) -> u32
    ensures { result ≡ object_of heap.now objects.now term.now }
{
    let mut object = match objects.get(usize::from(term.var.0)) {
        Some(start) => *start,
        None => 0,
    };
    'each: for field in term.fields.as_slice() {
        object = heap.get(object, *field);
    }
    object
}

/// Whether the two terms lead to one object, or, of a literal by `!=`, to two.
fn is_true(heap: &Heap, objects: &[u32], literal: &Literal) -> bool
    ensures { result ≡ told.literal_holds (by_objects heap.now objects.now) literal.now }
{
    let one = reached(heap, objects, &literal.less) == reached(heap, objects, &literal.more);
    one == literal.same
}

/// Whether all literals of the cube are true. `objects` has the object of each variable by number; where it has none,
/// the variable stands for no object, whose fields hold none.
pub fn cube_holds(heap: &Heap, cube: &Cube, objects: &[u32]) -> bool
    ensures { result ≡ told.cube_holds (by_objects heap.now objects.now) cube.now.literals }
{
    let literals = cube.literals.as_slice();
    literals
        .iter()
        .all(|literal| is_true(heap, objects, literal))
}
