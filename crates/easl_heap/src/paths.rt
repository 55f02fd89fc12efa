//! What paths lead to. Reads are total: a slot or a position that is not there gives 0.
ghost use Rattle.std.specs.Prelude.{◌≡◌, slice_index};
ghost use Rattle.easl_heap.specs.{get};
ghost use Rattle.easl_heap.specs.Heap as heap;

use crate::object::Object;
use arrayvec::ArrayVec;
use easl_model::Reach;
use sqlite_items::at;

/// The slots of a method: `this`, its parameters, and its locals.
pub type Slots = ArrayVec<u32, 69>;

/// What the field of the object holds.
#[tactic(auto, using(crate::proofs::Places::place_before))]
pub fn held_by(objects: &[Object], object: u32, field: u32) -> u32
    ensures { result ≡ get objects.now object field }
{
    if object == 0 {
        return 0;
    }
    match at(objects, object as usize - 1) {
        Some(found) => found.field(field),
        None => 0,
    }
}

pub fn slot_of(slots: &[u32], slot: u32) -> u32
    ensures { result ≡ slice_index slots.now slot }
{
    match slots.get(slot as usize) {
        Some(object) => *object,
        None => 0,
    }
}

/// The object that the fields lead to from the slot.
pub fn reached(objects: &[Object], slots: &[u32], path: &Reach) -> u32
    ensures { result ≡ heap.reached objects.now slots.now path.now }
{
    let mut object = slot_of(slots, path.slot);
    'each: for field in path.fields.as_slice() {
        object = held_by(objects, object, *field);
    }
    object
}
