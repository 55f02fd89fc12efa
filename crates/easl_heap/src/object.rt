//! The objects of a heap.
use arrayvec::ArrayVec;
use std::marker::Model;

/// An object: its class, and for each field position the number of the object that it holds.
#[derive(Debug, Drop)]
pub struct Object {
    class: u32,
    fields: ArrayVec<u32, 16>,
}

impl Model for Object {
    ghost use Rattle.easl_heap.specs.Heap as heap;

    ghost Value = { heap.Object };

    ghost view = { λ o. record { class = o.class; fields = o.fields.items } };
}

impl Object {
    ghost use Rattle.std.specs.Prelude.{◌≡◌, ◌≤◌, replicate, slice_index, slice_set};
    ghost use Rattle.easl_heap.specs.{with_field};

    /// A fresh object, with no field assigned.
    pub fn fresh(class: u32, field_count: u32) -> Object
        requires { field_count ≤ 16 }
        ensures { result ≡ record { class = class; fields = replicate field_count 0 } }
    {
        let mut fields = ArrayVec::new();
        'each: for _ in 0..field_count {
            fields.push(0);
        }
        Object { class, fields }
    }

    pub fn class(&self) -> u32
        ensures { result ≡ self.now.class }
    {
        self.class
    }

    /// What the field holds, 0 where there is no such field.
    pub fn field(&self, field: u32) -> u32
        ensures { result ≡ slice_index self.now.fields field }
    {
        match self.fields.as_slice().get(field as usize) {
            Some(object) => *object,
            None => 0,
        }
    }

    /// Writes the field; where there is no such field, nothing changes.
    pub fn put(&mut self, field: u32, object: u32)
        ensures { self.new ≡ with_field field object self.old }
    {
        if (field as usize) < self.fields.len() {
            self.fields[field as usize] = object;
        }
    }
}
