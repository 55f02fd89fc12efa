//! The heap, and what is executed on it.
use crate::body::{Done, execute};
use crate::clause::first_false;
use crate::object::Object;
use crate::paths::held_by;
use cv_base::Memory;
use easl_model::CheckedSpec;
use std::alloc::Global;
use std::marker::Model;

/// Objects, numbered from 1, which contracts see as their list.
#[derive(Debug, Drop)]
pub struct Heap {
    objects: Vec<Object>,
}

impl Model for Heap {
    ghost use Rattle.std.specs.Prelude.{List, ◌<◌, ◌^◌, length};
    ghost use Rattle.easl_heap.specs.Heap as heap;

    ghost Value = { List heap.Object };

    ghost view = { λ h. h.objects.items };

    ghost invariant = { λ h. length h.objects.items < 2 ^ 32 };
}

/// The most objects that a call makes: one a statement, and one for a constructor.
const MOST_OBJECTS: usize = 1025;

impl Heap {
    ghost use Rattle.std.specs.Prelude.{◌≡◌, ◌+◌, ◌^◌, ◌<◌, ◌≤◌, [], length, slice_get, IfOk, OnOk, OnErr};
    ghost use Rattle.easl_heap.specs.{AreOfClasses, GivesClass, HasArguments, IsFull, KeepsClasses, body, get, outcome};
    ghost use Rattle.easl_heap.specs.Clause as told;

    /// An empty heap. It takes no memory, and keeps the allocator for later.
    pub fn new(alloc: Global) -> Heap
        ensures { result ≡ [] }
    {
        Heap {
            objects: Vec::new(alloc),
        }
    }

    pub fn count(&self) -> u32
        ensures { result ≡ length self.now }
    {
        self.objects.len() as u32
    }

    /// What the object's field holds; 0 for object 0, and where there is no such position.
    pub fn get(&self, object: u32, field: u32) -> u32
        ensures { result ≡ get self.now object field }
    {
        held_by(self.objects.as_slice(), object, field)
    }

    /// The first false clause of the method, from 1; None where all are true.
    pub fn requires_of(&self, spec: &CheckedSpec, method: u32, args: &[u32]) -> Option<u32>
        requires method { method < length spec.now.methods }
        requires args { HasArguments spec.now method args.now }
        ensures { result ≡ told.requires_of self.now spec.now method args.now }
    {
        let called = spec.method(method);
        if called.constructor {
            return None;
        }
        first_false(self.objects.as_slice(), args, called.clauses.as_slice())
    }

    /// Executes the method's body, and answers the object that it gives, else 0, with the number of statements that
    /// were executed. `Memory` comes before the first change, and leaves the heap as it was. On a full heap, with
    /// arguments of the classes that the method takes, it leaves a full heap, and gives an object of the result's class.
    pub fn execute_body(
        &mut self,
        spec: &CheckedSpec,
        method: u32,
        args: &[u32],
    ) -> Result<Done, Memory>
        requires method { method < length spec.now.methods }
        requires args { HasArguments spec.now method args.now }
        requires room { length self.old + 1025 < 2 ^ 32 }
        ensures body { IfOk result (λ d. outcome self.new d.result d.steps ≡ body spec.now method args.now self.old) }
        ensures err { OnErr result (self.new ≡ self.old) }
        ensures grown { length self.new ≤ length self.old + 1025 }
        ensures steps { IfOk result (λ d. d.steps ≤ 1024) }
        ensures kept { KeepsClasses self.old self.new }
        ensures full { IsFull spec.now self.old → AreOfClasses spec.now method self.old args.now
            → IfOk result (λ d. IsFull spec.now self.new × GivesClass spec.now method self.new d.result) }
    {
        if self.objects.reserve(MOST_OBJECTS).is_err() {
            return Err(Memory);
        }
        Ok(execute(&mut self.objects, spec, method, args))
    }
}
