//! Symbolic values, on which bodies are executed, and the fields that were written.
use access_paths::Term;
use std::alloc::{AllocError, Global};

/// An object on which a body runs: that to which a term led before the call, or one made since, by its number from 0;
/// each with its class. `Nothing` is no object: what an opaque slot has, and a field that is not assigned.
#[derive(Debug, Drop)]
pub enum Value {
    Before(u32, Term),
    Fresh(u32, u32),
    Nothing,
}

impl Value {
    ghost use Rattle.std.specs.Prelude.{◌≡◌, IfOk};

    /// The same value again.
    pub fn twin(&self, alloc: Global) -> Result<Value, AllocError>
        ensures { IfOk result (λ v. v ≡ self.now) }
    {
        match self {
            Value::Before(class, term) => Ok(Value::Before(*class, term.twin(alloc)?)),
            Value::Fresh(class, number) => Ok(Value::Fresh(*class, *number)),
            Value::Nothing => Ok(Value::Nothing),
        }
    }
}

/// A field was written: of the owner, an object of this class, the one at this position, and what it holds since.
#[derive(Debug, Drop)]
pub struct Write {
    pub class: u32,
    pub owner: Value,
    pub position: u32,
    pub value: Value,
}
