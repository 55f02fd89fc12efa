//! What fields hold after some writes. Writes stand with the newest first.
ghost use Rattle.std.specs.Prelude.{◌≡◌, ◌∷◌, OnOk, slice_get};
ghost use Rattle.easl_model.specs.{fields_of};
ghost use Rattle.question_model.specs.Values as told;
ghost use Rattle.weakest_pre.specs.Running.{Gives, most};

use crate::branch::Branch;
use crate::stop::Stop;
use access_paths::Term;
use easl_model::CheckedSpec;
use question_model::{Value, Write};
use std::alloc::AllocError;

/// The most fields of a term.
const MOST_FIELDS: usize = 6;

/// The class of the field at this position, where the class has such a field.
fn field_class(spec: &CheckedSpec, class: u32, position: u32) -> Option<u32>
    ensures { result ≡ slice_get (fields_of spec.now class) position }
{
    if class < spec.class_count() && position < spec.field_count(class) {
        Some(spec.field_class(class, position))
    } else {
        None
    }
}

impl Branch<'_> {
    /// A field of what a term led to, of this class if there is such a field.
    fn extended(&self, term: &Term, position: u32, class: Option<u32>) -> Result<Value, Stop>
        ensures { Gives (told.extended most term.now position class) result }
    {
        match class {
            None => Ok(Value::Nothing),
            Some(class) => {
                if term.fields.as_slice().len() < MOST_FIELDS {
                    Ok(Value::Before(class, term.field(self.alloc, position)?))
                } else {
                    Err(Stop::Long)
                }
            }
        }
    }

    /// A field to which no write was found.
    fn unwritten(&self, value: &Value, position: u32) -> Result<Value, Stop>
        ensures { Gives (told.unwritten self.now.spec.now most value.now position) result }
    {
        match value {
            Value::Before(class, term) => {
                self.extended(term, position, field_class(self.spec, *class, position))
            }
            Value::Fresh(_, _) => Ok(Value::Nothing),
            Value::Nothing => Ok(Value::Nothing),
        }
    }

    /// Whether it is a write to the field at this position of objects of this class, and of this value.
    fn is_found(
        &self,
        class: u32,
        value: &Value,
        position: u32,
        write: &Write,
    ) -> Result<bool, Stop>
        ensures { Gives (told.is_found self.now.answers.now class value.now position write.now) result }
    {
        if write.class == class && write.position == position {
            self.are_same(&write.owner, value)
        } else {
            Ok(false)
        }
    }

    /// A field of an object of a class, by the newest write to it.
    fn through(
        &self,
        class: u32,
        value: &Value,
        position: u32,
        writes: &[Write],
    ) -> Result<Value, Stop>
        ensures { Gives (told.through self.now.spec.now most self.now.answers.now class value.now position writes.now) result }
    {
        'each: for write in writes {
            if self.is_found(class, value, position, write)? {
                return Ok(write.value.twin(self.alloc)?);
            }
        }
        self.unwritten(value, position)
    }

    /// A field of a value.
    fn field_of(&self, writes: &[Write], value: &Value, position: u32) -> Result<Value, Stop>
        ensures { Gives (told.field_of self.now.spec.now most self.now.answers.now writes.now value.now position) result }
    {
        match value {
            Value::Before(class, _) => self.through(*class, value, position, writes),
            Value::Fresh(class, _) => self.through(*class, value, position, writes),
            Value::Nothing => Ok(Value::Nothing),
        }
    }

    /// What the fields lead to from the value.
    pub fn led(&self, writes: &[Write], value: &Value, fields: &[u32]) -> Result<Value, Stop>
        ensures { Gives (told.led self.now.spec.now most self.now.answers.now writes.now value.now fields.now) result }
    {
        let mut object = value.twin(self.alloc)?;
        'each: for field in fields {
            object = self.field_of(writes, &object, *field)?;
        }
        Ok(object)
    }
}

/// Puts a write before the others; where the owner's class has no such field, nothing is written.
pub fn write(
    spec: &CheckedSpec,
    writes: &mut Vec<Write>,
    owner: Value,
    position: u32,
    value: Value,
) -> Result<(), AllocError>
    ensures { OnOk result (writes.new.items ≡ told.written spec.now owner position value writes.old.items) }
{
    let class = match &owner {
        Value::Before(class, _) => *class,
        Value::Fresh(class, _) => *class,
        Value::Nothing => return Ok(()),
    };
    if field_class(spec, class, position).is_none() {
        return Ok(());
    }
    push_front(
        writes,
        Write {
            class,
            owner,
            position,
            value,
        },
    )
}

fn push_front(writes: &mut Vec<Write>, write: Write) -> Result<(), AllocError>
    ensures { OnOk result (writes.new.items ≡ write ∷ writes.old.items) }
{
    match writes.insert(0, write) {
        Ok(()) => Ok(()),
        Err(_) => Err(AllocError),
    }
}
