//! Bodies on symbolic values, statement by statement. A constructor that is called is executed in place.
ghost use Rattle.std.specs.Prelude.{◌≡◌, ◌<◌, ◌≤◌, [], ◌∷◌, ◌++◌, IfOk, IfSome, OnOk, length, slice_set};
ghost use Rattle.easl_model.specs.{ActInRange, ActsInRange, MethodInRange, MethodKeepsLimits, SourceInRange, statement_of, statements_of, written_by};
ghost use Rattle.easl_model.specs.{written_in};
ghost use Rattle.question_model.specs.{made, outcome, state};
ghost use Rattle.question_model.specs.Bodies as told;
ghost use Rattle.weakest_pre.specs.Running.{Gives, GivesItems, GivesTo, Leaves, closed, most};

use crate::branch::Branch;
use crate::condition::Effects;
use crate::field::write;
use crate::stop::Stop;
use easl_model::{Act, Method, Reach, Source};
use question_model::Value;
use std::alloc::AllocError;

pub fn push(values: &mut Vec<Value>, value: Value) -> Result<(), AllocError>
    ensures { OnOk result (values.new.items ≡ values.old.items ++ value ∷ []) }
{
    match values.push(value) {
        Ok(()) => Ok(()),
        Err(_) => Err(AllocError),
    }
}

/// Assigns a slot, where there is one.
fn change(slots: &mut Vec<Value>, slot: u32, value: Value)
    ensures { slots.new.items ≡ slice_set slots.old.items slot value }
{
    if (slot as usize) < slots.len() {
        slots[slot as usize] = value;
    }
}

/// The slots of a constructor: the fresh object, and then the arguments.
fn frame(this: Value, args: Vec<Value>) -> Result<Vec<Value>, AllocError>
    ensures { IfOk result (λ v. v.items ≡ this ∷ args.items) }
{
    let mut slots = args;
    match slots.insert(0, this) {
        Ok(()) => Ok(slots),
        Err(_) => Err(AllocError),
    }
}

impl Branch<'_> {
    fn argument(
        &self,
        slots: &[Value],
        effects: &Effects,
        arg: &Option<Reach>,
    ) -> Result<Value, Stop>
        ensures { Gives (told.argument self.now.spec.now most self.now.answers.now
            (state slots.now effects.now.writes.items effects.now.count) arg.now) result }
    {
        match arg {
            Some(path) => self.reached(slots, effects, path),
            None => Ok(Value::Nothing),
        }
    }

    /// The arguments' values.
    fn arguments(
        &self,
        slots: &[Value],
        effects: &Effects,
        args: &[Option<Reach>],
    ) -> Result<Vec<Value>, Stop>
        ensures { GivesItems (told.arguments self.now.spec.now most self.now.answers.now
            (state slots.now effects.now.writes.items effects.now.count) args.now) result }
    {
        let mut values = Vec::new(self.alloc);
        'each: for arg in args {
            let value = self.argument(slots, effects, arg)?;
            push(&mut values, value)?;
        }
        Ok(values)
    }

    /// Executes the statements in order.
    #[cycle(body)]
    #[tactic(auto, using(easl_heap::proofs::Underway::in_range_at, crate::proofs::Executing::written_at))]
    fn run(
        &self,
        depth: u32,
        acts: &[Act],
        slots: &mut Vec<Value>,
        effects: &mut Effects,
    ) -> Result<(), Stop>
        requires range { ActsInRange (length self.now.spec.now.classes) (statements_of acts.now) }
        requires written { written_in (statements_of acts.now) ≤ 64 }
        ensures { GivesTo
            (told.run self.now.spec.now most self.now.answers.now (made self.now.spec.now most self.now.answers.now depth)
            (statements_of acts.now) (state slots.old.items effects.old.writes.items effects.old.count))
            result (state slots.new.items effects.new.writes.items effects.new.count) }
    {
        'each: for act in acts {
            self.step(depth, act, slots, effects)?;
        }
        Ok(())
    }

    #[cycle(body)]
    fn step(
        &self,
        depth: u32,
        act: &Act,
        slots: &mut Vec<Value>,
        effects: &mut Effects,
    ) -> Result<(), Stop>
        requires range { ActInRange (length self.now.spec.now.classes) (statement_of act.now) }
        requires written { written_by (statement_of act.now) ≤ 64 }
        ensures { GivesTo
            (told.step self.now.spec.now most self.now.answers.now (made self.now.spec.now most self.now.answers.now depth)
            (statement_of act.now) (state slots.old.items effects.old.writes.items effects.old.count))
            result (state slots.new.items effects.new.writes.items effects.new.count) }
    {
        match act {
            Act::Local(source) => {
                let object = self.value(depth, source, slots.as_slice(), effects)?;
                push(slots, object)?;
                Ok(())
            }
            Act::Change(slot, source) => {
                let object = self.value(depth, source, slots.as_slice(), effects)?;
                change(slots, *slot, object);
                Ok(())
            }
            Act::Write(target, position, source) => {
                let owner = self.reached(slots.as_slice(), effects, target)?;
                let object = self.value(depth, source, slots.as_slice(), effects)?;
                write(self.spec, &mut effects.writes, owner, *position, object)?;
                Ok(())
            }
            Act::If(test, first, second) => {
                if self.holds(slots.as_slice(), effects, test)? {
                    self.block(depth, first.as_slice(), slots, effects)
                } else {
                    self.block(depth, second.as_slice(), slots, effects)
                }
            }
        }
    }

    /// Executes the statements of one side of an `if`; their locals end with them.
    #[cycle(body)]
    fn block(
        &self,
        depth: u32,
        acts: &[Act],
        slots: &mut Vec<Value>,
        effects: &mut Effects,
    ) -> Result<(), Stop>
        requires range { ActsInRange (length self.now.spec.now.classes) (statements_of acts.now) }
        requires written { written_in (statements_of acts.now) ≤ 64 }
        ensures { GivesTo
            (closed (state slots.old.items effects.old.writes.items effects.old.count)
            (told.run self.now.spec.now most self.now.answers.now (made self.now.spec.now most self.now.answers.now depth)
            (statements_of acts.now) (state slots.old.items effects.old.writes.items effects.old.count)))
            result (state slots.new.items effects.new.writes.items effects.new.count) }
    {
        let declared = slots.len();
        match self.run(depth, acts, slots, effects) {
            Ok(()) => {
                slots.truncate(declared);
                Ok(())
            }
            Err(stop) => Err(stop),
        }
    }

    /// What the value is.
    #[cycle(body)]
    fn value(
        &self,
        depth: u32,
        source: &Source,
        slots: &[Value],
        effects: &mut Effects,
    ) -> Result<Value, Stop>
        requires { SourceInRange (length self.now.spec.now.classes) source.now }
        ensures { Leaves
            (told.value self.now.spec.now most self.now.answers.now (made self.now.spec.now most self.now.answers.now depth)
            source.now (state slots.now effects.old.writes.items effects.old.count))
            result effects.new.writes.items effects.new.count }
    {
        match source {
            Source::Reach(path) => self.reached(slots, effects, path),
            Source::Make(class, args) => {
                let args = self.arguments(slots, effects, args.as_slice())?;
                self.construct(depth, *class, args, effects)
            }
        }
    }

    /// Makes an object of the class and executes the class's constructor on it.
    #[cycle(body)]
    fn construct(
        &self,
        depth: u32,
        class: u32,
        args: Vec<Value>,
        effects: &mut Effects,
    ) -> Result<Value, Stop>
        requires { class < length self.now.spec.now.classes }
        ensures { Leaves
            (made self.now.spec.now most self.now.answers.now depth class args.items effects.old.writes.items effects.old.count)
            result effects.new.writes.items effects.new.count }
    {
        let number = effects.count;
        if number == u32::MAX {
            return Err(Stop::Memory);
        }
        effects.count = number + 1;
        if depth == 0 {
            return Ok(Value::Fresh(class, number));
        }
        let constructor = self.spec.method(self.spec.constructor(class));
        let mut slots = frame(Value::Fresh(class, number), args)?;
        match self.run(depth - 1, constructor.body.as_slice(), &mut slots, effects) {
            Ok(()) => Ok(Value::Fresh(class, number)),
            Err(stop) => Err(stop),
        }
    }

    /// Executes the `return`, where there is one.
    fn returned(
        &self,
        depth: u32,
        source: &Option<Source>,
        slots: &[Value],
        effects: &mut Effects,
    ) -> Result<Value, Stop>
        requires { IfSome source.now (SourceInRange (length self.now.spec.now.classes)) }
        ensures { Leaves
            (told.returned self.now.spec.now most self.now.answers.now (made self.now.spec.now most self.now.answers.now depth)
            source.now (state slots.now effects.old.writes.items effects.old.count))
            result effects.new.writes.items effects.new.count }
    {
        match source {
            Some(source) => self.value(depth, source, slots, effects),
            None => Ok(Value::Nothing),
        }
    }

    /// Calls a method on these values.
    pub fn called(
        &self,
        method: &Method,
        args: Vec<Value>,
        effects: &mut Effects,
    ) -> Result<Value, Stop>
        requires range { MethodInRange (length self.now.spec.now.classes) method.now }
        requires limits { MethodKeepsLimits self.now.spec.now method.now }
        requires writes { effects.old.writes.items ≡ [] }
        requires count { effects.old.count ≡ 0 }
        ensures { Leaves (told.called self.now.spec.now most self.now.answers.now method.now args.items)
            result effects.new.writes.items effects.new.count }
    {
        let depth = self.spec.class_count();
        if method.constructor {
            return self.construct(depth, method.class, args, effects);
        }
        let mut slots = args;
        self.run(depth, method.body.as_slice(), &mut slots, effects)?;
        self.returned(depth, &method.value, slots.as_slice(), effects)
    }
}
