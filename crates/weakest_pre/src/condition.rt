//! What paths and conditions come to in a body under way.
ghost use Rattle.std.specs.Prelude.{◌≡◌, map};
ghost use Rattle.easl_model.specs.{condition_of, conditions};
ghost use Rattle.question_model.specs.{state};
ghost use Rattle.question_model.specs.States as told;
ghost use Rattle.weakest_pre.specs.Running.{Gives, most};

use crate::branch::Branch;
use crate::stop::Stop;
use easl_model::{Reach, Test};
use question_model::{Value, Write};
use std::alloc::Global;

/// The fields written so far, the newest first, and how many objects were made.
#[derive(Debug, Drop)]
pub struct Effects {
    pub writes: Vec<Write>,
    pub count: u32,
}

impl Effects {
    ghost use Rattle.std.specs.Prelude.{◌≡◌, []};

    pub fn none(alloc: Global) -> Effects
        ensures writes { result.writes.items ≡ [] }
        ensures count { result.count ≡ 0 }
    {
        Effects {
            writes: Vec::new(alloc),
            count: 0,
        }
    }
}

impl Branch<'_> {
    /// What the path leads to.
    pub fn reached(&self, slots: &[Value], effects: &Effects, path: &Reach) -> Result<Value, Stop>
        ensures { Gives (told.reached self.now.spec.now most self.now.answers.now
            (state slots.now effects.now.writes.items effects.now.count) path.now) result }
    {
        let writes = effects.writes.as_slice();
        match slots.get(path.slot as usize) {
            Some(object) => self.led(writes, object, path.fields.as_slice()),
            None => self.led(writes, &Value::Nothing, path.fields.as_slice()),
        }
    }

    /// Whether two paths lead to one object.
    fn compared(
        &self,
        slots: &[Value],
        effects: &Effects,
        left: &Reach,
        right: &Reach,
    ) -> Result<bool, Stop>
        ensures { Gives (told.compared self.now.spec.now most self.now.answers.now
            (state slots.now effects.now.writes.items effects.now.count) left.now right.now) result }
    {
        let left = self.reached(slots, effects, left)?;
        let right = self.reached(slots, effects, right)?;
        self.are_same(&left, &right)
    }

    /// Whether the condition is true, asked from left to right up to where this is known.
    #[cycle(condition)]
    pub fn holds(&self, slots: &[Value], effects: &Effects, test: &Test) -> Result<bool, Stop>
        ensures { Gives (told.holds self.now.spec.now most self.now.answers.now
            (state slots.now effects.now.writes.items effects.now.count) (condition_of test.now)) result }
    {
        match test {
            Test::Same(left, right) => self.compared(slots, effects, left, right),
            Test::Differ(left, right) => Ok(!self.compared(slots, effects, left, right)?),
            Test::All(tests) => self.all_hold(slots, effects, tests.as_slice()),
            Test::Any(tests) => self.any_holds(slots, effects, tests.as_slice()),
        }
    }

    #[cycle(condition)]
    fn all_hold(&self, slots: &[Value], effects: &Effects, tests: &[Test]) -> Result<bool, Stop>
        ensures { Gives (told.all_hold self.now.spec.now most self.now.answers.now
            (state slots.now effects.now.writes.items effects.now.count) (conditions (map condition_of tests.now))) result }
    {
        'each: for test in tests {
            if !self.holds(slots, effects, test)? {
                return Ok(false);
            }
        }
        Ok(true)
    }

    #[cycle(condition)]
    fn any_holds(&self, slots: &[Value], effects: &Effects, tests: &[Test]) -> Result<bool, Stop>
        ensures { Gives (told.any_holds self.now.spec.now most self.now.answers.now
            (state slots.now effects.now.writes.items effects.now.count) (conditions (map condition_of tests.now))) result }
    {
        'each: for test in tests {
            if self.holds(slots, effects, test)? {
                return Ok(true);
            }
        }
        Ok(false)
    }
}
