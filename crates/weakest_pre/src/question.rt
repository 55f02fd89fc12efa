//! Questions, executed with the answers so far.
ghost use Rattle.std.specs.Prelude.{◌≡◌, ◌==◌, ◌%◌, ◌≤◌, ◌++◌, IfOk, OnOk, if◌then◌else◌, length, slice_get};
ghost use Rattle.easl_model.specs.{MethodInRange, MethodKeepsLimits, condition_of};
ghost use Rattle.question_model.specs.Questions as told;
ghost use Rattle.weakest_pre.specs.Running.{Gives, most};

use crate::body::push;
use crate::branch::Branch;
use crate::condition::Effects;
use crate::stop::Stop;
use access_paths::{Family, Literal, Term};
use easl_model::{Method, Test};
use question_model::{Value, Write};
use std::alloc::{AllocError, Global};

/// The value of the variable of this number before the call.
fn variable(alloc: Global, number: u8, class: Option<u32>) -> Value
    ensures { result ≡ told.variable number class }
{
    match class {
        Some(class) => Value::Before(class, Term::variable(alloc, number)),
        None => Value::Nothing,
    }
}

/// Adds the values of the parameters, which are numbered from 4 on.
fn add_parameters(
    alloc: Global,
    values: &mut Vec<Value>,
    params: &[Option<u32>],
) -> Result<(), AllocError>
    requires { length params.now ≤ 4 }
    ensures { OnOk result (values.new.items ≡ values.old.items ++ told.variables 4 params.now) }
{
    let mut number: u8 = 4;
    'each: for class in params {
        push(values, variable(alloc, number, *class))?;
        number += 1;
    }
    Ok(())
}

/// The values on which a method is called.
fn arguments_of(alloc: Global, method: &Method) -> Result<Vec<Value>, AllocError>
    requires { length method.now.params ≤ 4 }
    ensures { IfOk result (λ v. v.items ≡ told.arguments_of method.now) }
{
    let mut values = Vec::new(alloc);
    if !method.constructor {
        push(&mut values, variable(alloc, 3, Some(method.class)))?;
    }
    add_parameters(alloc, &mut values, method.params.as_slice())?;
    Ok(values)
}

/// The value of a variable of the family after the call: the result's where its bit is set.
fn family_value(
    alloc: Global,
    family: &Family,
    bits: u32,
    given: &Value,
    number: u8,
) -> Result<Value, AllocError>
    ensures { IfOk result (λ v. v ≡ (if bits % 2 == 1 then given.now
        else told.variable number (slice_get family.now.classes number))) }
{
    if bits % 2 == 1 {
        return given.twin(alloc);
    }
    let class = family.classes.as_slice().get(number as usize).copied();
    Ok(variable(alloc, number, class))
}

/// The values of the family's variables after the call.
fn after_call(
    alloc: Global,
    family: &Family,
    results: u32,
    given: &Value,
) -> Result<Vec<Value>, AllocError>
    ensures { IfOk result (λ v. v.items ≡ told.after_call family.now results given.now) }
{
    let mut values = Vec::new(alloc);
    push(&mut values, family_value(alloc, family, results, given, 0)?)?;
    push(
        &mut values,
        family_value(alloc, family, results / 2, given, 1)?,
    )?;
    push(
        &mut values,
        family_value(alloc, family, results / 2 / 2, given, 2)?,
    )?;
    Ok(values)
}

impl Branch<'_> {
    /// What a term leads to after the writes, from the values of the variables.
    fn term_after(&self, writes: &[Write], variables: &[Value], term: &Term) -> Result<Value, Stop>
        ensures { Gives (told.term_after self.now.spec.now most self.now.answers.now writes.now variables.now term.now) result }
    {
        match variables.get(term.var.0 as usize) {
            Some(value) => self.led(writes, value, term.fields.as_slice()),
            None => self.led(writes, &Value::Nothing, term.fields.as_slice()),
        }
    }

    fn literal_after(
        &self,
        writes: &[Write],
        variables: &[Value],
        literal: &Literal,
    ) -> Result<bool, Stop>
        ensures { Gives (told.literal_after self.now.spec.now most self.now.answers.now writes.now variables.now literal.now) result }
    {
        let less = self.term_after(writes, variables, &literal.less)?;
        let more = self.term_after(writes, variables, &literal.more)?;
        let same = self.are_same(&less, &more)?;
        Ok(if literal.same { same } else { !same })
    }

    /// Whether all literals are true, in their order, up to the first one that is false.
    fn cube_after(
        &self,
        writes: &[Write],
        variables: &[Value],
        literals: &[Literal],
    ) -> Result<bool, Stop>
        ensures { Gives (told.cube_after self.now.spec.now most self.now.answers.now writes.now variables.now literals.now) result }
    {
        'each: for literal in literals {
            if !self.literal_after(writes, variables, literal)? {
                return Ok(false);
            }
        }
        Ok(true)
    }

    /// Whether the family's cube is true after the method's body.
    pub fn update(&self, method: &Method, family: &Family, results: u32) -> Result<bool, Stop>
        requires range { MethodInRange (length self.now.spec.now.classes) method.now }
        requires limits { MethodKeepsLimits self.now.spec.now method.now }
        ensures { Gives (told.update self.now.spec.now most self.now.answers.now method.now family.now results) result }
    {
        let mut effects = Effects::none(self.alloc);
        let args = arguments_of(self.alloc, method)?;
        let given = self.called(method, args, &mut effects)?;
        let variables = after_call(self.alloc, family, results, &given)?;
        let writes = effects.writes.as_slice();
        let literals = family.cube.literals.as_slice();
        self.cube_after(writes, variables.as_slice(), literals)
    }

    /// Whether the clause is false before the call.
    pub fn fails(&self, method: &Method, clause: &Test) -> Result<bool, Stop>
        requires { MethodInRange (length self.now.spec.now.classes) method.now }
        ensures { Gives (told.fails self.now.spec.now most self.now.answers.now method.now (condition_of clause.now)) result }
    {
        let slots = arguments_of(self.alloc, method)?;
        let held = self.holds(slots.as_slice(), &Effects::none(self.alloc), clause)?;
        Ok(!held)
    }
}
