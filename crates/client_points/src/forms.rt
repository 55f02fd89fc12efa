//! The forms of procedures, of the start and of the statics.
ghost use Rattle.std.specs.Prelude.{◌≡◌, ◌++◌, ◌∷◌, [], IfOk, filter_map, length, map, suc};
ghost use Rattle.client_model.specs.Nodes.{tree_of, trees};
ghost use Rattle.client_points.specs.Wholes.{unset_seen, without_set};
ghost use Rattle.client_points.specs.Writing.{initial_of};
ghost use Rattle.client_model.specs.Bodies.{Body, all_in};
ghost use Rattle.client_model.specs.Checked.{procedure_seen};
ghost use Rattle.client_model.specs.CheckedForm as told;
ghost use Rattle.client_model.specs.Points.{declared_at, point_of};
ghost use Rattle.client_model.specs.Settings.{class_in};
ghost use Rattle.client_model.specs.Trees as trees;
ghost use Rattle.easl_model.specs.Form.{Form};

use crate::shape::shape_of;
use client_model::{Node, Point, Proc, Procedure};
use client_values::{Variable, class_in, is_main, kind_of};
use easl_model::{CheckedSpec, Name, Param};
use set_names::SetNames;
use sqlite_items::Items;
use std::alloc::{AllocError, Global};

/// The classes of parameters, None for an opaque one.
pub fn classes_of(
    alloc: Global,
    spec: &CheckedSpec,
    params: &[Param],
) -> Result<Items<Option<u32>>, AllocError>
    ensures { IfOk result (λ classes. classes ≡ told.classes_of spec.now params.now) }
{
    let mut classes = Items::new(alloc);
    'each: for param in params {
        classes.push(class_in(kind_of(spec, &param.sort)))?;
    }
    Ok(classes)
}

/// The classes of statics, None for an opaque one.
pub fn statics_form(alloc: Global, statics: &[Variable]) -> Result<Items<Option<u32>>, AllocError>
    ensures { IfOk result (λ classes. classes ≡ map (λ v. class_in v.kind) statics.now) }
{
    let mut classes = Items::new(alloc);
    'each: for variable in statics {
        classes.push(class_in(variable.kind))?;
    }
    Ok(classes)
}

/// The form of a procedure whose body comes to these points and, behind its parameters, variables, and at whose points these
/// names are set.
pub fn procedure_form(
    alloc: Global,
    spec: &CheckedSpec,
    procedure: &Proc,
    points: Items<Point>,
    variables: Items<Option<u32>>,
    set: SetNames,
) -> Result<Procedure, AllocError>
    ensures form { IfOk result (λ form. (b : Body) → b.statements ≡ (trees.procedure_of procedure.now).body
        → points ≡ map point_of (all_in b) → variables ≡ told.classes_of spec.now procedure.now.params ++ filter_map declared_at (all_in b)
        → unset_seen form ≡ without_set (told.procedure_form spec.now b (trees.procedure_of procedure.now))) }
    ensures set { IfOk result (λ form. form.set ≡ set) }
{
    Ok(Procedure {
        name: Name(String::from_str(alloc, procedure.name.name.0.as_str())?),
        params: classes_of(alloc, spec, procedure.params.as_slice())?,
        result: class_in(kind_of(spec, &procedure.result)),
        variables,
        points,
        shape: shape_of(alloc, procedure.body.as_slice(), 0)?,
        set,
    })
}

/// The number of the procedure behind so many. Numbers that run out are want of memory.
fn number_behind(procedures: usize) -> Result<u32, AllocError>
    ensures { IfOk result (λ number. number ≡ suc procedures) }
{
    match u32::try_from(procedures) {
        Ok(before) => before.checked_add(1).ok_or(AllocError),
        Err(_) => Err(AllocError),
    }
}

/// The call of `main`, the first of these procedures that is so named.
fn call_of_main(alloc: Global, procedures: &[Proc]) -> Result<Point, AllocError>
    ensures { IfOk result (λ point. point ≡ told.call_of_main 1 (map trees.procedure_of procedures.now)) }
{
    'each: for at in 0..procedures.len() {
        let procedure = &procedures[at];
        if is_main(procedure) {
            let number = number_behind(at)?;
            return Ok(Point::Call(None, number, Items::new(alloc), procedure.name.place));
        }
    }
    Ok(Point::Nothing)
}

/// So many steps.
fn steps(alloc: Global, count: u32) -> Result<Items<Node>, AllocError>
    ensures { IfOk result (λ nodes. trees (map tree_of nodes) ≡ told.steps_from 0 count) }
{
    let mut nodes = Items::new(alloc);
    'each: for point in 0..count {
        nodes.push(Node::Step(point))?;
    }
    Ok(nodes)
}

/// How many points these are. Numbers that run out are want of memory.
fn count_of(points: &[Point]) -> Result<u32, AllocError>
    ensures { IfOk result (λ count. count ≡ length points.now) }
{
    match u32::try_from(points.len()) {
        Ok(count) => Ok(count),
        Err(_) => Err(AllocError),
    }
}

/// The start of a client with these procedures: the points of its initialisers, and then the call of `main`.
pub fn start_form(
    alloc: Global,
    procedures: &[Proc],
    initial: Items<Point>,
) -> Result<Procedure, AllocError>
    ensures { IfOk result (λ start. (form : Form) (client : trees.Client) → map trees.procedure_of procedures.now ≡ trees.procedures_in client.items
        → initial ≡ map point_of (initial_of form client) → procedure_seen start ≡ told.start_form form client) }
{
    let mut points = initial;
    let statics = count_of(points.as_slice())?;
    let count = statics.checked_add(1).ok_or(AllocError)?;
    points.push(call_of_main(alloc, procedures)?)?;
    Ok(Procedure {
        name: Name(String::from_str(alloc, "start")?),
        params: Items::new(alloc),
        result: None,
        variables: Items::new(alloc),
        points,
        shape: steps(alloc, count)?,
        set: SetNames::of_start(alloc, statics),
    })
}
