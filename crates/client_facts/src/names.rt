//! The names of a client by their classes.
ghost use Rattle.std.specs.Prelude.{◌≡◌, ◌<◌, ℕ, Some, IfOk, OnOk, length};
ghost use Rattle.client_facts.specs.Held as held;
ghost use Rattle.client_facts.specs.NameLists.{AreListed, AreNamesOf, IsListed, at_class, lists_in, of_procedure, tables_in};
ghost use Rattle.client_facts.specs.Setting.{variables_of};
ghost use Rattle.client_model.specs.Codes as codes;

use crate::setting::Setting;
use cv_base::Memory;
use std::alloc::{AllocError, Global};
use std::marker::Model;

/// The codes of a client's statics, and of the parameters and locals of each procedure, by class. Contracts see their lists.
#[derive(Debug, Drop)]
pub struct Names {
    /// By class.
    statics: Vec<Vec<u32>>,
    /// By procedure and class.
    variables: Vec<Vec<Vec<u32>>>,
}

impl Model for Names {
    ghost use Rattle.client_facts.specs.NameLists.{NameLists, lists_in, tables_in};

    ghost Value = { NameLists };

    ghost view = { λ n. record { statics = lists_in n.statics.items; variables = tables_in n.variables.items } };
}

impl Names {
    ghost use Rattle.client_facts.specs.NameLists.{statics_with, variables_with};

    /// The names of the setting's client. `Memory` where there is no memory left, and where codes run out.
    pub fn of(alloc: Global, setting: &Setting<'_>) -> Result<Names, Memory>
        ensures { IfOk result (λ names. AreNamesOf (held.setting setting.now) names) }
    {
        made(alloc, setting).map_err(|_| Memory)
    }

    /// The codes of the statics of this class.
    pub fn statics(&self, class: u32) -> &[u32]
        ensures { result.now ≡ statics_with self.now class }
    {
        listed(self.statics.as_slice(), class)
    }

    /// The codes of the procedure's parameters and locals of this class; none where there is no such procedure.
    pub fn variables(&self, procedure: u32, class: u32) -> &[u32]
        ensures { result.now ≡ variables_with self.now procedure class }
    {
        match self.variables.get(procedure as usize) {
            Some(lists) => listed(lists.as_slice(), class),
            None => &[],
        }
    }
}

/// The names of the setting's client. `AllocError` where there is no memory left, and where codes run out.
fn made(alloc: Global, setting: &Setting<'_>) -> Result<Names, AllocError>
    ensures { IfOk result (λ names. AreNamesOf (held.setting setting.now) names) }
{
    let statics = all_statics(alloc, setting)?;
    let variables = all_variables(alloc, setting)?;
    Ok(Names { statics, variables })
}

/// The codes at the class.
fn listed(lists: &[Vec<u32>], class: u32) -> &[u32]
    ensures { result.now ≡ at_class (lists_in lists.now) class }
{
    match lists.get(class as usize) {
        Some(codes) => codes.as_slice(),
        None => &[],
    }
}

/// The codes of the statics by class.
fn all_statics(alloc: Global, setting: &Setting<'_>) -> Result<Vec<Vec<u32>>, AllocError>
    ensures { IfOk result (λ lists.
        AreListed codes.static_code (held.setting setting.now).client.statics (lists_in lists.items)) }
{
    let client = setting.client();
    let mut lists = Vec::new(alloc);
    'each: for number in 0..client.static_count() {
        let code = static_code(number)?;
        add(alloc, &mut lists, client.static_class(number), code)?;
    }
    Ok(lists)
}

/// The codes of each procedure's parameters and locals, by procedure and class.
fn all_variables(alloc: Global, setting: &Setting<'_>) -> Result<Vec<Vec<Vec<u32>>>, AllocError>
    ensures { IfOk result (λ tables. (p : ℕ) →
        AreListed codes.variable_code (variables_of (held.setting setting.now) p) (of_procedure (tables_in tables.items) p)) }
{
    let mut tables = Vec::new(alloc);
    'each: for procedure in 0..setting.client().procedure_count() {
        let lists = variables_of(alloc, setting.variables(procedure))?;
        tables.push(lists)?;
    }
    Ok(tables)
}

/// The codes of parameters and locals of these classes, by class.
fn variables_of(alloc: Global, kinds: &[Option<u32>]) -> Result<Vec<Vec<u32>>, AllocError>
    ensures { IfOk result (λ lists. AreListed codes.variable_code kinds.now (lists_in lists.items)) }
{
    let mut lists = Vec::new(alloc);
    'each: for (number, kind) in kinds.iter().enumerate() {
        let code = variable_code(number)?;
        add(alloc, &mut lists, *kind, code)?;
    }
    Ok(lists)
}

/// The code of the static of this number. `AllocError` where codes run out.
fn static_code(number: u32) -> Result<u32, AllocError>
    ensures { IfOk result (λ code. code ≡ codes.static_code number) }
{
    number.checked_mul(4).ok_or(AllocError)
}

/// The code of the parameter or local of this number. `AllocError` where codes run out.
fn variable_code(number: usize) -> Result<u32, AllocError>
    ensures { IfOk result (λ code. code ≡ codes.variable_code number) }
{
    let number = u32::try_from(number).map_err(|_| AllocError)?;
    let code = number.checked_mul(4).ok_or(AllocError)?;
    code.checked_add(1).ok_or(AllocError)
}

/// Puts the code of a name behind those of its class, unless it is opaque.
fn add(
    alloc: Global,
    lists: &mut Vec<Vec<u32>>,
    kind: Option<u32>,
    code: u32,
) -> Result<(), AllocError>
    ensures { OnOk result (IsListed kind code (lists_in lists.old.items) (lists_in lists.new.items)) }
{
    let Some(class) = kind else {
        return Ok(());
    };
    reach(alloc, lists, class as usize)?;
    put(lists, class as usize, code)?;
    Ok(())
}

/// Makes lists up to this class, empty where they are new.
fn reach(alloc: Global, lists: &mut Vec<Vec<u32>>, class: usize) -> Result<(), AllocError>
    ensures there { OnOk result (class < length lists.new.items) }
    ensures same { OnOk result ((other : ℕ) →
        at_class (lists_in lists.new.items) other ≡ at_class (lists_in lists.old.items) other) }
{
    'each: while lists.len() <= class {
        lists.push(Vec::new(alloc))?;
    }
    Ok(())
}

/// Puts the code at the end of the list of the class.
fn put(lists: &mut Vec<Vec<u32>>, class: usize, code: u32) -> Result<(), AllocError>
    requires { class < length lists.old.items }
    ensures { OnOk result (IsListed (Some class) code (lists_in lists.old.items) (lists_in lists.new.items)) }
{
    lists[class].push(code)?;
    Ok(())
}
