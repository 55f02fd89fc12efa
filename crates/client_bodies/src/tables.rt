//! The statics of a client and the headers of its procedures, by number.
ghost use Rattle.std.specs.Prelude.{◌≡◌, ◌∷◌, Bool, List, IfOk, OnOk, false, map, true};
ghost use Rattle.client_bodies.specs.InTextOrder.{headers_in_end, statics_in_end};
ghost use Rattle.client_model.specs.Codes as codes;
ghost use Rattle.client_model.specs.Settings as told;
ghost use Rattle.client_model.specs.Trees.{client_of, procedure_of, procedures_in, statics_in};
ghost use Rattle.client_values.specs.ToldKinds.{kind_told};

use client_model::{Client, Proc, Static};
use client_values::{Header, Headers, Kind, Scope, Variable, kind_of};
use easl_model::{CheckedSpec, Name, Param};
use sqlite_items::Items;
use std::alloc::{AllocError, Global};

/// The statics, and the headers of the procedures, in text order.
#[derive(Drop)]
pub(crate) struct Tables {
    pub(crate) statics: Scope,
    pub(crate) procedures: Headers,
}

fn copy_of(alloc: Global, name: &Name) -> Result<Name, AllocError>
    ensures { IfOk result (λ copy. copy ≡ name.now) }
{
    Ok(Name(String::from_str(alloc, name.0.as_str())?))
}

/// The variable of this name, kind and code.
pub(crate) fn variable_as(
    alloc: Global,
    name: &Name,
    kind: Kind,
    code: u32,
) -> Result<Variable, AllocError>
    ensures { IfOk result (λ v. v ≡ record { name = name.now; kind = kind_told kind; code = code }) }
{
    let name = copy_of(alloc, name)?;
    Ok(Variable { name, kind, code })
}

/// The code of the static of this number. Codes that run out are want of memory.
fn static_code(number: usize) -> Result<u32, AllocError>
    ensures { IfOk result (λ code. code ≡ codes.static_code number) }
{
    match u32::try_from(number) {
        Ok(number) => number.checked_mul(4).ok_or(AllocError),
        Err(_) => Err(AllocError),
    }
}

/// The static of this number.
fn static_as(
    alloc: Global,
    spec: &CheckedSpec,
    number: usize,
    x: &Static,
) -> Result<Variable, AllocError>
    ensures { IfOk result (λ v. v ≡ record { name = x.now.name.name; kind = told.kind_of spec.now x.now.sort; code = codes.static_code number }) }
{
    let kind = kind_of(spec, &x.sort);
    let code = static_code(number)?;
    variable_as(alloc, &x.name.name, kind, code)
}

/// What these parameters are.
fn kinds_of(alloc: Global, spec: &CheckedSpec, params: &[Param]) -> Result<Items<Kind>, AllocError>
    ensures { IfOk result (λ kinds. map kind_told kinds ≡ map (λ p. told.kind_of spec.now p.sort) params.now) }
{
    let mut kinds = Items::new(alloc);
    'each: for param in params {
        kinds.push(kind_of(spec, &param.sort))?;
    }
    Ok(kinds)
}

fn header_of(alloc: Global, spec: &CheckedSpec, procedure: &Proc) -> Result<Header, AllocError>
    ensures { IfOk result (λ header. header ≡ told.header_of spec.now (procedure_of procedure.now)) }
{
    let name = copy_of(alloc, &procedure.name.name)?;
    let params = kinds_of(alloc, spec, procedure.params.as_slice())?;
    let result = kind_of(spec, &procedure.result);
    Ok(Header {
        name,
        params,
        result,
    })
}

/// Adds the next static, where there is one.
fn add_static(
    alloc: Global,
    spec: &CheckedSpec,
    client: &Client,
    tables: &mut Tables,
) -> Result<(), AllocError>
    ensures statics { OnOk result ((order : List Bool)
        → statics_in_end spec.now client.now tables.new order ≡ statics_in_end spec.now client.now tables.old (true ∷ order)) }
    ensures headers { OnOk result ((order : List Bool)
        → headers_in_end spec.now client.now tables.new order ≡ headers_in_end spec.now client.now tables.old (true ∷ order)) }
{
    let number = tables.statics.len();
    match client.statics.get(number) {
        Some(x) => {
            let variable = static_as(alloc, spec, number, x)?;
            tables.statics.push(variable)?;
            Ok(())
        }
        None => Ok(()),
    }
}

/// Adds the header of the next procedure, where there is one.
fn add_header(
    alloc: Global,
    spec: &CheckedSpec,
    client: &Client,
    tables: &mut Tables,
) -> Result<(), AllocError>
    ensures statics { OnOk result ((order : List Bool)
        → statics_in_end spec.now client.now tables.new order ≡ statics_in_end spec.now client.now tables.old (false ∷ order)) }
    ensures headers { OnOk result ((order : List Bool)
        → headers_in_end spec.now client.now tables.new order ≡ headers_in_end spec.now client.now tables.old (false ∷ order)) }
{
    match client.procedures.get(tables.procedures.len()) {
        Some(procedure) => {
            let header = header_of(alloc, spec, procedure)?;
            tables.procedures.push(header)?;
            Ok(())
        }
        None => Ok(()),
    }
}

/// Adds the next item.
fn add_item(
    alloc: Global,
    spec: &CheckedSpec,
    client: &Client,
    is_static: bool,
    tables: &mut Tables,
) -> Result<(), AllocError>
    ensures statics { OnOk result ((order : List Bool)
        → statics_in_end spec.now client.now tables.new order ≡ statics_in_end spec.now client.now tables.old (is_static ∷ order)) }
    ensures headers { OnOk result ((order : List Bool)
        → headers_in_end spec.now client.now tables.new order ≡ headers_in_end spec.now client.now tables.old (is_static ∷ order)) }
{
    if is_static {
        add_static(alloc, spec, client, tables)
    } else {
        add_header(alloc, spec, client, tables)
    }
}

/// Those of a client.
pub(crate) fn tables_of(
    alloc: Global,
    spec: &CheckedSpec,
    client: &Client,
) -> Result<Tables, AllocError>
    ensures statics { IfOk result (λ t. t.statics ≡ told.statics_from spec.now 0 (statics_in (client_of client.now).items)) }
    ensures headers { IfOk result (λ t. t.procedures ≡ map (told.header_of spec.now) (procedures_in (client_of client.now).items)) }
{
    let mut tables = Tables {
        statics: Scope::new(alloc),
        procedures: Headers::new(alloc),
    };
    'each: for is_static in client.order.as_slice() {
        add_item(alloc, spec, client, *is_static, &mut tables)?;
    }
    Ok(tables)
}
