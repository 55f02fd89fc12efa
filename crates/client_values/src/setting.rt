//! What stands around a statement, and what names stand for there.
ghost use Rattle.std.specs.Prelude.{◌≡◌, IfOk};
ghost use Rattle.client_model.specs.Codes as codes;

use crate::headers::Headers;
use crate::kind::Kind;
use crate::scope::Scope;
use easl_model::CheckedSpec;
use std::alloc::AllocError;
use std::marker::Model;

/// What stands around a statement: the specification, the statics and the headers of the procedures in text order, and the
/// number and the result of the procedure that holds the statement.
#[derive(Drop)]
pub struct Setting<'a> {
    pub spec: &'a CheckedSpec,
    pub statics: &'a Scope,
    pub procedures: &'a Headers,
    pub procedure: u32,
    pub result: Kind,
}

impl<'a> Model for Setting<'a> {
    ghost use Rattle.client_values.specs.ToldKinds.{kind_told};
    ghost use Rattle.client_model.specs.Settings as told;
    ghost use Rattle.easl_model.specs.contracts.form.Act as act;
    ghost use Rattle.easl_model.specs.contracts.form.Test as test;
    ghost use Rattle.std.specs.Coded.{codes};

    ghost Value = { told.Setting };

    ghost coded = { Prim.hlevel (codes, act.the_row.coded, test.the_row.coded) };

    ghost view = { λ s. record {
      form = s.spec.now;
      statics = s.statics.now;
      procedures = s.procedures.now;
      procedure = s.procedure;
      result = kind_told s.result;
    } };
}

/// The code of the variable of this number. Codes that run out are want of memory.
pub fn variable_code(number: u32) -> Result<u32, AllocError>
    ensures { IfOk result (λ code. code ≡ codes.variable_code number) }
{
    if number >= u32::MAX / 4 {
        return Err(AllocError);
    }
    Ok(4 * number + 1)
}
