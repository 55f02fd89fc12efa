//! The lines that name a clause, and the line of a run that ends.
ghost use Rattle.std.specs.Prelude.{◌≡◌, ◌<◌, ◌++◌, IfOk, OnOk, encode_utf8_all, length};
ghost use Rattle.canvas_cli.specs.Texts.{alarm_text, clause_text, ends_text, fails_text, method_text};
ghost use Rattle.canvas_cli.specs.Verdicts.{NamesClause};
ghost use Rattle.client_model.specs.Checked.{IsFitting};

use crate::refusal::push_place;
use client_model::CheckedClient;
use cv_base::{Memory, push_bytes, push_number};
use easl_model::{CheckedSpec, Method, Name, Place};
use std::alloc::Global;

/// The line of an alarm at the clause, and of its path, which takes no test.
pub(crate) fn alarm_lines(alloc: Global, clause: &[u8]) -> Result<Vec<u8>, Memory>
    ensures { IfOk result (λ v. v.items ≡ alarm_text clause.now) }
{
    let mut out = Vec::new(alloc);
    push_bytes(&mut out, b"alarm ")?;
    push_bytes(&mut out, clause)?;
    push_bytes(&mut out, b"\n0 main:\n")?;
    Ok(out)
}

/// The line of a run that ends with so many choices not taken.
pub(crate) fn ends_line(alloc: Global, left: u64) -> Result<Vec<u8>, Memory>
    ensures { IfOk result (λ v. v.items ≡ ends_text left) }
{
    let mut out = Vec::new(alloc);
    push_bytes(&mut out, b"ends, ")?;
    push_number(&mut out, left)?;
    push_bytes(&mut out, b" left\n")?;
    Ok(out)
}

/// The line of a run that fails at the clause with so many choices not taken.
pub(crate) fn fails_line(alloc: Global, clause: &[u8], left: u64) -> Result<Vec<u8>, Memory>
    ensures { IfOk result (λ v. v.items ≡ fails_text clause.now left) }
{
    let mut out = Vec::new(alloc);
    push_bytes(&mut out, b"fails ")?;
    push_bytes(&mut out, clause)?;
    push_bytes(&mut out, b", ")?;
    push_number(&mut out, left)?;
    push_bytes(&mut out, b" left\n")?;
    Ok(out)
}

/// The text of a clause of the method of this call.
#[tactic(auto, using(crate::proofs::Seen::method_there))]
pub(crate) fn clause_of(
    alloc: Global,
    spec: &CheckedSpec,
    client: &CheckedClient,
    call: u32,
    clause: u32,
) -> Result<Vec<u8>, Memory>
    requires fits { IsFitting spec.now client.now }
    requires within { call < length client.now.calls }
    ensures { IfOk result (λ v. NamesClause spec.now client.now.calls call clause v.items) }
{
    spec.is_kept();
    let site = client.call(call);
    let method = spec.method(site.method);
    let class = spec.class_name(method.class);
    clause_line(alloc, site.place, class, method, clause)
}

/// The text of a clause of the call at this place, of a class's method.
fn clause_line(
    alloc: Global,
    place: Place,
    class: &Name,
    method: &Method,
    clause: u32,
) -> Result<Vec<u8>, Memory>
    ensures { IfOk result (λ v. v.items ≡ clause_text place class.now method.now clause) }
{
    let mut out = Vec::new(alloc);
    push_place(&mut out, place)?;
    push_bytes(&mut out, b" ")?;
    push_method(&mut out, class, method)?;
    push_bytes(&mut out, b" ")?;
    push_number(&mut out, u64::from(clause))?;
    Ok(out)
}

/// A method or constructor of the class of this name.
pub(crate) fn push_method(out: &mut Vec<u8>, class: &Name, method: &Method) -> Result<(), Memory>
    ensures { OnOk result (out.new.items ≡ out.old.items ++ method_text class.now method.now) }
{
    push_name(out, class)?;
    push_bytes(out, b".")?;
    if method.constructor {
        push_bytes(out, b"new")
    } else {
        push_name(out, &method.name)
    }
}

#[tactic(auto, using(crate::proofs::Names::spelled))]
fn push_name(out: &mut Vec<u8>, name: &Name) -> Result<(), Memory>
    ensures { OnOk result (out.new.items ≡ out.old.items ++ encode_utf8_all name.now) }
{
    push_bytes(out, name.0.as_str().as_bytes())
}
