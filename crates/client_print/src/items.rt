//! The lines of statics and procedures, and the whole client.
ghost use Rattle.std.specs.Prelude.{◌≡◌, drop, IfOk, OnOk};
ghost use Rattle.cv_layout.specs.Page.{after_lines};
ghost use Rattle.client_print.specs.Lines as lines;

use crate::statements::block;
use crate::values::set;
use client_model::{Client, Proc, Static};
use cv_layout::Page;
use easl_model::Key;
use easl_print::{begin, close, params, sort};
use std::alloc::{AllocError, Global};

/// How deep a line stands that holds a statement of a procedure.
const WITHIN_BODY: u32 = 1;

/// The client in the canonical layout. `AllocError` where there is no memory left.
#[tactic(auto, using(cv_layout::proofs::After::laid_out))]
pub fn print_client(alloc: Global, client: &Client) -> Result<Vec<u8>, AllocError>
    ensures { IfOk result (λ v. v.items ≡ lines.client_text client.now) }
{
    let mut page = Page::new(alloc);
    items(
        &mut page,
        client.order.as_slice(),
        client.statics.as_slice(),
        client.procedures.as_slice(),
    )?;
    Ok(page.text.0)
}

/// The items in text order.
#[tactic(auto, using(std::proofs::lemmas::List::drop_more, cv_layout::proofs::After::lines_append))]
fn items(
    page: &mut Page,
    order: &[bool],
    statics: &[Static],
    procedures: &[Proc],
) -> Result<(), AllocError>
    ensures { OnOk result (page.new ≡ after_lines page.old (lines.item_lines order.now statics.now procedures.now)) }
{
    let mut left_statics = statics;
    let mut left_procedures = procedures;
    'each: for is_static in order {
        if *is_static {
            left_statics = first_static(page, left_statics)?;
        } else {
            left_procedures = first_procedure(page, left_procedures)?;
        }
    }
    Ok(())
}

/// Puts the first of these, if there is one, and gives the others.
fn first_static<'a>(page: &mut Page, statics: &'a [Static]) -> Result<&'a [Static], AllocError>
    ensures rest { IfOk result (λ rest. rest.now ≡ drop 1 statics.now) }
    ensures lines { OnOk result (page.new ≡ after_lines page.old (lines.first_static statics.now)) }
{
    match statics.split_first() {
        None => Ok(statics),
        Some((first, rest)) => {
            static_line(page, first)?;
            Ok(rest)
        }
    }
}

/// Puts the first of these, if there is one, and gives the others.
fn first_procedure<'a>(page: &mut Page, procedures: &'a [Proc]) -> Result<&'a [Proc], AllocError>
    ensures rest { IfOk result (λ rest. rest.now ≡ drop 1 procedures.now) }
    ensures lines { OnOk result (page.new ≡ after_lines page.old (lines.first_procedure procedures.now)) }
{
    match procedures.split_first() {
        None => Ok(procedures),
        Some((first, rest)) => {
            procedure(page, first)?;
            Ok(rest)
        }
    }
}

#[tactic(auto, using(cv_layout::proofs::After::after_append))]
fn static_line(page: &mut Page, item: &Static) -> Result<(), AllocError>
    ensures { OnOk result (page.new ≡ after_lines page.old (lines.static_line item.now)) }
{
    page.start(0)?;
    page.key(Key::Static)?;
    sort(page, &item.sort)?;
    page.word(&item.name.name)?;
    set(page, &item.value)?;
    page.end()
}

#[tactic(auto, using(cv_layout::proofs::After::after_append, cv_layout::proofs::After::lines_append))]
fn procedure(page: &mut Page, item: &Proc) -> Result<(), AllocError>
    ensures { OnOk result (page.new ≡ after_lines page.old (lines.procedure_lines item.now)) }
{
    page.start(0)?;
    sort(page, &item.result)?;
    page.word(&item.name.name)?;
    params(page, item.params.as_slice())?;
    begin(page)?;
    block(page, WITHIN_BODY, item.body.as_slice())?;
    close(page, 0)
}
