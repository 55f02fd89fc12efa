//! The lines of clauses, members and classes, and the whole specification.
ghost use Rattle.std.specs.Prelude.{◌≡◌, Some, IfOk, OnOk};
ghost use Rattle.cv_layout.specs.{after, after_lines, put};
ghost use Rattle.easl_model.specs.Grammar as grammar;
ghost use Rattle.easl_model.specs.declared.tree.Member.TheVariants as member;
ghost use Rattle.easl_print.specs.Lines as lines;

use crate::braces::{begin, close};
use crate::conditions::condition;
use crate::lists::{OnLines, each};
use crate::paths::value;
use crate::steps::block;
use crate::types::{params, sort};
use cv_layout::Page;
use easl_model::{
    Class, Code, Field, Key, Mark, Member, Opaque, Param, Requires, Return, Sort, Spec,
};
use std::alloc::{AllocError, Global};

/// How deep a line stands that holds a clause or a step, and one that holds a member.
const WITHIN_BODY: u32 = 2;

const WITHIN_CLASS: u32 = 1;

impl OnLines for Requires {
    ghost lines = { lines.clause_line 2 };

    fn put_lines(&self, page: &mut Page) -> Result<(), AllocError> {
        clause(page, self)
    }
}

#[tactic(auto, using(cv_layout::proofs::After::after_append))]
fn clause(page: &mut Page, clause: &Requires) -> Result<(), AllocError>
    ensures { OnOk result (page.new ≡ after_lines page.old (lines.clause_line 2 clause.now)) }
{
    page.start(WITHIN_BODY)?;
    page.key(Key::Requires)?;
    condition(page, &clause.condition)?;
    page.mark(Mark::Semicolon)?;
    page.end()
}

fn returned(page: &mut Page, value: &Option<Return>) -> Result<(), AllocError>
    ensures { OnOk result (page.new ≡ after_lines page.old (lines.return_line 2 value.now)) }
{
    match value {
        None => Ok(()),
        Some(source) => return_line(page, source),
    }
}

#[tactic(auto, using(cv_layout::proofs::After::after_append))]
fn return_line(page: &mut Page, source: &Return) -> Result<(), AllocError>
    ensures { OnOk result (page.new ≡ after_lines page.old (lines.return_line 2 (Some source.now))) }
{
    page.start(WITHIN_BODY)?;
    page.key(Key::Return)?;
    value(page, &source.value)?;
    page.mark(Mark::Semicolon)?;
    page.end()
}

#[tactic(auto, using(cv_layout::proofs::After::lines_append))]
fn body(page: &mut Page, code: &Code) -> Result<(), AllocError>
    ensures { OnOk result (page.new ≡ after_lines page.old (lines.body_lines 2 code.now)) }
{
    each(page, code.clauses.as_slice())?;
    block(page, WITHIN_BODY, code.body.as_slice())?;
    returned(page, &code.value)
}

impl OnLines for Member {
    ghost lines = { lines.member_lines 1 };

    fn put_lines(&self, page: &mut Page) -> Result<(), AllocError> {
        match self {
            Member::Field(field) => field_line(page, field),
            Member::Constructor(code) => constructor(page, code),
            Member::Method(code) => method(page, code),
        }
    }
}

fn field_line(page: &mut Page, field: &Field) -> Result<(), AllocError>
    ensures { OnOk result (page.new ≡ after_lines page.old (lines.member_lines 1 (member.Field field.now))) }
{
    page.start(WITHIN_CLASS)?;
    page.word(&field.class.name)?;
    page.word(&field.name.name)?;
    page.mark(Mark::Semicolon)?;
    page.end()
}

#[tactic(auto, using(cv_layout::proofs::After::after_append, cv_layout::proofs::After::lines_append))]
fn constructor(page: &mut Page, code: &Code) -> Result<(), AllocError>
    ensures { OnOk result (page.new ≡ after_lines page.old (lines.member_lines 1 (member.Constructor code.now))) }
{
    page.start(WITHIN_CLASS)?;
    page.word(&code.name.name)?;
    params(page, code.params.as_slice())?;
    begin(page)?;
    body(page, code)?;
    close(page, WITHIN_CLASS)
}

#[tactic(auto, using(cv_layout::proofs::After::after_append, cv_layout::proofs::After::lines_append))]
fn method(page: &mut Page, code: &Code) -> Result<(), AllocError>
    ensures { OnOk result (page.new ≡ after_lines page.old (lines.member_lines 1 (member.Method code.now))) }
{
    page.start(WITHIN_CLASS)?;
    sort(page, &code.result)?;
    page.word(&code.name.name)?;
    params(page, code.params.as_slice())?;
    begin(page)?;
    body(page, code)?;
    close(page, WITHIN_CLASS)
}

impl OnLines for Class {
    ghost lines = { lines.class_lines 0 };

    fn put_lines(&self, page: &mut Page) -> Result<(), AllocError> {
        class(page, self)
    }
}

#[tactic(auto, using(cv_layout::proofs::After::lines_append))]
fn class(page: &mut Page, class: &Class) -> Result<(), AllocError>
    ensures { OnOk result (page.new ≡ after_lines page.old (lines.class_lines 0 class.now)) }
{
    page.start(0)?;
    page.key(Key::Class)?;
    page.word(&class.name.name)?;
    begin(page)?;
    each(page, class.members.as_slice())?;
    close(page, 0)
}

/// The specification in the canonical layout. `AllocError` where there is no memory left.
#[tactic(auto, using(cv_layout::proofs::After::laid_out))]
pub fn print_spec(alloc: Global, spec: &Spec) -> Result<Vec<u8>, AllocError>
    ensures { IfOk result (λ v. v.items ≡ lines.spec_text spec.now) }
{
    let mut page = Page::new(alloc);
    each(&mut page, spec.classes.as_slice())?;
    Ok(page.text.0)
}
