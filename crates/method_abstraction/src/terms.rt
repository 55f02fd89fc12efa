//! The texts of terms, cubes and families.
ghost use Rattle.std.specs.Prelude.{◌≡◌, ◌<◌, ◌++◌, [], OnOk, codes, encode_utf8_all, slice_get, slice_index, unwrap_or};
ghost use Rattle.easl_model.specs.{field_names_of, fields_of};
ghost use Rattle.method_abstraction.specs.{class_name_of, cube_text, families_text, family_name, family_text, fields_text, joined, literal_text, term_text};
ghost use Rattle.method_abstraction.specs.{variable_text, variables_text};

use access_paths::{Family, Literal, Term};
use cv_base::{Memory, push_bytes, push_number};
use easl_model::{CheckedSpec, Name};

#[tactic(auto, using(crate::proofs::Names::spelled))]
pub(crate) fn push_name(out: &mut Vec<u8>, name: &Name) -> Result<(), Memory>
    ensures { OnOk result (out.new.items ≡ out.old.items ++ encode_utf8_all name.now) }
{
    push_bytes(out, name.0.as_str().as_bytes())
}

/// Appends the name of the class of this number, where there is one.
pub(crate) fn push_class(out: &mut Vec<u8>, spec: &CheckedSpec, class: u32) -> Result<(), Memory>
    ensures { OnOk result (out.new.items ≡ out.old.items ++ encode_utf8_all (class_name_of spec.now class)) }
{
    if class >= spec.class_count() {
        return Ok(());
    }
    push_name(out, spec.class_name(class))
}

/// Appends the variable of this number.
pub(crate) fn push_variable(out: &mut Vec<u8>, number: u64) -> Result<(), Memory>
    ensures { OnOk result (out.new.items ≡ out.old.items ++ variable_text number) }
{
    if number < 3 {
        push_bytes(out, b"x")?;
        return push_number(out, number + 1);
    }
    if number == 3 {
        return push_bytes(out, b"this");
    }
    push_bytes(out, b"p")?;
    push_number(out, number - 3)
}

/// Appends a point and the name of the class's field, where there is one.
fn push_field(out: &mut Vec<u8>, spec: &CheckedSpec, class: u32, field: u32) -> Result<(), Memory>
    ensures { OnOk result (out.new.items ≡ out.old.items
        ++ (codes "." ++ encode_utf8_all (unwrap_or (slice_get (field_names_of spec.now class) field) []))) }
{
    push_bytes(out, b".")?;
    if class >= spec.class_count() || field >= spec.field_count(class) {
        return Ok(());
    }
    push_name(out, spec.field_name(class, field))
}

/// The class of the class's field; 0 where there is none.
#[tactic(auto, using(crate::proofs::Names::no_field_class))]
fn field_class(spec: &CheckedSpec, class: u32, field: u32) -> u32
    ensures { result ≡ slice_index (fields_of spec.now class) field }
{
    if class >= spec.class_count() {
        return 0;
    }
    if field >= spec.field_count(class) {
        return 0;
    }
    spec.field_class(class, field)
}

/// Appends the names of the fields from the class on.
fn push_fields(
    out: &mut Vec<u8>,
    spec: &CheckedSpec,
    start: u32,
    fields: &[u32],
) -> Result<(), Memory>
    ensures { OnOk result (out.new.items ≡ out.old.items ++ fields_text spec.now start fields.now) }
{
    let mut class = start;
    'each: for field in fields {
        push_field(out, spec, class, *field)?;
        class = field_class(spec, class, *field);
    }
    Ok(())
}

/// Appends a term over variables of these classes.
fn push_term(
    out: &mut Vec<u8>,
    spec: &CheckedSpec,
    classes: &[u32],
    term: &Term,
) -> Result<(), Memory>
    ensures { OnOk result (out.new.items ≡ out.old.items ++ term_text spec.now classes.now term.now) }
{
    let class = match classes.get(usize::from(term.var.0)) {
        Some(class) => *class,
        None => 0,
    };
    push_variable(out, u64::from(term.var.0))?;
    push_fields(out, spec, class, term.fields.as_slice())
}

fn push_literal(
    out: &mut Vec<u8>,
    spec: &CheckedSpec,
    classes: &[u32],
    literal: &Literal,
) -> Result<(), Memory>
    ensures { OnOk result (out.new.items ≡ out.old.items ++ literal_text spec.now classes.now literal.now) }
{
    push_term(out, spec, classes, &literal.less)?;
    push_bytes(out, if literal.same { b" == " } else { b" != " })?;
    push_term(out, spec, classes, &literal.more)
}

fn push_cube(
    out: &mut Vec<u8>,
    spec: &CheckedSpec,
    classes: &[u32],
    literals: &[Literal],
) -> Result<(), Memory>
    ensures { OnOk result (out.new.items ≡ out.old.items ++ cube_text spec.now classes.now literals.now) }
{
    let mut before: &[u8] = b"";
    'each: for literal in literals {
        push_bytes(out, before)?;
        push_literal(out, spec, classes, literal)?;
        before = b", ";
    }
    Ok(())
}

/// Appends the variables of a family, each behind its class.
fn push_variables(out: &mut Vec<u8>, spec: &CheckedSpec, classes: &[u32]) -> Result<(), Memory>
    ensures { OnOk result (out.new.items ≡ out.old.items ++ joined (codes ", ") (variables_text spec.now 0 classes.now)) }
{
    let mut number = 0;
    let mut before: &[u8] = b"";
    'each: for class in classes {
        push_bytes(out, before)?;
        push_class(out, spec, *class)?;
        push_bytes(out, b" ")?;
        push_variable(out, number)?;
        number += 1;
        before = b", ";
    }
    Ok(())
}

/// Appends a family without its name.
fn push_family(out: &mut Vec<u8>, spec: &CheckedSpec, family: &Family) -> Result<(), Memory>
    ensures { OnOk result (out.new.items ≡ out.old.items ++ family_text spec.now family.now) }
{
    let classes = family.classes.as_slice();
    push_bytes(out, b"(")?;
    push_variables(out, spec, classes)?;
    push_bytes(out, b") ")?;
    push_cube(out, spec, classes, family.cube.literals.as_slice())
}

/// Appends the name of the family of this number. Names count from 1.
pub(crate) fn push_family_name(out: &mut Vec<u8>, number: u64) -> Result<(), Memory>
    requires { number < u64.MAX }
    ensures { OnOk result (out.new.items ≡ out.old.items ++ family_name number) }
{
    push_bytes(out, b"F")?;
    push_number(out, number + 1)
}

/// Appends a line for each family.
pub(crate) fn push_families(
    out: &mut Vec<u8>,
    spec: &CheckedSpec,
    families: &[Family],
) -> Result<(), Memory>
    ensures { OnOk result (out.new.items ≡ out.old.items ++ families_text spec.now 0 families.now) }
{
    let mut number = 0;
    'each: for family in families {
        push_family_name(out, number)?;
        push_bytes(out, b" ")?;
        push_family(out, spec, family)?;
        push_bytes(out, b"\n")?;
        number += 1;
    }
    Ok(())
}
