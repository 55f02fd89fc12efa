//! What names stand for in a specification, and words that are literals.
ghost use Rattle.std.specs.Prelude.{◌≡◌, ◌<◌, ◌&&◌, ◌==◌, not, chars, codes, length, IfSome};
ghost use Rattle.client_model.specs.Lookups as told;
ghost use Rattle.client_model.specs.HeaderFaults as headers;
ghost use Rattle.client_model.specs.Trees.{procedure_of};

use client_model::Proc;
use easl_model::{CheckedSpec, Method, Name};

/// The number of the class of this name.
pub(crate) fn class_named(spec: &CheckedSpec, name: &Name) -> Option<u32>
    ensures class { result ≡ told.class_named spec.now name.now }
    ensures in_range { IfSome result (λ n. n < length spec.now.classes) }
{
    'each: for class in 0..spec.class_count() {
        if spec.class_name(class).is_same(name) {
            return Some(class);
        }
    }
    None
}

/// The number of the class's method of this name.
#[tactic(auto, using(crate::proofs::NamesFound::found_here, crate::proofs::NamesFound::passed_over))]
pub(crate) fn method_named(spec: &CheckedSpec, class: u32, name: &Name) -> Option<u32>
    ensures method { result ≡ told.method_named spec.now class name.now }
    ensures in_range { IfSome result (λ n. n < length spec.now.methods) }
{
    'each: for number in 0..spec.method_count() {
        if is_named(spec.method(number), class, name) {
            return Some(number);
        }
    }
    None
}

#[tactic(auto, using(crate::proofs::NamesFound::same_is, crate::proofs::NamesFound::other_is))]
fn is_named(method: &Method, class: u32, name: &Name) -> bool
    ensures { result ≡ (not method.now.constructor && (method.now.class == class) && told.is_same method.now.name name.now) }
{
    !method.constructor && method.class == class && method.name.is_same(name)
}

/// Whether a word is a literal.
pub fn is_literal(name: &Name) -> bool
    ensures { result ≡ told.is_literal name.now }
{
    begins_literal(name) || is_true(name) || is_false(name)
}

fn is_true(name: &Name) -> bool
    ensures { result ≡ told.is_same name.now (codes "true") }
{
    is_text(name, "true")
}

fn is_false(name: &Name) -> bool
    ensures { result ≡ told.is_same name.now (codes "false") }
{
    is_text(name, "false")
}

/// Whether a procedure is `main`.
pub fn is_main(procedure: &Proc) -> bool
    ensures { result ≡ headers.is_main (procedure_of procedure.now) }
{
    is_main_name(&procedure.name.name)
}

fn is_main_name(name: &Name) -> bool
    ensures { result ≡ told.is_same name.now (codes "main") }
{
    is_text(name, "main")
}

fn begins_literal(name: &Name) -> bool
    ensures { result ≡ told.begins_literal name.now }
{
    match name.0.chars().next() {
        Some(first) => first.is_ascii_digit() || first == '"',
        None => false,
    }
}

#[tactic(auto, using(name_table::proofs::Positions::same_test))]
fn is_text(name: &Name, text: &str) -> bool
    ensures { result ≡ told.is_same name.now (chars text.now) }
{
    name.0.as_str() == text
}
