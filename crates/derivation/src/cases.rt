//! The configurations that count.
ghost use Rattle.std.specs.Prelude.{◌≡◌, ◌<◌, ◌≤◌, All, Some, length, slice_get, IfOk, IfSome};
ghost use Rattle.std.specs.Option.{option_copied};
ghost use Rattle.case_model.specs.{HasTerms, terms_of_clauses};
ghost use Rattle.cube_cover.specs.{AreCases, configurations_at};
ghost use Rattle.derivation.specs.Replies as told;
ghost use Rattle.easl_model.specs.declared.form.Method.{Method};

use access_paths::Family;
use alias_cases::Cases;
use cube_cover::care;
use cv_base::Memory;
use easl_model::CheckedSpec;
use std::alloc::Global;

/// The numbers of the configurations that count: in an update question those in which all clauses of the method are
/// true, in a clause question all of them.
pub(crate) fn counted(
    alloc: Global,
    spec: &CheckedSpec,
    method: u32,
    family: Option<&Family>,
    cases: &Cases,
) -> Result<Vec<u32>, Memory>
    requires method { method < length spec.now.methods }
    requires cases { AreCases cases.now }
    requires terms { IfSome family (λ _. IfSome (slice_get spec.now.methods method) (λ m. HasTerms cases.now.terms.list (terms_of_clauses m))) }
    ensures counted { (m : Method) → slice_get spec.now.methods method ≡ Some m → IfOk result
        (λ numbers. configurations_at cases.now.list numbers.items ≡ told.counted m (option_copied family.entry) cases.now.terms.list cases.now.list) }
    ensures within { IfOk result (λ numbers. All (λ k. k < length cases.now.list) numbers.items) }
{
    match family {
        Some(_) => care(alloc, spec, method, cases),
        None => all_numbers(alloc, cases),
    }
}

/// The numbers of all configurations.
fn all_numbers(alloc: Global, cases: &Cases) -> Result<Vec<u32>, Memory>
    requires { length cases.now.list ≤ 65536 }
    ensures all { IfOk result (λ numbers. configurations_at cases.now.list numbers.items ≡ cases.now.list) }
    ensures within { IfOk result (λ numbers. All (λ k. k < length cases.now.list) numbers.items) }
{
    let mut numbers = Vec::new(alloc);
    'each: for (number, _) in cases.list.as_slice().iter().enumerate() {
        numbers.push(number as u32).map_err(|_| Memory)?;
    }
    Ok(numbers)
}
