//! At which positions of a fact a name stands.
ghost use Rattle.std.specs.Prelude.{◌≡◌};
ghost use Rattle.std.specs.Bool.{OnFalse, OnTrue};
ghost use Rattle.client_facts.specs.Calls.{is_target};
ghost use Rattle.client_facts.specs.Flows.{positions};

/// Whether the name takes the result.
pub(crate) fn is_result(target: Option<u32>, code: u32) -> bool
    ensures { result ≡ is_target target code }
{
    match target {
        Some(name) => name == code,
        None => false,
    }
}

/// Whether the name that takes the result stands at just these positions, given as bits.
pub(crate) fn are_positions(results: u32, target: Option<u32>, codes: &[u32]) -> bool
    ensures so { OnTrue result (positions target codes.now ≡ results) }
    ensures not_so { OnFalse result (positions target codes.now ≡ results → ⊥) }
{
    let mut left = results;
    'each: for code in codes {
        if is_result(target, *code) != (left % 2 == 1) {
            return false;
        }
        left /= 2;
    }
    left == 0
}
