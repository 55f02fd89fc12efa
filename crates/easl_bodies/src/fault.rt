//! Faults, and the first of some.
ghost use Rattle.std.specs.Prelude.{◌≡◌, Some};
ghost use Rattle.easl_model.specs.{broken_if, earlier, first_with, number_of, stands_before};
ghost use Rattle.easl_model.specs.Faults.{comes_before};
ghost use Rattle.easl_model.specs.Faults as told;

use easl_model::{Fault, Place, Rule};

fn number_of(rule: Rule) -> u32
    ensures { result ≡ number_of rule }
{
    match rule {
        Rule::Duplicate => 1,
        Rule::Unknown => 2,
        Rule::Mismatch => 3,
        Rule::Unready => 4,
        Rule::ConstructorCycle => 5,
        Rule::TooLong => 6,
    }
}

fn stands_before(left: Place, right: Place) -> bool
    ensures { result ≡ stands_before left right }
{
    left.line < right.line || (left.line == right.line && left.col < right.col)
}

fn comes_before(left: Fault, right: Fault) -> bool
    ensures { result ≡ comes_before left right }
{
    stands_before(left.place, right.place)
        || (left.place.line == right.place.line
            && left.place.col == right.place.col
            && number_of(left.rule) < number_of(right.rule))
}

/// The first of what was found and a fault at the place.
pub(crate) fn note(found: Option<Fault>, rule: Rule, place: Place) -> Option<Fault>
    ensures { result ≡ earlier comes_before found (told.fault rule place) }
{
    let fault = Fault { rule, place };
    match found {
        Some(other) => {
            if comes_before(fault, other) {
                Some(fault)
            } else {
                Some(other)
            }
        }
        None => Some(fault),
    }
}

/// The same where the rule is broken.
pub fn note_if(found: Option<Fault>, broken: bool, rule: Rule, place: Place) -> Option<Fault>
    ensures { result ≡ first_with comes_before found (broken_if broken rule place) }
{
    if broken {
        note(found, rule, place)
    } else {
        found
    }
}
