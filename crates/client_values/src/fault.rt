//! Faults of clients, and the first of some.
ghost use Rattle.std.specs.Prelude.{◌≡◌, ◌∷◌, []};
ghost use Rattle.client_values.specs.ToldFaults.{Finds, fault_told, rule_told};
ghost use Rattle.client_model.specs.Faults as told;
ghost use Rattle.easl_model.specs.Faults.{stands_before};

use easl_model::Place;

/// A rule that a client can break, in the order of the rules' numbers from 1.
#[derive(Clone, Copy, Debug, PartialEq, Eq)]
pub enum Rule {
    /// Something is named a second time.
    Duplicate,
    /// A name stands for nothing.
    Unknown,
    /// A type is not the one that is wanted.
    Mismatch,
    /// A variable is read where it is not surely assigned.
    Unset,
    /// A result is not returned.
    NoReturn,
    /// There is no `main`.
    NoMain,
    /// A statement stands behind one that does not go on.
    Unreachable,
    /// A `break` or `continue` stands in no `while`.
    OutsideLoop,
}

/// A rule is broken at a place.
#[derive(Clone, Copy, Debug, PartialEq, Eq)]
pub struct Fault {
    pub rule: Rule,
    pub place: Place,
}

fn number_of(rule: Rule) -> u32
    ensures { result ≡ told.number_of (rule_told rule) }
{
    match rule {
        Rule::Duplicate => 1,
        Rule::Unknown => 2,
        Rule::Mismatch => 3,
        Rule::Unset => 4,
        Rule::NoReturn => 5,
        Rule::NoMain => 6,
        Rule::Unreachable => 7,
        Rule::OutsideLoop => 8,
    }
}

fn stands_before(left: Place, right: Place) -> bool
    ensures { result ≡ stands_before left right }
{
    left.line < right.line || (left.line == right.line && left.col < right.col)
}

fn comes_before(left: Fault, right: Fault) -> bool
    ensures { result ≡ told.comes_before (fault_told left) (fault_told right) }
{
    stands_before(left.place, right.place)
        || (left.place.line == right.place.line
            && left.place.col == right.place.col
            && number_of(left.rule) < number_of(right.rule))
}

/// The first of what was found and a fault at the place.
pub(crate) fn note(found: Option<Fault>, rule: Rule, place: Place) -> Option<Fault>
    ensures { Finds found result (told.fault (rule_told rule) place ∷ []) }
{
    let fault = Fault { rule, place };
    match found {
        Some(other) => {
            if comes_before(fault, other) {
                Some(fault)
            } else {
                Some(other)
            }
        }
        None => Some(fault),
    }
}

/// The same where the rule is broken.
pub fn note_if(found: Option<Fault>, broken: bool, rule: Rule, place: Place) -> Option<Fault>
    ensures { Finds found result (told.broken_if broken (rule_told rule) place) }
{
    if broken {
        note(found, rule, place)
    } else {
        found
    }
}
