//! Which names and facts a procedure has at a point.
ghost use Rattle.std.specs.Prelude.{◌≡◌, ◌==◌, ◌&&◌, true};
ghost use Rattle.client_facts.specs.Counts.{is_of};
ghost use Rattle.client_facts.specs.Facts.{IsFact};
ghost use Rattle.client_facts.specs.Held as held;
ghost use Rattle.client_facts.specs.Names.{IsNameAt};
ghost use Rattle.client_facts.specs.Setting.{exit_of, result_of};
ghost use Rattle.client_facts.specs.Standing as told;

use crate::fact::Fact;
use crate::setting::Setting;

/// Whether the name of this code may stand at a position of this class at the procedure's point: a static or a variable of the
/// class that is surely assigned there, one of three slots, and at the exit a result of the class.
#[tactic(auto, using(crate::proofs::NameTests::name_so, crate::proofs::NameTests::name_only))]
pub fn may_stand(setting: &Setting<'_>, procedure: u32, point: u32, class: u32, code: u32) -> bool
    ensures stands { result ≡ true → IsNameAt (held.setting setting.now) procedure point class code }
    ensures only { IsNameAt (held.setting setting.now) procedure point class code → result ≡ true }
{
    is_name(setting, procedure, point, class, code)
}

/// Whether it is a fact of the procedure at the point: a family that there is, with a name for each of its variables.
#[tactic(auto, using(crate::proofs::NameTests::names_so, crate::proofs::NameTests::names_only))]
pub fn is_fact(setting: &Setting<'_>, procedure: u32, point: u32, fact: &Fact) -> bool
    ensures stands { result ≡ true → IsFact (held.setting setting.now) procedure point fact.now }
    ensures only { IsFact (held.setting setting.now) procedure point fact.now → result ≡ true }
{
    match fact {
        Fact::Always => true,
        Fact::Of { family, args } => {
            (*family as usize) < setting.family_count()
                && are_names(
                    setting,
                    procedure,
                    point,
                    setting.classes(*family),
                    args.as_slice(),
                )
        }
    }
}

/// Whether the name of this code may stand at a position of this class, by its kind.
#[tactic(auto, using(crate::proofs::NameTests::by_kind))]
fn is_name(setting: &Setting<'_>, procedure: u32, point: u32, class: u32, code: u32) -> bool
    ensures { result ≡ told.is_name_at (held.setting setting.now) procedure point class code }
{
    let number = code / 4;
    match code % 4 {
        0 => {
            is_known(class, setting.static_class(number)) && setting.is_set(procedure, point, code)
        }
        1 => {
            let variables = setting.variables(procedure);
            is_known(class, variables.get(number as usize).copied())
                && setting.is_set(procedure, point, code)
        }
        2 => number < 3,
        _ => number == 0 && is_result(setting, procedure, point, class),
    }
}

/// Whether there is such a name, and it is of this class.
fn is_known(class: u32, found: Option<Option<u32>>) -> bool
    ensures { result ≡ told.is_known class found }
{
    match found {
        Some(known) => is_of(class, known),
        None => false,
    }
}

/// Whether this is the class.
pub(crate) fn is_of(class: u32, known: Option<u32>) -> bool
    ensures { result ≡ is_of class known }
{
    match known {
        Some(other) => class == other,
        None => false,
    }
}

/// Whether the point is the exit, and the result is of the class.
fn is_result(setting: &Setting<'_>, procedure: u32, point: u32, class: u32) -> bool
    ensures { result ≡ (is_of class (result_of (held.setting setting.now) procedure)
        && point == exit_of (held.setting setting.now) procedure) }
{
    is_of(class, setting.result(procedure)) && point == setting.exit(procedure)
}

/// Whether there are as many codes as classes, and each may stand at a position of its class.
fn are_names(
    setting: &Setting<'_>,
    procedure: u32,
    point: u32,
    classes: &[u32],
    codes: &[u32],
) -> bool
    ensures { result ≡ told.are_names_at (held.setting setting.now) procedure point classes.now codes.now }
{
    match (classes.split_first(), codes.split_first()) {
        (None, None) => true,
        (Some((class, classes)), Some((code, codes))) => {
            is_name(setting, procedure, point, *class, *code)
                && are_names(setting, procedure, point, classes, codes)
        }
        _ => false,
    }
}
