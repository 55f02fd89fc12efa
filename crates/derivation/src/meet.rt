//! Families that are met, and their numbers.
ghost use Rattle.std.specs.Prelude.{◌≡◌, ◌≤◌, ◌∷◌, [], Contains, Some, MatchOption, MatchResult, length, slice_get};
ghost use Rattle.std.specs.List.{AllZip};
ghost use Rattle.derivation.specs.Closing.{AreTooMany, Meets};
ghost use Rattle.derivation.specs.Laws.{IsNumbered};
ghost use Rattle.derivation.specs.Meeting.{IsMet, IsFull};

use crate::put::put_last;
use crate::reply::Predicate;
use access_paths::Family;
use cv_base::{List, Memory};
use method_abstraction::Disjunct;
use std::alloc::Global;

/// The most families that there may be.
const MOST: usize = 64;

/// Why a family was not met.
#[derive(Clone, Copy, Debug, PartialEq, Eq)]
pub(crate) enum MeetFault {
    /// There are 64 already.
    Full,
    /// Memory was wanted and not found.
    Memory,
}

impl From<Memory> for MeetFault {
    ghost use Rattle.std.specs.Prelude.{◌≡◌};
    ghost use Rattle.derivation.specs.declared.meet.MeetFault.TheVariants as MeetFault;

    ghost from_gives = { λ _ fault. fault ≡ MeetFault.Memory };

    fn from(_: Memory) -> MeetFault {
        MeetFault::Memory
    }
}

/// The predicates with the numbers of their families, each of which is appended when it is first met. `Full` exactly
/// where a 65th family is met, or `Memory`.
pub(crate) fn meet_all(
    alloc: Global,
    families: &mut Vec<Family>,
    predicates: List<Predicate>,
) -> Result<List<Disjunct>, MeetFault>
    requires { length families.old.items ≤ 64 }
    ensures { MatchResult result
        (λ ds. Meets families.old.items predicates families.new.items × (length families.new.items ≤ 64)
        × AllZip (IsNumbered families.new.items) predicates ds)
        (IsFull (AreTooMany families.old.items predicates)) }
{
    let mut made = Vec::new(alloc);
    'each: for predicate in predicates.into_vec() {
        match number(families, predicate) {
            Ok(disjunct) => put_last(&mut made, disjunct)?,
            Err(fault) => return Err(fault),
        }
    }
    Ok(List::from_vec(made))
}

/// The predicate with the number of its family.
fn number(families: &mut Vec<Family>, predicate: Predicate) -> Result<Disjunct, MeetFault>
    requires { length families.old.items ≤ 64 }
    ensures { MatchResult result
        (λ d. Meets families.old.items (predicate ∷ []) families.new.items × (length families.new.items ≤ 64)
        × IsNumbered families.new.items predicate d)
        (IsFull (AreTooMany families.old.items (predicate ∷ []))) }
{
    match predicate {
        Predicate::Always => Ok(Disjunct::Always),
        Predicate::Of(instance) => {
            match meet(families, instance.family) {
                Ok(number) => Ok(Disjunct::Of(number, instance.args)),
                Err(fault) => Err(fault),
            }
        }
    }
}

/// The number of the family, which is appended where it is new.
fn meet(families: &mut Vec<Family>, family: Family) -> Result<u32, MeetFault>
    requires { length families.old.items ≤ 64 }
    ensures { MatchResult result
        (λ number. IsMet families.old.items family families.new.items × (slice_get families.new.items number ≡ Some family))
        (IsFull ((¬ Contains families.old.items family) × (length families.old.items ≡ 64))) }
{
    if let Some(number) = number_of(families.as_slice(), &family) {
        return Ok(number);
    }
    if families.len() == MOST {
        return Err(MeetFault::Full);
    }
    let number = families.len() as u32;
    put_last(families, family)?;
    Ok(number)
}

/// The number of the family among these, if it is one of them.
fn number_of(families: &[Family], family: &Family) -> Option<u32>
    requires { length families.now ≤ 64 }
    ensures { MatchOption result (¬ Contains families.now family.now) (λ number. slice_get families.now number ≡ Some family.now) }
{
    'each: for (number, other) in families.iter().enumerate() {
        if other == family {
            return Some(number as u32);
        }
    }
    None
}
