//! Items that a limit counts, and the first excess in text order.
ghost use Rattle.std.specs.Prelude.{◌≡◌};
ghost use Rattle.easl_model.specs.Faults as faults;
ghost use Rattle.easl_model.specs.TreeLimits as limits;
ghost use Rattle.easl_parser.specs.Tallies.{counted};

use easl_model::{Excess, Place, Which};

/// How many items more a limit allows, and the first excess that was found.
#[derive(Clone, Copy, Debug, PartialEq, Eq)]
pub(crate) struct Tally {
    pub(crate) left: usize,
    pub(crate) found: Option<Excess>,
}

/// Counts one more item, which begins at the place.
#[tactic(auto, using(crate::proofs::Counting::one_less))]
pub(crate) fn count(tally: Tally, which: Which, place: Place) -> Tally
    ensures { result ≡ counted which tally place }
{
    if tally.left > 0 {
        Tally {
            left: tally.left - 1,
            found: tally.found,
        }
    } else {
        Tally {
            left: 0,
            found: earlier(tally.found, Excess { which, place }),
        }
    }
}

/// The first of what was found and one more.
fn earlier(found: Option<Excess>, excess: Excess) -> Option<Excess>
    ensures { result ≡ faults.earlier limits.comes_before found excess }
{
    match found {
        Some(other) => {
            if comes_before(excess, other) {
                Some(excess)
            } else {
                Some(other)
            }
        }
        None => Some(excess),
    }
}

/// Whether one excess comes before another: in text order, and at one place too many statements before too many
/// conditionals.
fn comes_before(one: Excess, other: Excess) -> bool
    ensures { result ≡ limits.comes_before one other }
{
    stands_before(one.place, other.place)
        || (one.place.line == other.place.line
            && one.place.col == other.place.col
            && number_of(one.which) < number_of(other.which))
}

fn number_of(which: Which) -> u32
    ensures { result ≡ limits.number_of which }
{
    match which {
        Which::Conditionals => 1,
        _ => 0,
    }
}

fn stands_before(one: Place, other: Place) -> bool
    ensures { result ≡ faults.stands_before one other }
{
    one.line < other.line || (one.line == other.line && one.col < other.col)
}
