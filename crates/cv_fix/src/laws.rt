//! Laws of closures.
ghost use Rattle.std.specs.Prelude.{List, Result};
ghost use Rattle.cv_fix.specs.Closure.{IsClosure};
ghost use Rattle.cv_fix.specs.Last.{by_last};
ghost use Rattle.cv_fix.specs.Least.{IsSteady, IsLeast};

use crate::rules::Rules;

/// A law: for steady rules a closure is the least closed list that holds the starts.
pub fn closure_is_least<R: Rules>()
    ensures { (rules : R) (starts items : List R.Item)
        → IsSteady (R.follows rules)
        → IsClosure (R.follows rules) R.Item.eq starts items
        → IsLeast (R.follows rules) starts items }
{}

/// A law: rules that look at the last item alone are steady.
pub fn last_is_steady<T, S>()
    ensures { (f : T → Result (List T) S) → IsSteady (by_last f) }
{}
