//! The names that are set at each point of a procedure.
ghost use Rattle.std.specs.Prelude.{◌≡◌, ◌<◌, ◌==◌, ◌^◌, ◌+◌, All, [], true, false, length, slice_index_or};
ghost use Rattle.std.specs.List.{list_any};
ghost use Rattle.set_names.specs.Sets.{Ascends, is_set_at, sets_of, statics_at};

use crate::spans::{Spans, is_in};
use std::alloc::Global;
use std::marker::Model;

/// For each point of a procedure and for its exit, which has the number of points, the names that are surely assigned there.
/// Contracts see the lists of their codes: 4k of the static k, and then 4j + 1 of the variable j, both by number.
#[derive(Debug, Drop)]
pub struct SetNames {
    is_start: bool,
    statics: u32,
    points: u32,
    variables: Vec<Spans>,
}

impl Model for SetNames {
    ghost use Rattle.std.specs.Prelude.{All, List, ℕ};

    ghost Value = { List (List ℕ) };

    ghost use Rattle.set_names.specs.Sets.{Ascends, sets_of};

    ghost view = { λ s. sets_of s.is_start s.statics s.points s.variables.items };

    ghost invariant = { λ s. All (λ v. Ascends 0 v.ended.items) s.variables.items };
}

impl SetNames {
    /// In a procedure all statics are set, and each variable in its spans. It takes no memory.
    pub fn new(statics: u32, points: u32, variables: Vec<Spans>) -> SetNames
        requires { All (λ v. Ascends 0 v.ended.items) variables.items }
        ensures { result ≡ sets_of false statics points variables.items }
    {
        SetNames {
            is_start: false,
            statics,
            points,
            variables,
        }
    }

    /// In the start each static is set behind its initialiser, and the call of `main` is the last point. It takes no memory.
    pub fn of_start(alloc: Global, statics: u32) -> SetNames
        requires { statics + 1 < 2 ^ 32 }
        ensures { result ≡ sets_of true statics (statics + 1) [] }
    {
        SetNames {
            is_start: true,
            statics,
            points: statics + 1,
            variables: Vec::new(alloc),
        }
    }

    /// Whether the name of this code is set at the point.
    pub fn is_set(&self, point: u32, name: u32) -> bool
        requires { point < length self.now }
        ensures { result ≡ list_any (λ code. code == name) (slice_index_or self.now point []) }
    {
        let number = name / 4;
        match name % 4 {
            0 => number < static_count(self.is_start, self.statics, point),
            1 => is_variable_set(self.variables.as_slice(), point, number),
            _ => false,
        }
    }
}

/// How many statics are set at the point.
fn static_count(is_start: bool, statics: u32, point: u32) -> u32
    ensures { result ≡ statics_at is_start statics point }
{
    if is_start {
        point.min(statics)
    } else {
        statics
    }
}

fn is_variable_set(variables: &[Spans], point: u32, number: u32) -> bool
    requires { All (λ v. Ascends 0 v.ended.items) variables.now }
    ensures { result ≡ is_set_at variables.now point number }
{
    match variables.get(number as usize) {
        Some(spans) => is_in(spans, point),
        None => false,
    }
}
