//! The fact that a disjunct gives with names for its variables.
ghost use Rattle.std.specs.Prelude.{◌≡◌, ℕ, List, Some, IfOk, MatchOption, slice_get};
ghost use Rattle.std.specs.Bool.{OnFalse, OnTrue};
ghost use Rattle.client_facts.specs.Flows.{IsPut, names_of_update};
ghost use Rattle.step_flows.specs.Put.{AreNamed, IsOnlyPut};
ghost use Rattle.client_facts.specs.declared.fact.Fact.{Fact as FactForm};

use crate::names::Asked;
use access_paths::Var;
use client_facts::{Args, Fact};
use method_abstraction::Disjunct;
use smallvec::SmallVec;
use std::alloc::{AllocError, Global};

impl Asked<'_> {
    /// Whether these are the names of the variables.
    fn are_named(&self, codes: &[u32], vars: &[Var], names: &[u32]) -> bool
        ensures so { OnTrue result (AreNamed (names_of_update self.now.results codes.now self.now.method.now self.now.site.now) vars.now names.now) }
        ensures not_so { OnFalse result (AreNamed (names_of_update self.now.results codes.now self.now.method.now self.now.site.now) vars.now names.now → ⊥) }
    {
        if vars.len() != names.len() {
            return false;
        }
        'each: for (number, var) in vars.iter().enumerate() {
            if !self.is_named(codes, var.0, names[number]) {
                return false;
            }
        }
        true
    }

    /// The names of the variables, None where one has none.
    fn names_of(
        &self,
        alloc: Global,
        codes: &[u32],
        vars: &[Var],
    ) -> Result<Option<Args>, AllocError>
        ensures { IfOk result (λ o. MatchOption o ((names : List ℕ) → AreNamed
            (names_of_update self.now.results codes.now self.now.method.now self.now.site.now) vars.now names → ⊥)
            (λ made. AreNamed (names_of_update self.now.results codes.now self.now.method.now self.now.site.now) vars.now made)) }
    {
        let mut made = SmallVec::new(alloc);
        'each: for var in vars {
            let Some(code) = self.code(codes, var.0) else {
                return Ok(None);
            };
            made.push(code)?;
        }
        Ok(Some(Args(made)))
    }

    /// The fact that the disjunct gives, None where it gives none.
    pub fn put(
        &self,
        alloc: Global,
        codes: &[u32],
        disjunct: &Disjunct,
    ) -> Result<Option<Fact>, AllocError>
        ensures { IfOk result (λ o. MatchOption o ((d : FactForm) → IsPut (names_of_update self.now.results codes.now self.now.method.now self.now.site.now)
            disjunct.now d → ⊥)
            (λ made. IsOnlyPut (names_of_update self.now.results codes.now self.now.method.now self.now.site.now) disjunct.now made)) }
    {
        match disjunct {
            Disjunct::Always => Ok(Some(Fact::Always)),
            Disjunct::Of(family, vars) => {
                let Some(args) = self.names_of(alloc, codes, vars.as_slice())? else {
                    return Ok(None);
                };
                Ok(Some(Fact::Of {
                    family: *family,
                    args,
                }))
            }
        }
    }

    /// Whether the disjunct gives this fact, where the fact after the call has these names.
    pub fn is_put(&self, codes: &[u32], disjunct: &Disjunct, fact: &Fact) -> bool
        ensures so { OnTrue result (IsPut (names_of_update self.now.results codes.now self.now.method.now self.now.site.now) disjunct.now fact.now) }
        ensures not_so { OnFalse result (IsPut (names_of_update self.now.results codes.now self.now.method.now self.now.site.now) disjunct.now fact.now → ⊥) }
    {
        match disjunct {
            Disjunct::Always => is_always(fact),
            Disjunct::Of(number, vars) => match fact {
                Fact::Always => false,
                Fact::Of { family, args } => {
                    *family == *number && self.are_named(codes, vars.as_slice(), args.as_slice())
                }
            },
        }
    }
}

/// Whether the fact is what is always true.
pub(crate) fn is_always(fact: &Fact) -> bool
    ensures so { OnTrue result (fact.now ≡ Fact.Always) }
    ensures not_so { OnFalse result (fact.now ≡ Fact.Always → ⊥) }
{
    match fact {
        Fact::Always => true,
        Fact::Of { .. } => false,
    }
}
