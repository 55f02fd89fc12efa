//! Sets of facts.
use crate::fact::Fact;
use indexmap::IndexSet;
use std::alloc::{AllocError, Global};
use std::marker::Model;

/// Facts in the order in which they came, each once. Contracts see their list.
#[derive(Debug, Drop)]
pub struct FactSet {
    facts: IndexSet<Fact>,
}

impl Model for FactSet {
    ghost use Rattle.std.specs.Prelude.{List};
    ghost use Rattle.client_facts.specs.FactSets.{AllDiffer};
    ghost use Rattle.client_facts.specs.declared.fact.Fact.{Fact};

    ghost Value = { List Fact };

    ghost view = { λ s. s.facts.keys };

    ghost invariant = { λ s. AllDiffer s.facts.keys };
}

impl FactSet {
    ghost use Rattle.std.specs.Prelude.{◌≡◌, ◌≢◌, [], AllPairs, IfOk, OnOk};
    ghost use Rattle.client_facts.specs.FactSets.{AllDiffer, IsWith};

    /// No facts. It takes no memory.
    pub fn new(alloc: Global) -> FactSet
        ensures { result ≡ [] }
    {
        FactSet {
            facts: IndexSet::new(alloc),
        }
    }

    /// Puts the fact behind the others, unless it is there. `AllocError` where there is no memory left.
    #[tactic(auto, using(crate::proofs::Inserted::once))]
    pub fn insert(&mut self, fact: Fact) -> Result<(), AllocError>
        ensures { OnOk result (IsWith self.old fact self.new) }
    {
        let Ok(_) = self.facts.insert(fact) else {
            return Err(AllocError);
        };
        Ok(())
    }

    /// The facts as a list. `AllocError` where there is no memory left.
    pub fn into_facts(self, alloc: Global) -> Result<Vec<Fact>, AllocError>
        ensures facts { IfOk result (λ facts. facts.items ≡ self) }
        ensures once { IfOk result (λ facts. AllPairs (λ x y. x ≢ y) facts.items) }
    {
        match self.facts.into_iter().collect(alloc) {
            Ok(facts) => Ok(facts),
            Err(_) => Err(AllocError),
        }
    }
}
