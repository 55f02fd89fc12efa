//! Facts of a procedure.
use cv_base::Memory;
use cv_fix::Twin;
use smallvec::SmallVec;
use std::alloc::{AllocError, Global};
use std::hash::{Hash, Hasher};
use std::marker::Model;

/// Name codes, which contracts see as their list.
#[derive(Debug, Drop)]
pub struct Args(pub SmallVec<u32, 3>);

impl Model for Args {
    ghost use Rattle.std.specs.Prelude.{List, ℕ};

    ghost Value = { List ℕ };

    ghost view = { λ a. a.0.items };
}

impl PartialEq for Args {
    ghost use Rattle.std.specs.Prelude.{nat_eq};
    ghost use Rattle.std.specs.Cmp.{partial_equiv_from_equiv};
    ghost use Rattle.std.specs.Cmp.Lexicographic.{pointwise};
    ghost use Rattle.std.proofs.lemmas.Cmp.{nat_list_eq_equiv};

    ghost eq = { pointwise nat_eq };

    ghost laws = { partial_equiv_from_equiv nat_list_eq_equiv };

    fn eq(&self, other: &Args) -> bool {
        self.0.as_slice() == other.0.as_slice()
    }
}

impl Eq for Args {
    ghost use Rattle.std.proofs.lemmas.Cmp.{nat_list_eq_equiv};

    ghost laws = { nat_list_eq_equiv };
}

impl Hash for Args {
    ghost use Rattle.std.specs.Hash as fed;
    ghost use Rattle.access_paths.specs.{numbers_fed_alike};

    ghost hash_input = { fed.slice fed.u32 };

    ghost respects_eq = { numbers_fed_alike };

    fn hash<H: Hasher>(&self, state: &mut H) {
        self.0.as_slice().hash(state);
    }
}

impl Args {
    ghost use Rattle.std.specs.Prelude.{◌≡◌, IfOk};

    /// The codes, that of the first name first.
    pub fn as_slice(&self) -> &[u32]
        ensures { result.now ≡ self.now }
    {
        self.0.as_slice()
    }

    /// The same codes again. `AllocError` where there is no memory left.
    pub fn twin(&self, alloc: Global) -> Result<Args, AllocError>
        ensures { IfOk result (λ a. a ≡ self.now) }
    {
        Ok(Args(SmallVec::from_slice(alloc, self.0.as_slice())?))
    }
}

/// What is true in each state, or the family of this number of the objects of these names, one for each of its variables.
#[derive(Debug, Drop, PartialEq, Eq, Hash)]
pub enum Fact {
    Always,
    Of { family: u32, args: Args },
}

impl Twin for Fact {
    ghost use Rattle.client_facts.specs.Same.{same_fact};

    ghost exact = { same_fact };

    fn twin(&self, alloc: Global) -> Result<Fact, Memory> {
        match self {
            Fact::Always => Ok(Fact::Always),
            Fact::Of { family, args } => Ok(Fact::Of {
                family: *family,
                args: args.twin(alloc).map_err(|_| Memory)?,
            }),
        }
    }
}
