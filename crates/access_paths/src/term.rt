//! Variables, terms, literals, cubes and families.
use cv_base::List;
use smallvec::SmallVec;
use std::alloc::{AllocError, Global};
use std::cmp::Ordering;
use std::hash::{Hash, Hasher};
use std::marker::Model;

/// A variable of a question: 0 to 2 are x1 to x3, 3 is `this`, 4 to 7 are the parameters.
#[derive(Clone, Copy, Debug, PartialEq, Eq, PartialOrd, Ord, Hash)]
pub struct Var(pub u8);

/// Field positions, which contracts see as their list.
#[derive(Debug, Drop)]
pub struct Fields(pub SmallVec<u32, 6>);

impl Model for Fields {
    ghost use Rattle.std.specs.Prelude.{List, ℕ};

    ghost Value = { List ℕ };

    ghost view = { λ f. f.0.items };
}

impl PartialEq for Fields {
    ghost use Rattle.std.specs.Prelude.{nat_eq};
    ghost use Rattle.std.specs.Cmp.{partial_equiv_from_equiv};
    ghost use Rattle.std.specs.Cmp.Lexicographic.{pointwise};
    ghost use Rattle.std.proofs.lemmas.Cmp.{nat_list_eq_equiv};

    ghost eq = { pointwise nat_eq };

    ghost laws = { partial_equiv_from_equiv nat_list_eq_equiv };

    fn eq(&self, other: &Fields) -> bool {
        self.0.as_slice() == other.0.as_slice()
    }
}

impl Eq for Fields {
    ghost use Rattle.std.proofs.lemmas.Cmp.{nat_list_eq_equiv};

    ghost laws = { nat_list_eq_equiv };
}

impl Hash for Fields {
    ghost use Rattle.std.specs.Hash as fed;
    ghost use Rattle.access_paths.specs.{numbers_fed_alike};

    ghost hash_input = { fed.slice fed.u32 };

    ghost respects_eq = { numbers_fed_alike };

    fn hash<H: Hasher>(&self, state: &mut H) {
        self.0.as_slice().hash(state);
    }
}

impl Fields {
    ghost use Rattle.std.specs.Prelude.{◌≡◌, [], ◌∷◌, ◌++◌, IfOk};

    /// No positions. It takes no memory.
    pub fn none(alloc: Global) -> Fields
        ensures { result ≡ [] }
    {
        Fields(SmallVec::new(alloc))
    }

    /// The positions, the first field first.
    pub fn as_slice(&self) -> &[u32]
        ensures { result.now ≡ self.now }
    {
        self.0.as_slice()
    }

    /// The same positions again. `AllocError` where there is no memory left.
    pub fn twin(&self, alloc: Global) -> Result<Fields, AllocError>
        ensures { IfOk result (λ f. f ≡ self.now) }
    {
        Ok(Fields(SmallVec::from_slice(alloc, self.0.as_slice())?))
    }

    /// These positions with one more behind them. `AllocError` where there is no memory left.
    pub fn with(&self, alloc: Global, position: u32) -> Result<Fields, AllocError>
        ensures { IfOk result (λ f. f ≡ self.now ++ position ∷ []) }
    {
        let mut fields = SmallVec::from_slice(alloc, self.0.as_slice())?;
        fields.push(position)?;
        Ok(Fields(fields))
    }
}

/// What the fields lead to from the variable.
#[derive(Debug, Drop, PartialEq, Eq, Hash)]
pub struct Term {
    /// Where it begins.
    pub var: Var,
    /// The positions of the fields, each in its object's class, the first one first.
    pub fields: Fields,
}

impl Term {
    ghost use Rattle.std.specs.Prelude.{◌≡◌, [], IfOk};
    ghost use Rattle.access_paths.specs.{compare_terms, field};
    ghost use Rattle.access_paths.specs.Terms as told;

    /// The variable of this number. It takes no memory.
    pub fn variable(alloc: Global, number: u8) -> Term
        ensures { result ≡ told.term number [] }
    {
        Term {
            var: Var(number),
            fields: Fields::none(alloc),
        }
    }

    /// The same term again. `AllocError` where there is no memory left.
    pub fn twin(&self, alloc: Global) -> Result<Term, AllocError>
        ensures { IfOk result (λ t. t ≡ self.now) }
    {
        Ok(Term {
            var: self.var,
            fields: self.fields.twin(alloc)?,
        })
    }

    /// What one more field leads to. `AllocError` where there is no memory left.
    pub fn field(&self, alloc: Global, position: u32) -> Result<Term, AllocError>
        ensures { IfOk result (λ t. t ≡ field self.now position) }
    {
        Ok(Term {
            var: self.var,
            fields: self.fields.with(alloc, position)?,
        })
    }

    /// The order of terms: by number of fields, then variable, then field positions.
    pub fn compare(&self, other: &Term) -> Ordering
        ensures { result ≡ compare_terms self.now other.now }
    {
        let left = self.fields.as_slice();
        let right = other.fields.as_slice();
        left.len()
            .cmp(&right.len())
            .then(self.var.0.cmp(&other.var.0))
            .then(left.cmp(right))
    }
}

/// Two different terms that lead to one object, or to two.
#[derive(Debug, Drop, PartialEq, Eq, Hash)]
pub struct Literal {
    /// Whether it is by `==`, and not by `!=`.
    pub same: bool,
    /// The lesser term.
    pub less: Term,
    /// The greater term.
    pub more: Term,
}

impl Literal {
    ghost use Rattle.std.specs.Prelude.{◌≡◌};
    ghost use Rattle.access_paths.specs.{compare_literals};

    /// The order of literals: by first term, then second term, `==` first.
    pub fn compare(&self, other: &Literal) -> Ordering
        ensures { result ≡ compare_literals self.now other.now }
    {
        self.less
            .compare(&other.less)
            .then(self.more.compare(&other.more))
            .then(other.same.cmp(&self.same))
    }
}

/// Literals that are true together.
#[derive(Debug, Drop, PartialEq, Eq, Hash)]
pub struct Cube {
    /// The literals in order, each once.
    pub literals: List<Literal>,
}

/// A cube over x1 to x3, with the classes of these variables.
#[derive(Debug, Drop, PartialEq, Eq, Hash)]
pub struct Family {
    /// The class of each of its variables, by number.
    pub classes: List<u32>,
    /// What it says of them.
    pub cube: Cube,
}

/// A family with the variables that stand for its own.
#[derive(Debug, Drop, PartialEq, Eq, Hash)]
pub struct Instance {
    /// The family.
    pub family: Family,
    /// For each of its variables, by number, the one that stands for it.
    pub args: List<Var>,
}
