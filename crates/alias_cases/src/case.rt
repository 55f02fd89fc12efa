//! Term lists and their configurations.
ghost use Rattle.std.specs.Prelude.{◌≡◌, IfOk};

use access_paths::Term;
use sqlite_items::Items;
use std::alloc::{AllocError, Global};

/// The terms of a question in order, closed under prefixes, and the class of each.
#[derive(Debug, Drop)]
pub struct Terms {
    pub list: Items<Term>,
    pub classes: Items<u32>,
}

impl Terms {
    ghost use Rattle.std.specs.Prelude.{◌≡◌, IfOk};

    pub fn twin(&self, alloc: Global) -> Result<Terms, AllocError>
        ensures { IfOk result (λ terms. terms ≡ self.now) }
    {
        Ok(Terms {
            list: twins(alloc, self.list.as_slice())?,
            classes: Items::from_slice(alloc, self.classes.as_slice())?,
        })
    }
}

/// The same terms again.
fn twins(alloc: Global, terms: &[Term]) -> Result<Items<Term>, AllocError>
    ensures { IfOk result (λ list. list ≡ terms.now) }
{
    let mut list = Items::new(alloc);
    'each: for term in terms {
        list.push(term.twin(alloc)?)?;
    }
    Ok(list)
}

/// The configurations of a term list: for each the block of each term, the blocks numbered by their first terms.
#[derive(Debug, Drop)]
pub struct Cases {
    pub terms: Terms,
    pub list: Items<Items<u32>>,
}

/// Why there are no cases: there are more than 65,536 configurations, or memory was wanted and not found.
#[derive(Clone, Copy, Debug, PartialEq, Eq)]
pub enum CasesFault {
    Cases,
    Memory,
}

impl From<AllocError> for CasesFault {
    ghost use Rattle.std.specs.Prelude.{◌≡◌};
    ghost use Rattle.alias_cases.specs.declared.case.CasesFault.TheVariants as CasesFault;

    ghost from_gives = { λ _ fault. fault ≡ CasesFault.Memory };

    fn from(_: AllocError) -> CasesFault {
        CasesFault::Memory
    }
}
