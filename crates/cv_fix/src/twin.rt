//! Items.
ghost use Rattle.std.specs.Prelude.{◌≡◌, true, IfOk};

use cv_base::{List, Memory};
use std::alloc::Global;

/// A value that can be made twice, and whose `==` says whether contracts see one value.
pub trait Twin: Eq + Sized {
    /// The same value again. `Memory` where there is none left.
    fn twin(&self, alloc: Global) -> Result<Self, Memory>
        ensures { IfOk result (λ x. x ≡ self.now) };

    /// Two values that `==` calls equal are one. That a value is equal to itself is a law of `Eq`.
    ghost exact: { (x y : Self) → Self.eq x y ≡ true → x ≡ y };
}

impl Twin for u32 {
    ghost use Rattle.cv_fix.specs.Same.{same_number};

    ghost exact = { same_number };

    fn twin(&self, _: Global) -> Result<u32, Memory> {
        Ok(*self)
    }
}

impl Twin for u64 {
    ghost use Rattle.cv_fix.specs.Same.{same_number};

    ghost exact = { same_number };

    fn twin(&self, _: Global) -> Result<u64, Memory> {
        Ok(*self)
    }
}

impl<A: Twin + Drop, B: Twin + Drop> Twin for (A, B) {
    ghost use Rattle.cv_fix.specs.Same.{same_pair};

    ghost exact = { same_pair A.Twin.exact B.Twin.exact };

    fn twin(&self, alloc: Global) -> Result<(A, B), Memory> {
        let first = self.0.twin(alloc)?;
        let second = self.1.twin(alloc)?;
        Ok((first, second))
    }
}

impl<T: Twin + Drop> Twin for List<T> {
    ghost use Rattle.cv_fix.specs.Same.{same_list};

    ghost exact = { same_list T.Twin.exact };

    fn twin(&self, alloc: Global) -> Result<List<T>, Memory> {
        Ok(List::from_vec(twins(alloc, self.as_slice())?))
    }
}

/// The same items again.
fn twins<T: Twin + Drop>(alloc: Global, items: &[T]) -> Result<Vec<T>, Memory>
    ensures { IfOk result (λ made. made.items ≡ items.now) }
{
    let mut made = Vec::new(alloc);
    'each: for item in items {
        made.push(item.twin(alloc)?).map_err(|_| Memory)?;
    }
    Ok(made)
}
