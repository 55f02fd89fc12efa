//! Rows of bits from what is true.
ghost use Rattle.std.specs.Prelude.{◌≡◌, ◌↔◌, ◌⊎◌, ℕ, ◌/◌, ◌*◌, ◌%◌, ◌+◌, ◌<◌, length, IfOk};
ghost use Rattle.cube_search.specs.Cubes.{IsSet};
ghost use Rattle.cube_search.specs.Truths.{IsRowOf};

use crate::row::Row;
use cv_base::Memory;
use std::alloc::Global;

/// The row in which the bits of the true places are set: the bit of place k is bit k modulo 64 of word k / 64. `Memory` where
/// there is none left.
#[tactic(auto, using(crate::proofs::BitsSet::row_none, crate::proofs::BitsSet::row_pass, crate::proofs::BitsSet::row_set, crate::proofs::BitsSet::row_whole))]
pub fn row_of(alloc: Global, truths: &[bool]) -> Result<Row, Memory>
    ensures { IfOk result (λ row. IsRowOf truths.now row) }
{
    let mut words = none_set(alloc, truths.len())?;
    'each: for (place, truth) in truths.iter().enumerate() {
        if *truth {
            set_bit(&mut words, place);
        }
    }
    Ok(Row(words))
}

/// Words with a bit for each place, none of them set.
#[tactic(auto, using(crate::proofs::BitsSet::none_set))]
fn none_set(alloc: Global, count: usize) -> Result<Vec<u64>, Memory>
    ensures words { IfOk result (λ words. length words.items ≡ count / 64 + 1) }
    ensures bits { IfOk result (λ words. (word bit : ℕ) → IsSet words.items word bit → ⊥) }
{
    let count = count / 64 + 1;
    match vec![in alloc; 0u64; count] {
        Ok(words) => Ok(words),
        Err(_) => Err(Memory),
    }
}

/// Sets the bit of a place.
#[tactic(auto, using(crate::proofs::BitsSet::bit_set))]
fn set_bit(words: &mut [u64], place: usize)
    requires { place / 64 < length words.old }
    ensures words { length words.new ≡ length words.old }
    ensures bits { (word bit : ℕ) → IsSet words.new word bit ↔ (((bit < 64) × (64 * word + bit ≡ place)) ⊎ IsSet words.old word bit) }
{
    words[place / 64] |= 1 << (place % 64);
}
