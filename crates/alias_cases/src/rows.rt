//! Rows of bits: in which configurations each literal is true.
ghost use Rattle.std.specs.Prelude.{◌≡◌, ◌↔◌, ◌==◌, ℕ, ◌<◌, ◌≤◌, not, true, List, [], ◌∷◌, ◌++◌, All, if◌then◌else◌, length, slice_index, IfOk, OnOk};
ghost use Rattle.std.specs.Int.{bit_at};
ghost use Rattle.access_paths.specs.declared.term.Literal.{Literal};
ghost use Rattle.case_model.specs.Configurations as list;
ghost use Rattle.case_model.specs.{AreConfigurations, HasTerms, terms_of_cube};
ghost use Rattle.alias_cases.specs.declared.case.Cases.{Cases};
ghost use Rattle.alias_cases.specs.{AreAllSet, AreMet, AreRowsOf, IsChosen, case_count, is_true_at, literal_count, truths_of};

use crate::case::Cases;
use crate::fitting::block_at;
use access_paths::{Literal, Term};
use cube_search::{Row, row_of};
use cv_base::Memory;
use sqlite_items::Items;
use std::alloc::Global;

/// One bit for each literal and configuration.
#[derive(Debug, Drop)]
pub struct Rows {
    /// For each literal where it is true.
    rows: Vec<Row>,
    /// How many configurations there are.
    count: usize,
}

impl Rows {
    /// The rows of these literals in all configurations of their term list. `Memory` where there is none left.
    pub fn new(alloc: Global, cases: &Cases, literals: &[Literal]) -> Result<Rows, Memory>
        requires cases { AreConfigurations cases.now.terms.list cases.now.terms.classes cases.now.list }
        requires few { length cases.now.list ≤ 65536 }
        requires literals { HasTerms cases.now.terms.list (terms_of_cube literals.now) }
        ensures { IfOk result (AreRowsOf cases.now literals.now) }
    {
        let mut rows = Vec::new(alloc);
        'each: for literal in literals {
            let truths = truths_of(alloc, cases, literal)?;
            let row = row_of(alloc, &truths)?;
            put_row(&mut rows, row)?;
        }
        Ok(Rows {
            rows,
            count: cases.list.len(),
        })
    }

    /// Whether the literal of this number is true in the configuration of this number. It takes no memory.
    pub fn holds(&self, literal: u32, case: u32) -> bool
        requires literal { literal < literal_count self.now }
        requires case { case < case_count self.now }
        ensures { (cases : Cases) (literals : List Literal) → AreRowsOf cases literals self.now → result ≡ is_true_at cases literals literal case }
    {
        let place = case as usize;
        let word = word_at(&self.rows[literal as usize], place / 64);
        word >> (place % 64) & 1 == 1
    }

    /// Whether in some chosen configuration all the literals of these numbers are true. Configuration k is chosen by bit k modulo
    /// 64 of word k / 64. It takes no memory.
    pub fn meets(&self, literals: &[u32], chosen: &[u64]) -> bool
        requires literals { All (λ n. n < literal_count self.now) literals.now }
        requires chosen { (k : ℕ) → IsChosen chosen.now k → k < case_count self.now }
        ensures { (cases : Cases) (given : List Literal) → AreRowsOf cases given self.now → result ≡ true ↔ AreMet cases given literals.now chosen.now }
    {
        'each: for (word, bits) in chosen.iter().enumerate() {
            if left_of(&self.rows, literals, word, *bits) != 0 {
                return true;
            }
        }
        false
    }
}

/// Puts a row at the end.
fn put_row(rows: &mut Vec<Row>, row: Row) -> Result<(), Memory>
    ensures { OnOk result (rows.new.items ≡ rows.old.items ++ row ∷ []) }
{
    match rows.push(row) {
        Ok(()) => Ok(()),
        Err(_) => Err(Memory),
    }
}

/// Of these bits of a word those that are set in the rows of all these literals.
fn left_of(rows: &[Row], literals: &[u32], word: usize, bits: u64) -> u64
    requires { All (λ n. n < length rows.now) literals.now }
    ensures { (bit : ℕ) → bit_at result bit ≡ 1 ↔ ((bit_at bits bit ≡ 1) × AreAllSet rows.now literals.now word bit) }
{
    let mut left = bits;
    'each: for literal in literals {
        left &= word_at(&rows[*literal as usize], word);
    }
    left
}

/// A word of a row, 0 where there is none.
fn word_at(row: &Row, word: usize) -> u64
    ensures { result ≡ slice_index row.now word }
{
    match row.0.get(word) {
        Some(bits) => *bits,
        None => 0,
    }
}

/// In which of the configurations the literal is true.
fn truths_of(alloc: Global, cases: &Cases, literal: &Literal) -> Result<Vec<bool>, Memory>
    ensures { IfOk result (λ truths. truths.items ≡ truths_of cases.now literal.now) }
{
    let terms = cases.terms.list.as_slice();
    let less = place_of(terms, &literal.less);
    let more = place_of(terms, &literal.more);
    match cases
        .list
        .as_slice()
        .iter()
        .map(|blocks| is_true(blocks.as_slice(), less, more, literal.same))
        .collect(alloc)
    {
        Ok(truths) => Ok(truths),
        Err(_) => Err(Memory),
    }
}

/// Whether a literal between the terms at these places is true.
fn is_true(blocks: &[u32], less: usize, more: usize, same: bool) -> bool
    ensures { result ≡ (if same then slice_index blocks.now less == slice_index blocks.now more
        else not (slice_index blocks.now less == slice_index blocks.now more)) }
{
    let joined = block_at(blocks, less) == block_at(blocks, more);
    joined == same
}

/// Where the term stands; the length of the list where it does not.
#[tactic(auto, using(std::proofs::lemmas::List::drop_more))]
fn place_of(terms: &[Term], term: &Term) -> usize
    ensures { result ≡ list.place_of terms.now term.now }
{
    'each: for (place, other) in terms.iter().enumerate() {
        if term.compare(other).is_eq() {
            return place;
        }
    }
    terms.len()
}
