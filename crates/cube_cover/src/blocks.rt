//! The block of a term in a configuration.
ghost use Rattle.std.specs.Prelude.{◌≡◌, slice_index};
ghost use Rattle.std.specs.Ordering.{is_eq};
ghost use Rattle.access_paths.specs.Terms as told;
ghost use Rattle.access_paths.specs.{compare_terms};
ghost use Rattle.case_model.specs.{place_of};

use access_paths::Term;

/// Where the term that the fields lead to from the variable stands; the length of the list where it has none.
#[tactic(auto, using(std::proofs::lemmas::List::drop_more))]
pub(crate) fn place_of(terms: &[Term], variable: u64, fields: &[u32]) -> usize
    ensures { result ≡ place_of terms.now (told.term variable fields.now) }
{
    'each: for (place, term) in terms.iter().enumerate() {
        if is_reached(variable, fields, term) {
            return place;
        }
    }
    terms.len()
}

/// Whether the fields lead to the term from the variable.
fn is_reached(variable: u64, fields: &[u32], term: &Term) -> bool
    ensures { result ≡ is_eq (compare_terms (told.term variable fields.now) term.now) }
{
    let other = term.fields.as_slice();
    fields
        .len()
        .cmp(&other.len())
        .then(variable.cmp(&u64::from(term.var.0)))
        .then(fields.cmp(other))
        .is_eq()
}

/// The block at a place, 0 where there is none.
pub(crate) fn block_at(blocks: &[u32], place: usize) -> u32
    ensures { result ≡ slice_index blocks.now place }
{
    match blocks.get(place) {
        Some(block) => *block,
        None => 0,
    }
}
