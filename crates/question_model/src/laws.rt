//! Laws on questions, as the contracts of functions that do nothing.
ghost use Rattle.question_model.specs.{ClauseAsksTerms, ClauseLaw, OneTree, TreeOrLong, UpdateAsksTerms, UpdateLaw};

/// In a full heap the tree's answer by the heap's own equalities is the truth of the cube after the body.
#[tactic(auto, using(crate::proofs::Truths::update_law))]
pub fn update_law()
    ensures { UpdateLaw }
{}

/// In a full heap the tree's answer by the heap's own equalities is that the clause is false.
#[tactic(auto, using(crate::proofs::Truths::clause_law))]
pub fn clause_law()
    ensures { ClauseLaw }
{}

/// A question has at most one tree, and none where a term would be too long.
#[tactic(auto, using(crate::proofs::TreeLaws::one_tree, crate::proofs::TreeLaws::tree_or_long))]
pub fn one_tree()
    ensures one { OneTree }
    ensures none { TreeOrLong }
{}

/// Questions ask terms of their variables, within the limit of fields, the lesser first.
#[tactic(auto, using(crate::proofs::AskedTerms::update_asks_terms, crate::proofs::AskedTerms::clause_asks_terms))]
pub fn asked_terms()
    ensures update { UpdateAsksTerms }
    ensures clause { ClauseAsksTerms }
{}
