//! Laws on configurations, as the contracts of functions that do nothing.
ghost use Rattle.case_model.specs.{ClausesHaveClasses, HeapsHaveCases};

/// Each full heap with its objects gives one configuration of a term list, and what asks for terms of the list
/// alone is as true there as in the heap.
pub fn heaps_have_cases()
    ensures { HeapsHaveCases }
{}

/// In a checked specification each term of a method's clauses leads to an object of some class.
pub fn clauses_have_classes()
    ensures { ClausesHaveClasses }
{}
