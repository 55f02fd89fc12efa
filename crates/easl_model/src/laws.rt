//! Laws on the definitions, each the contract of a function that does nothing.
ghost use Rattle.easl_model.specs.{FormIsInRange, FormIsTyped, FormNests};

/// What the rules and the limits promise of a checked form: the form of a well-formed tree within the limits has
/// numbers in range, and at most 1,024 statements in place.
pub fn form_is_in_range()
    ensures { FormIsInRange }
{}

/// The checked form of a well-formed tree is typed: slots, paths and values have classes, and constructors are ready.
pub fn form_is_typed()
    ensures { FormIsTyped }
{}

/// The constructors of the checked form of a well-formed tree stand in one another at most as deep as there are classes.
pub fn form_nests()
    ensures { FormNests }
{}
