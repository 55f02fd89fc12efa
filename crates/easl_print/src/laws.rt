//! Laws on what is printed, each the contract of a function that does nothing.
ghost use Rattle.easl_print.specs.Laws.{SpecsAreReadAgain};

/// A specification that is printed and read again is the same one, places aside.
pub fn specs_are_read_again()
    ensures { SpecsAreReadAgain }
{}
