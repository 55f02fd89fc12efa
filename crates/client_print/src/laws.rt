//! Laws on what is printed, each the contract of a function that does nothing.
ghost use Rattle.client_print.specs.Laws.{ClientsAreReadAgain};

/// A client that is printed and read again is the same one, places aside.
pub fn clients_are_read_again()
    ensures { ClientsAreReadAgain }
{}
