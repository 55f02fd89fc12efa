//! What name codes stand for.
ghost use Rattle.std.specs.Prelude.{◌≡◌};
ghost use Rattle.call_flows.specs.Told.{name_told};
ghost use Rattle.client_model.specs.Codes.{name_of};

/// A name of a procedure: the static, variable or hidden slot of this number, or the result.
#[derive(Clone, Copy, Debug)]
pub(crate) enum Name {
    Static(u32),
    Variable(u32),
    Slot(u32),
    Result(u32),
}

/// The name with this code. The result has a number too, as each code has, which is 0 in facts.
pub(crate) fn name_of(code: u32) -> Name
    ensures { name_told result ≡ name_of code }
{
    let number = code / 4;
    match code % 4 {
        0 => Name::Static(number),
        1 => Name::Variable(number),
        2 => Name::Slot(number),
        _ => Name::Result(number),
    }
}
