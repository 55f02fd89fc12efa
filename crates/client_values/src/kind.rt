//! What types and values are.
ghost use Rattle.std.specs.Prelude.{◌≡◌};
ghost use Rattle.client_values.specs.ToldKinds.{kind_told};
ghost use Rattle.client_model.specs.Settings as told;

use crate::names::class_named;
use easl_model::{CheckedSpec, Sort};

/// What a type or a value is: an object of the class, opaque, nothing, or not known, where a name in it is not there.
#[derive(Clone, Copy, Debug, PartialEq, Eq)]
pub enum Kind {
    Object(u32),
    Opaque,
    Void,
    Unknown,
}

/// An object of the class, or an opaque value.
pub(crate) fn valued(class: Option<u32>) -> Kind
    ensures { kind_told result ≡ told.valued class }
{
    match class {
        Some(class) => Kind::Object(class),
        None => Kind::Opaque,
    }
}

/// What a type is.
pub fn kind_of(spec: &CheckedSpec, sort: &Sort) -> Kind
    ensures { kind_told result ≡ told.kind_of spec.now sort.now }
{
    match sort {
        Sort::Void => Kind::Void,
        Sort::Opaque(_) => Kind::Opaque,
        Sort::Class(word) => match class_named(spec, &word.name) {
            Some(class) => Kind::Object(class),
            None => Kind::Unknown,
        },
    }
}

/// The class, where there is one.
pub fn class_in(kind: Kind) -> Option<u32>
    ensures { result ≡ told.class_in (kind_told kind) }
{
    match kind {
        Kind::Object(class) => Some(class),
        Kind::Opaque | Kind::Void | Kind::Unknown => None,
    }
}

/// Whether a value of the second kind can be taken as one of the first.
pub(crate) fn fits(taken: Kind, given: Kind) -> bool
    ensures { result ≡ told.fits (kind_told taken) (kind_told given) }
{
    match taken {
        Kind::Object(class) => fits_object(class, given),
        Kind::Opaque => fits_opaque(given),
        Kind::Void | Kind::Unknown => true,
    }
}

fn fits_object(class: u32, given: Kind) -> bool
    ensures { result ≡ told.fits (told.Object class) (kind_told given) }
{
    match given {
        Kind::Object(other) => class == other,
        Kind::Opaque | Kind::Void => false,
        Kind::Unknown => true,
    }
}

fn fits_opaque(given: Kind) -> bool
    ensures { result ≡ told.fits told.Opaque (kind_told given) }
{
    match given {
        Kind::Opaque | Kind::Unknown => true,
        Kind::Object(_) | Kind::Void => false,
    }
}
