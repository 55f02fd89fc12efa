//! The codes of words.
ghost use Rattle.std.specs.Prelude.{◌≡◌, ◌++◌, OnOk, map};
ghost use Rattle.client_model.specs.Contexts as contexts;
ghost use Rattle.client_model.specs.Points as told;
ghost use Rattle.client_values.specs.Knowing.{Knows};
ghost use Rattle.client_values.specs.ToldKinds.{kind_told};

use client_values::{Context, Kind, Setting, class_in, is_literal, variable_named};
use easl_model::Word;
use sqlite_items::Items;
use std::alloc::AllocError;

/// The code of what has a class, None where it is opaque.
pub(crate) fn code_by(code: u32, kind: Kind) -> Option<u32>
    ensures { result ≡ told.code_by code (kind_told kind) }
{
    match class_in(kind) {
        Some(_) => Some(code),
        None => None,
    }
}

/// The code of a variable.
pub(crate) fn code_of(setting: &Setting<'_>, context: &Context, word: &Word) -> Option<u32>
    ensures { (c : contexts.Context) → Knows c context.now → result ≡ told.code_of setting.now c word.now }
{
    match variable_named(setting, context, &word.name) {
        Some(variable) => code_by(variable.code, variable.kind),
        None => None,
    }
}

/// The same of an argument; a literal has none.
pub(crate) fn argument_of(setting: &Setting<'_>, context: &Context, word: &Word) -> Option<u32>
    ensures { (c : contexts.Context) → Knows c context.now → result ≡ told.argument_of setting.now c word.now }
{
    if is_literal(&word.name) {
        return None;
    }
    code_of(setting, context, word)
}

/// Adds those of arguments.
pub(crate) fn add_arguments(
    setting: &Setting<'_>,
    context: &Context,
    words: &[Word],
    args: &mut Items<Option<u32>>,
) -> Result<(), AllocError>
    ensures { OnOk result ((c : contexts.Context) → Knows c context.now → args.new ≡ args.old ++ map (told.argument_of setting.now c) words.now) }
{
    'each: for word in words {
        args.push(argument_of(setting, context, word))?;
    }
    Ok(())
}
