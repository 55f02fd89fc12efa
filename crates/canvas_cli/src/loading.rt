//! Loads the texts that a command names.
ghost use Rattle.std.specs.Prelude.{◌≡◌, ◌<◌, ◌≤◌, ℕ, List, IfOk, IsErrOf};
ghost use Rattle.cv_base.specs.Causes.{Rose};
ghost use Rattle.canvas_cli.specs.Answers.{IsLoaded, IsTooLong};
ghost use Rattle.canvas_cli.specs.Refusals as limits;

use crate::answer::Role;
use cv_base::{LoadFault, Shelf};
use std::alloc::Global;

/// Why there is no text.
#[derive(Clone, Copy, Debug, PartialEq, Eq)]
pub(crate) enum NoText {
    /// The load failed.
    Failed,
    /// It is longer than its limit.
    TooLong,
    /// Memory was wanted and not found.
    Memory,
}

/// Loads the text of this role and name, within its limit.
pub(crate) fn load<S: Shelf>(
    alloc: Global,
    shelf: &mut S,
    name: &str,
    role: Role,
) -> Result<Vec<u8>, NoText>
    ensures text { IfOk result (λ v. IsLoaded role (S.held shelf.old name.now) v.items) }
    ensures failed { IsErrOf result NoText.Failed → Rose (S.faults shelf.old name.now) (S.faults shelf.new name.now) }
    ensures too_long { IsErrOf result NoText.TooLong → IsTooLong role (S.held shelf.old name.now) }
    ensures held { (other : List ℕ) → S.held shelf.new other ≡ S.held shelf.old other }
    ensures later { (other : List ℕ) → S.faults shelf.old other ≤ S.faults shelf.new other }
{
    let most = most_bytes(role);
    match shelf.load(alloc, name, most) {
        Ok(text) => {
            if text.len() > most {
                Err(NoText::TooLong)
            } else {
                Ok(text)
            }
        }
        Err(LoadFault::Failed) => Err(NoText::Failed),
        Err(LoadFault::Memory) => Err(NoText::Memory),
    }
}

/// How many bytes the text of a role may have.
pub(crate) fn most_bytes(role: Role) -> usize
    ensures { result ≡ limits.most_bytes role }
{
    match role {
        Role::Specification => 65_536,
        Role::Client => 1_048_576,
    }
}
