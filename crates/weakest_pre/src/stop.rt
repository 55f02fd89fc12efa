//! Why a question is not answered.
use access_paths::Term;
use std::alloc::AllocError;

/// Why a question is not answered: an answer on two terms is needed, the lesser first, a term of 7 fields arises, or
/// memory was wanted and not found.
#[derive(Debug, Drop)]
pub enum Stop {
    Needs(Term, Term),
    Long,
    Memory,
}

impl From<AllocError> for Stop {
    ghost use Rattle.std.specs.Prelude.{◌≡◌};
    ghost use Rattle.weakest_pre.specs.declared.stop.Stop.TheVariants as Stop;

    ghost from_gives = { λ _ stop. stop ≡ Stop.Memory };

    fn from(_: AllocError) -> Stop {
        Stop::Memory
    }
}
