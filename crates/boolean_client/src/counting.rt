//! Which procedure has too many facts.
ghost use Rattle.std.specs.Prelude.{◌≡◌, ◌<◌, IfErr, OnOk, length};
ghost use Rattle.boolean_client.specs.Bounds.{HasFewFacts, IsBig};
ghost use Rattle.client_facts.specs.Counts as told;
ghost use Rattle.client_facts.specs.Held as held;

use client_facts::{Setting, count_facts};

/// How many facts a procedure may have.
const MOST_FACTS: u64 = 65_536;

/// Why a client has no facts to go on.
#[derive(Clone, Copy, Debug, PartialEq, Eq)]
pub enum BigFault {
    /// The first procedure with more than 65,536 facts, and how many it has, over all families. What is always true is not counted.
    Facts { procedure: u32, count: u64 },
    /// Memory was wanted and not found.
    Memory,
}

/// Each procedure has few facts. `Facts` with the first that has more.
pub(crate) fn check_counts(setting: &Setting<'_>) -> Result<(), BigFault>
    ensures few { OnOk result (HasFewFacts (held.setting setting.now)) }
    ensures big { IfErr result (IsBig (held.setting setting.now)) }
{
    'each: for procedure in 0..setting.client().procedure_count() {
        let count = count_of(setting, procedure);
        if count > MOST_FACTS {
            return Err(BigFault::Facts { procedure, count });
        }
    }
    Ok(())
}

/// How many facts the procedure has.
fn count_of(setting: &Setting<'_>, procedure: u32) -> u64
    requires { procedure < length setting.now.client.procedures }
    ensures { result ≡ told.count_facts (held.setting setting.now) procedure }
{
    setting.is_kept();
    setting.client().is_kept();
    match count_facts(setting, procedure) {
        Some(count) => count,
        None => u64::MAX,
    }
}
