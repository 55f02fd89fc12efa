//! One question asked: its entry, with the families that it meets.
ghost use Rattle.std.specs.Prelude.{◌≡◌, ◌≤◌, MatchResult, length};
ghost use Rattle.std.specs.List.{AllZip};
ghost use Rattle.derivation.specs.Closing.{Comes, Meets};
ghost use Rattle.derivation.specs.Laws.{IsNumbered};
ghost use Rattle.derivation.specs.Rounds.{IsAnswered, IsOverflow, IsQuestion, IsStopped, stop_at};

use crate::ask::{ask_clause, ask_update};
use crate::derive_fault::{DeriveFault, Reason};
use crate::meet::{MeetFault, meet_all};
use crate::reply::{AskFault, Reply};
use access_paths::Family;
use cv_base::List;
use easl_model::CheckedSpec;
use method_abstraction::{Disjunct, Question};
use std::alloc::Global;

/// Asks the question; the families that it is the first to meet are appended. It gives the disjuncts of its entry. The
/// fault is why it stops the derivation, or `Memory`.
pub(crate) fn entry(
    alloc: Global,
    spec: &CheckedSpec,
    families: &mut Vec<Family>,
    question: Question,
) -> Result<List<Disjunct>, DeriveFault>
    requires question { IsQuestion spec.now families.old.items question }
    requires few { length families.old.items ≤ 64 }
    ensures { MatchResult result
        (λ ds. IsAnswered spec.now families.old.items question families.new.items ds)
        (IsStopped spec.now families.old.items question) }
{
    match ask(alloc, spec, families.as_slice(), question) {
        Ok(reply) => answered(alloc, families, question, reply),
        Err(fault) => Err(stopped(question, fault)),
    }
}

/// What the question comes to.
fn ask(
    alloc: Global,
    spec: &CheckedSpec,
    families: &[Family],
    question: Question,
) -> Result<Reply, AskFault>
    requires { IsQuestion spec.now families.now question }
    ensures { Comes spec.now families.now question result }
{
    match question {
        Question::Clause { method, clause } => ask_clause(alloc, spec, method, clause),
        Question::Update {
            method,
            results,
            family,
        } => ask_update(alloc, spec, method, &families[family as usize], results),
    }
}

/// The disjuncts of a question's reply, with the numbers of their families.
fn answered(
    alloc: Global,
    families: &mut Vec<Family>,
    question: Question,
    reply: Reply,
) -> Result<List<Disjunct>, DeriveFault>
    requires few { length families.old.items ≤ 64 }
    ensures { MatchResult result
        (λ ds. Meets families.old.items reply.disjuncts families.new.items × (length families.new.items ≤ 64)
        × AllZip (IsNumbered families.new.items) reply.disjuncts ds)
        (IsOverflow families.old.items reply.disjuncts question) }
{
    match meet_all(alloc, families, reply.disjuncts) {
        Ok(disjuncts) => Ok(disjuncts),
        Err(MeetFault::Full) => Err(DeriveFault::Open {
            reason: Reason::Families,
            question,
        }),
        Err(MeetFault::Memory) => Err(DeriveFault::Memory),
    }
}

/// Why a question without a reply stops the derivation.
fn stopped(question: Question, fault: AskFault) -> DeriveFault
    ensures { result ≡ stop_at question fault }
{
    match fault {
        AskFault::Path => DeriveFault::Open {
            reason: Reason::Path,
            question,
        },
        AskFault::Cases => DeriveFault::Cases { question },
        AskFault::Cover => DeriveFault::Open {
            reason: Reason::Cover,
            question,
        },
        AskFault::Memory => DeriveFault::Memory,
    }
}
