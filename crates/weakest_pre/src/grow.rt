//! Trees of questions, grown from what each list of answers comes to.
ghost use Rattle.std.specs.Prelude.{◌≡◌, [], ◌∷◌, ◌++◌, OnOk};
ghost use Rattle.question_model.specs.{said};
ghost use Rattle.weakest_pre.specs.Growing.{Grows};

use crate::stop::Stop;
use access_paths::{SplitFault, Term, Tree};
use question_model::Answer;
use sqlite_items::Boxed;
use std::alloc::{AllocError, Global};

/// A question, which is executed with the answers so far.
pub trait Question {
    ghost use Rattle.std.specs.Prelude.{List, Bool};
    ghost use Rattle.question_model.specs.Stage.{Stage};
    ghost use Rattle.question_model.specs.declared.answer.Answer.{Answer};
    ghost use Rattle.weakest_pre.specs.Running.{Gives};

    ghost ready: { Self → Type 0 };

    ghost comes: { Self → List Answer → Stage Bool };

    fn run(&self, alloc: Global, answers: &[Answer]) -> Result<bool, Stop>
        requires { ready self.now }
        ensures { Gives (comes self.now answers.now) result };
}

/// Adds the answer on these two terms.
fn push(
    alloc: Global,
    answers: &mut Vec<Answer>,
    less: &Term,
    more: &Term,
    same: bool,
) -> Result<(), AllocError>
    ensures { OnOk result (answers.new.items ≡ answers.old.items ++ said less.now more.now same ∷ []) }
{
    let answer = Answer {
        less: less.twin(alloc)?,
        more: more.twin(alloc)?,
        same,
    };
    match answers.push(answer) {
        Ok(()) => Ok(()),
        Err(_) => Err(AllocError),
    }
}

/// The tree of the question behind these answers, which are the same afterwards. A tree that is not less deep than
/// `depth` is want of memory.
#[tactic(auto, using(question_model::proofs::TreeLaws::long_on, question_model::proofs::TreeLaws::long_here, crate::proofs::Splitting::taken_back))]
fn grow_behind<Q: Question>(
    alloc: Global,
    question: &Q,
    answers: &mut Vec<Answer>,
    depth: u64,
) -> Result<Tree, SplitFault>
    requires { Q.ready question.now }
    ensures tree { Grows (Q.comes question.now) answers.old.items result }
    ensures same { OnOk result (answers.new.items ≡ answers.old.items) }
{
    if depth == 0 {
        return Err(SplitFault::Memory);
    }
    match question.run(alloc, answers.as_slice()) {
        Ok(answer) => Ok(Tree::Leaf(answer)),
        Err(Stop::Needs(less, more)) => {
            let count = answers.len();
            push(alloc, answers, &less, &more, true)?;
            let first = grow_behind(alloc, question, answers, depth - 1)?;
            answers.truncate(count);
            push(alloc, answers, &less, &more, false)?;
            let second = grow_behind(alloc, question, answers, depth - 1)?;
            answers.truncate(count);
            let first = Boxed::new(alloc, first)?;
            let second = Boxed::new(alloc, second)?;
            Ok(Tree::Ask(less, more, first, second))
        }
        Err(Stop::Long) => Err(SplitFault::Path),
        Err(Stop::Memory) => Err(SplitFault::Memory),
    }
}

/// The tree of the question.
pub fn grow<Q: Question>(alloc: Global, question: &Q) -> Result<Tree, SplitFault>
    requires { Q.ready question.now }
    ensures { Grows (Q.comes question.now) [] result }
{
    let mut answers = Vec::new(alloc);
    grow_behind(alloc, question, &mut answers, u64::MAX)
}
