//! A branch of a question's tree, on which some answers were given.
use crate::stop::Stop;
use access_paths::Term;
use easl_model::CheckedSpec;
use question_model::{Answer, Value};
use std::alloc::Global;
use std::cmp::Ordering;

/// The answers that were given so far, and the specification whose bodies are executed.
#[derive(Drop)]
pub struct Branch<'a> {
    pub alloc: Global,
    pub spec: &'a CheckedSpec,
    pub answers: &'a [Answer],
}

impl Branch<'_> {
    ghost use Rattle.question_model.specs.Stage as stages;
    ghost use Rattle.question_model.specs.Values as told;
    ghost use Rattle.weakest_pre.specs.Running.{Gives};

    /// The answer that was given on two terms, the lesser first.
    #[tactic(auto, using(std::proofs::lemmas::List::drop_more))]
    fn answered(&self, less: &Term, more: &Term) -> Result<bool, Stop>
        ensures { Gives (stages.answered self.now.answers.now less.now more.now) result }
    {
        'each: for answer in self.answers {
            if answer.less.compare(less) == Ordering::Equal
                && answer.more.compare(more) == Ordering::Equal
            {
                return Ok(answer.same);
            }
        }
        Err(Stop::Needs(less.twin(self.alloc)?, more.twin(self.alloc)?))
    }

    /// Whether two terms lead to one object.
    fn ask(&self, left: &Term, right: &Term) -> Result<bool, Stop>
        ensures { Gives (stages.ask self.now.answers.now left.now right.now) result }
    {
        match left.compare(right) {
            Ordering::Less => self.answered(left, right),
            Ordering::Equal => Ok(true),
            Ordering::Greater => self.answered(right, left),
        }
    }

    /// Whether two values are one object.
    pub fn are_same(&self, left: &Value, right: &Value) -> Result<bool, Stop>
        ensures { Gives (told.are_same self.now.answers.now left.now right.now) result }
    {
        match (left, right) {
            (Value::Before(_, term), Value::Before(_, other)) => self.ask(term, other),
            (Value::Fresh(_, number), Value::Fresh(_, other)) => Ok(*number == *other),
            (Value::Nothing, Value::Nothing) => Ok(true),
            _ => Ok(false),
        }
    }
}
